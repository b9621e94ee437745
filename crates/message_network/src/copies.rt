//! Copies of what owns memory.
ghost use Rattle.std.specs.Prelude.{◌≡◌, IfOk};

use crate::calls::Reply;
use message_model::Got;
use rm_base::{Duplicate, WantOfMemory};
use std::alloc::Global;

fn copy_got(alloc: Global, got: &Got) -> Result<Got, WantOfMemory>
    ensures { IfOk result (λ copied. copied ≡ got.now) }
{
    match got {
        Got::Image(page) => Ok(Got::Image(page.copy(alloc)?)),
        Got::NotYet { applied } => Ok(Got::NotYet { applied: *applied }),
    }
}

impl Duplicate for Reply {
    fn copy(&self, alloc: Global) -> Result<Reply, WantOfMemory> {
        let copied = match self {
            Reply::Registered { addr, bit, floor } => Reply::Registered {
                addr: *addr,
                bit: *bit,
                floor: *floor,
            },
            Reply::PoolFull { slots } => Reply::PoolFull { slots: *slots },
            Reply::Unregistered => Reply::Unregistered,
            Reply::Started { due } => Reply::Started { due: *due },
            Reply::Done => Reply::Done,
            Reply::Appended(appended) => Reply::Appended(*appended),
            Reply::Got(got) => Reply::Got(copy_got(alloc, got)?),
            Reply::Fenced(epoch) => Reply::Fenced(*epoch),
        };
        Ok(copied)
    }
}
