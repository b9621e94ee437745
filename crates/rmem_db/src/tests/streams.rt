ghost use Rattle.std.specs.Prelude.{None};

use crate::running::run;
use crate::status::Status;
use crate::tests::serve;
use rm_env::{Failed, Sink, SinkNo, Source};
use std::cell::Cell;
use std::rc::Rc;
use std::test::Fail;

/// Gives one line a read, and notes whether each line before it was answered by then, and whether a read
/// asked for more than 65,536 bytes.
#[derive(Drop)]
struct Watched {
    reads: usize,
    written: Rc<Cell<usize>>,
    late: Rc<Cell<bool>>,
}

impl Source for Watched {
    ghost left = { λ _. None };

    ghost faults = { λ _. 0 };

    fn read(&mut self, buf: &mut [u8]) -> Result<usize, Failed> {
        let line = b"no statement\n";
        if self.written.get() != self.reads || buf.len() > 65_536 || buf.len() < line.len() {
            self.late.set(true);
            return Ok(0);
        }
        if self.reads == 5 {
            return Ok(0);
        }
        self.reads = self.reads.saturating_add(1);
        buf[..line.len()].copy_from_slice(line.as_slice());
        Ok(line.len())
    }
}

/// Counts the pieces that it takes.
#[derive(Drop)]
struct Counted {
    written: Rc<Cell<usize>>,
}

impl Sink for Counted {
    ghost taken = { λ _. None };

    ghost faults = { λ _. 0 };

    fn write(&mut self, bytes: &[u8]) -> Result<usize, SinkNo> {
        self.written.set(self.written.get().saturating_add(1));
        Ok(bytes.len())
    }
}

#[test]
fn a_line_is_answered_before_more_is_read(rt: HostRuntime) -> Result<(), Fail> {
    let alloc = rt.alloc();
    let written = Rc::new(alloc, Cell::new(0))?;
    let late = Rc::new(alloc, Cell::new(false))?;
    let mut source = Watched {
        reads: 0,
        written: written.clone()?,
        late: late.clone()?,
    };
    let mut sink = Counted {
        written: written.clone()?,
    };
    let status = run(alloc, &serve(alloc)?, &mut source, &mut sink, &mut None);
    assert_eq!(rt; status, Status::Done);
    assert_eq!(rt; late.get(), false);
    assert_eq!(rt; written.get(), 5);
    Ok(())
}
