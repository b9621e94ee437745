ghost use Rattle.std.specs.Prelude.{◌≡◌};
ghost use Rattle.home_service.specs.Keeping.{IsPlain};

use message_network::Reply;

/// The same reply, which holds no page. It takes no memory.
pub(crate) fn same_reply(reply: &Reply) -> Reply
    requires { IsPlain reply.now }
    ensures { result ≡ reply.now }
{
    match reply {
        Reply::Registered { addr, bit, floor } => Reply::Registered {
            addr: *addr,
            bit: *bit,
            floor: *floor,
        },
        Reply::PoolFull { slots } => Reply::PoolFull { slots: *slots },
        Reply::Unregistered => Reply::Unregistered,
        Reply::Started { due } => Reply::Started { due: *due },
        Reply::Done => Reply::Done,
        Reply::Appended(appended) => Reply::Appended(*appended),
        Reply::Got(_) => unreachable!(),
        Reply::Fenced(epoch) => Reply::Fenced(*epoch),
    }
}
