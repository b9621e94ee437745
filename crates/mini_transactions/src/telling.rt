ghost use Rattle.std.specs.Prelude.{◌≡◌};
ghost use Rattle.mini_transactions.specs.Telling.{address_in, is_done};

use message_network::Reply;
use rm_base::Addr;

/// The page's address, in an answer to `register`.
pub fn address_in(reply: &Reply) -> Option<Addr>
    ensures { result ≡ address_in reply.now }
{
    match reply {
        Reply::Registered { addr, .. } => Some(*addr),
        _ => None,
    }
}

/// Whether the home answered that no local bit is still to be set.
pub fn is_done(reply: &Reply) -> bool
    ensures { result ≡ is_done reply.now }
{
    matches!(reply, Reply::Done)
}
