ghost use Rattle.sql_front.specs.declared.stopping.Stop.TheVariants as stop;
ghost use Rattle.std.specs.Prelude.{◌≡◌};

use rm_base::WantOfMemory;
use std::alloc::AllocError;

/// Why a statement is not read to its end: the next token cannot stand here, or no memory is left.
#[derive(Clone, Copy, Debug, PartialEq, Eq)]
pub enum Stop {
    Memory,
    Refused,
}

impl From<WantOfMemory> for Stop {
    ghost from_gives = { λ _ e. e ≡ stop.Memory };

    fn from(_e: WantOfMemory) -> Stop {
        Stop::Memory
    }
}

impl From<AllocError> for Stop {
    ghost from_gives = { λ _ e. e ≡ stop.Memory };

    fn from(_e: AllocError) -> Stop {
        Stop::Memory
    }
}
