ghost use Rattle.std.specs.Prelude.{ℕ, List, ◌≡◌, ◌≤◌, ◌<◌, IfOk, IsErrOf, Option, Ok, length};
ghost use Rattle.std.specs.Io.KnownBytes.{WriteAppends};
ghost use Rattle.rm_env.specs.Faults.{Rose};

use thiserror::Error;

/// Why a sink took nothing.
#[derive(Clone, Copy, Debug, PartialEq, Eq, Error)]
pub enum SinkNo {
    /// Its count of faults rose.
    #[error("the sink failed")]
    Failed,
    #[error("out of memory")]
    WantOfMemory,
}

impl From<rm_base::WantOfMemory> for SinkNo {
    ghost use Rattle.std.specs.Prelude.{◌≡◌};
    ghost use Rattle.rm_env.specs.declared.sink.SinkNo.TheVariants.{WantOfMemory};

    ghost from_gives = { λ _ no. no ≡ WantOfMemory };

    fn from(_e: rm_base::WantOfMemory) -> SinkNo {
        SinkNo::WantOfMemory
    }
}

/// Where bytes go.
///
/// `taken` are the bytes taken so far, where the sink tells them. `faults` counts what went wrong; it
/// never falls, and stands still at the last value of a u64.
pub trait Sink {
    ghost taken: { Self → Option (List ℕ) };

    ghost faults: { Self → ℕ };

    /// Takes the first n bytes at `Ok(n)`, and none at `Err`. `Ok(0)` for a piece that is not empty is
    /// a fault.
    fn write(&mut self, bytes: &[u8]) -> Result<usize, SinkNo>
        ensures bound { IfOk result (λ n. n ≤ length bytes.now) }
        ensures bytes { WriteAppends (taken self.old) (taken self.new) result bytes.now }
        ensures count { faults self.old ≤ faults self.new }
        ensures failed { IsErrOf result SinkNo.Failed → Rose (faults self.old) (faults self.new) }
        ensures stuck { result ≡ Ok 0 → 0 < length bytes.now → Rose (faults self.old) (faults self.new) };
}
