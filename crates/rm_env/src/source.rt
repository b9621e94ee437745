ghost use Rattle.std.specs.Prelude.{ℕ, List, ◌≤◌, IfOk, OnErr, Option, length};
ghost use Rattle.std.specs.Io.KnownBytes.{ReadConsumes};
ghost use Rattle.rm_env.specs.Faults.{Rose};

use thiserror::Error;

/// A source gave no bytes, and its count of faults rose.
#[derive(Clone, Copy, Debug, PartialEq, Eq, Error)]
#[error("the source failed")]
pub struct Failed;

/// Where bytes come from.
///
/// `left` are the bytes to come, where the source tells them. `faults` counts what went wrong; it
/// never falls, and stands still at the last value of a u64.
pub trait Source {
    ghost left: { Self → Option (List ℕ) };

    ghost faults: { Self → ℕ };

    /// Fills the first n bytes of the buffer with the first n of `left`, at `Ok(n)`. `Ok(0)` for a
    /// buffer that is not empty is the end. After `Failed` the next call may give bytes again. What
    /// the buffer holds past the first n bytes, and after `Failed`, is not said.
    fn read(&mut self, buf: &mut [u8]) -> Result<usize, Failed>
        ensures bound { IfOk result (λ n. n ≤ length buf.new) }
        ensures bytes { ReadConsumes (left self.old) (left self.new) result buf.new }
        ensures count { faults self.old ≤ faults self.new }
        ensures failed { OnErr result (Rose (faults self.old) (faults self.new)) };
}
