//! Scripts as the grammar has them.
ghost use Rattle.std.specs.Prelude.{◌≡◌, ◌≤◌, IfOk, MatchResult, length};
ghost use Rattle.script_text.specs.Reading.{script_of};
ghost use Rattle.script_text.specs.Scripts.{IsScript, IsBadScript};

use crate::reading::read_lines;
use crate::whys::BadScript;
use cluster_model::Script;
use rm_base::WantOfMemory;
use std::alloc::Global;

/// The script that the bytes are, or the first line that is bad and the first thing that is wrong with it.
pub fn read_script(alloc: Global, bytes: &[u8]) -> Result<Result<Script, BadScript>, WantOfMemory>
    requires { length bytes.now ≤ 4194304 }
    ensures value { IfOk result (λ r. r ≡ script_of bytes.now) }
    ensures grammar { IfOk result (λ r. MatchResult r (λ s. IsScript bytes.now s) (λ e. IsBadScript bytes.now e)) }
{
    read_lines(alloc, bytes)
}
