ghost use Rattle.std.specs.Prelude.{◌≡◌, ◌≢◌, ◌≤◌, length, IfOk};
ghost use Rattle.std.specs.Result.{OkIff};
ghost use Rattle.row_codec.specs.Keys.{key_bytes, OrderedAsKeys, TellKeysApart};
ghost use Rattle.row_codec.specs.Reading.{ReadsKeysBack};

use crate::TooLarge;
use rm_base::{Bytes, MAX_KEY_BYTES, WantOfMemory, put_u64};
use sql_values::Value;
use std::alloc::Global;

/// The bytes of a key: 8 for an INT, the text's own for a TEXT. Refused exactly past 64 bytes.
pub fn key_of(alloc: Global, value: &Value) -> Result<Result<Bytes, TooLarge>, WantOfMemory>
    requires { value.now ≢ Value.Null }
    ensures { IfOk result (λ key. OkIff key (length (key_bytes value.now) ≤ MAX_KEY_BYTES) (key_bytes value.now)) }
{
    let mut key = Bytes::new(alloc);
    match value {
        Value::Null => unreachable!(),
        Value::Int(number) => {
            let mut bytes = [0u8; 8];
            put_u64(&mut bytes, 0, number.abs_diff(i64::MIN));
            key.append(&bytes)?;
        }
        Value::Text(text) => {
            if text.len() > MAX_KEY_BYTES {
                return Ok(Err(TooLarge));
            }
            key.append(text.as_slice())?;
        }
    }
    Ok(Ok(key))
}

/// Key bytes are ordered as the keys of one sort are, only equal keys have equal bytes, and a key is read back
/// from its bytes. It does nothing when it is run.
#[tactic(auto, using(crate::proofs::KeyLaws::ordered, crate::proofs::KeyLaws::apart, crate::proofs::ReadingLaws::reads_back))]
pub fn key_laws()
    ensures ordered { OrderedAsKeys }
    ensures apart { TellKeysApart }
    ensures back { ReadsKeysBack }
{}
