ghost use Rattle.std.specs.Prelude.{◌≡◌, ◌+◌, ◌++◌, ◌≤◌, OnOk, OnErr, length, drop};
ghost use Rattle.rm_base.specs.Fields.{field, number, with_field, ReadsBack, PutsBack, OrderedAsNumbers};

use crate::errors::WantOfMemory;
use crate::items::Items;
use byteorder::{BigEndian, ByteOrder};

/// The number in the 2 bytes from `at` on, the highest byte first.
#[tactic(auto, unfolding(crate::specs::Fields::number))]
pub fn get_u16(bytes: &[u8], at: usize) -> u16
    requires { at + 2 ≤ length bytes.now }
    ensures { result ≡ number 2 (drop at bytes.now) }
{
    BigEndian::read_u16(&bytes[at..])
}

/// The number in the 4 bytes from `at` on, the highest byte first.
#[tactic(auto, unfolding(crate::specs::Fields::number))]
pub fn get_u32(bytes: &[u8], at: usize) -> u32
    requires { at + 4 ≤ length bytes.now }
    ensures { result ≡ number 4 (drop at bytes.now) }
{
    BigEndian::read_u32(&bytes[at..])
}

/// The number in the 8 bytes from `at` on, the highest byte first.
#[tactic(auto, unfolding(crate::specs::Fields::number))]
pub fn get_u64(bytes: &[u8], at: usize) -> u64
    requires { at + 8 ≤ length bytes.now }
    ensures { result ≡ number 8 (drop at bytes.now) }
{
    BigEndian::read_u64(&bytes[at..])
}

/// Puts `v` into the 2 bytes from `at` on, the highest byte first.
pub fn put_u16(bytes: &mut [u8], at: usize, v: u16)
    requires { at + 2 ≤ length bytes.old }
    ensures { bytes.new ≡ with_field 2 bytes.old at v }
{
    BigEndian::write_u16(&mut bytes[at..], v);
}

/// Puts `v` into the 4 bytes from `at` on, the highest byte first.
pub fn put_u32(bytes: &mut [u8], at: usize, v: u32)
    requires { at + 4 ≤ length bytes.old }
    ensures { bytes.new ≡ with_field 4 bytes.old at v }
{
    BigEndian::write_u32(&mut bytes[at..], v);
}

/// Puts `v` into the 8 bytes from `at` on, the highest byte first.
pub fn put_u64(bytes: &mut [u8], at: usize, v: u64)
    requires { at + 8 ≤ length bytes.old }
    ensures { bytes.new ≡ with_field 8 bytes.old at v }
{
    BigEndian::write_u64(&mut bytes[at..], v);
}

/// Adds `v` as 2 bytes, the highest byte first. `WantOfMemory` leaves the list as it was.
pub fn push_u16(out: &mut Items<u8>, v: u16) -> Result<(), WantOfMemory>
    ensures ok { OnOk result (out.new ≡ out.old ++ field 2 v) }
    ensures err { OnErr result (out.new ≡ out.old) }
{
    let mut bytes = [0; 2];
    put_u16(&mut bytes, 0, v);
    out.append(&bytes)
}

/// Adds `v` as 4 bytes, the highest byte first. `WantOfMemory` leaves the list as it was.
pub fn push_u32(out: &mut Items<u8>, v: u32) -> Result<(), WantOfMemory>
    ensures ok { OnOk result (out.new ≡ out.old ++ field 4 v) }
    ensures err { OnErr result (out.new ≡ out.old) }
{
    let mut bytes = [0; 4];
    put_u32(&mut bytes, 0, v);
    out.append(&bytes)
}

/// Adds `v` as 8 bytes, the highest byte first. `WantOfMemory` leaves the list as it was.
pub fn push_u64(out: &mut Items<u8>, v: u64) -> Result<(), WantOfMemory>
    ensures ok { OnOk result (out.new ≡ out.old ++ field 8 v) }
    ensures err { OnErr result (out.new ≡ out.old) }
{
    let mut bytes = [0; 8];
    put_u64(&mut bytes, 0, v);
    out.append(&bytes)
}

/// The laws of a field of `n` bytes: what is read is the number that was put; putting back the number
/// that was read leaves the bytes as they were; and fields of one size are ordered, byte by byte, as
/// their numbers are. It does nothing when it is run.
#[tactic(auto, using(crate::proofs::FieldLaws::reads_back, crate::proofs::FieldLaws::puts_back, crate::proofs::FieldOrder::ordered_as_numbers))]
pub fn field_laws()
    ensures reads_back { ReadsBack }
    ensures puts_back { PutsBack }
    ensures ordered { OrderedAsNumbers }
{}
