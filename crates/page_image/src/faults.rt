//! Where bytes break the rules of a page.
ghost use Rattle.std.specs.Prelude.{◌≡◌, ◌≤◌, ◌<◌, length, IfNone, IfSome};
ghost use Rattle.page_image.specs.Layout.{end_of, header_at};
ghost use Rattle.page_image.specs.Faults.{slots_hold, lsn_holds, next_holds, low_holds, level_holds, zero_end};
ghost use Rattle.page_image.specs.Faults.{first_broken, header_rules, slot_holds, slot_fault, byte_fault, fault};

use crate::MOST_SLOTS;
use crate::header::Header;
use crate::kind::Kind;
use crate::layout::item_end;
use rm_base::{MAX_PAGE_ID, MAX_TREE_LEVEL, PAGE_BYTES, PAGE_HEADER_BYTES};

impl Header {
    fn slots_hold(&self) -> bool
        ensures { result ≡ slots_hold self.now }
    {
        if self.kind.has_items() {
            self.slots <= MOST_SLOTS
        } else {
            self.slots == 0
        }
    }

    fn lsn_holds(&self) -> bool
        ensures { result ≡ lsn_holds self.now }
    {
        if self.kind.has_items() || self.kind.has_body() {
            0 < self.lsn
        } else {
            self.lsn == 0
        }
    }

    fn next_holds(&self) -> bool
        ensures { result ≡ next_holds self.now }
    {
        if self.kind.has_items() {
            self.next <= MAX_PAGE_ID
        } else {
            self.next == 0
        }
    }

    fn low_holds(&self, bytes: &[u8]) -> bool
        requires slots { self.now.slots ≤ 1354 }
        requires all { length bytes.now ≡ PAGE_BYTES }
        ensures { result ≡ low_holds bytes.now self.now }
    {
        if self.kind.has_items() {
            usize::from(self.low) == item_end(bytes, usize::from(self.slots))
        } else {
            self.low == 0
        }
    }

    fn level_holds(&self) -> bool
        ensures { result ≡ level_holds self.now }
    {
        match self.kind {
            Kind::Inner => 1 <= self.level && self.level <= MAX_TREE_LEVEL,
            _ => self.level == 0,
        }
    }

    /// Where the zero bytes past the slots end.
    fn zero_end(&self) -> usize
        ensures { result ≡ zero_end self.now }
    {
        if self.kind.has_items() {
            usize::from(self.low)
        } else if self.kind.has_body() {
            PAGE_HEADER_BYTES
        } else {
            PAGE_BYTES
        }
    }
}

/// The offset of the first field of the header that breaks its rule.
fn header_fault(bytes: &[u8], header: &Header) -> Option<usize>
    requires all { length bytes.now ≡ PAGE_BYTES }
    requires header { header.now ≡ header_at bytes.now }
    ensures fault { result ≡ first_broken (header_rules bytes.now) }
    ensures bound { IfSome result (λ at. at ≤ PAGE_BYTES) }
{
    if bytes[0] > 6 {
        return Some(0);
    }
    if bytes[1] != 0 {
        return Some(1);
    }
    if !header.slots_hold() {
        return Some(2);
    }
    if header.page > MAX_PAGE_ID {
        return Some(4);
    }
    if !header.lsn_holds() {
        return Some(8);
    }
    if header.structure > header.lsn {
        return Some(16);
    }
    if !header.next_holds() {
        return Some(24);
    }
    if !header.low_holds(bytes) {
        return Some(28);
    }
    if !header.level_holds() {
        return Some(30);
    }
    if bytes[31] != 0 {
        return Some(31);
    }
    None
}

/// Whether item i, one of `count`, has a byte and does not reach into the slots.
fn slot_holds(bytes: &[u8], count: usize, i: usize) -> bool
    requires all { length bytes.now ≡ PAGE_BYTES }
    requires count { count ≤ 1354 }
    requires place { i < count }
    ensures { result ≡ slot_holds bytes.now count i }
{
    let begin = item_end(bytes, i + 1);
    begin < item_end(bytes, i) && PAGE_HEADER_BYTES + 2 * count <= begin
}

/// The offset of the first of `count` slots that breaks its rules.
fn slots_fault(bytes: &[u8], count: usize) -> Option<usize>
    requires all { length bytes.now ≡ PAGE_BYTES }
    requires count { count ≤ 1354 }
    ensures fault { result ≡ slot_fault bytes.now count }
    ensures within { IfSome result (λ at. at ≤ PAGE_BYTES) }
    ensures bound { IfNone result (end_of bytes.now count ≤ PAGE_BYTES) }
{
    for i in 0..count {
        if !slot_holds(bytes, count, i) {
            return Some(PAGE_HEADER_BYTES + 2 * i);
        }
    }
    None
}

/// The offset of the first byte from `from` up to `to` that is not zero.
fn bytes_fault(bytes: &[u8], from: usize, to: usize) -> Option<usize>
    requires within { to ≤ length bytes.now }
    requires all { length bytes.now ≡ PAGE_BYTES }
    ensures fault { result ≡ byte_fault bytes.now from to }
    ensures bound { IfSome result (λ at. at ≤ PAGE_BYTES) }
{
    for k in from..to {
        if bytes[k] != 0 {
            return Some(k);
        }
    }
    None
}

/// The offset at which the bytes are no page, as 4,096 for bytes of another length.
pub(crate) fn first_fault(bytes: &[u8]) -> Option<usize>
    ensures fault { result ≡ fault bytes.now }
    ensures bound { IfSome result (λ at. at ≤ PAGE_BYTES) }
{
    if bytes.len() != PAGE_BYTES {
        return Some(PAGE_BYTES);
    }
    let header = Header::read(bytes);
    if let Some(at) = header_fault(bytes, &header) {
        return Some(at);
    }
    let count = usize::from(header.slots);
    if let Some(at) = slots_fault(bytes, count) {
        return Some(at);
    }
    bytes_fault(bytes, PAGE_HEADER_BYTES + 2 * count, header.zero_end())
}
