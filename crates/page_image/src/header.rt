//! The fields in front of a page.
ghost use Rattle.std.specs.Prelude.{◌≡◌, ◌≤◌, ◌++◌, length, drop};
ghost use Rattle.page_image.specs.Layout.{header_at, header_bytes};

use crate::kind::Kind;
use rm_base::{PAGE_HEADER_BYTES, get_u16, get_u32, get_u64, put_u16, put_u32, put_u64};

/// The fields of a page's header.
#[derive(Clone, Copy)]
pub(crate) struct Header {
    pub kind: Kind,
    pub slots: u16,
    pub page: u32,
    pub lsn: u64,
    pub structure: u64,
    pub next: u32,
    pub low: u16,
    pub level: u8,
}

impl Header {
    /// A first byte past 6 is read as an unmade page's.
    pub(crate) fn read(bytes: &[u8]) -> Header
        requires { PAGE_HEADER_BYTES ≤ length bytes.now }
        ensures { result ≡ header_at bytes.now }
    {
        Header {
            kind: Kind::from_number(bytes[0]).unwrap_or(Kind::Unmade),
            slots: get_u16(bytes, 2),
            page: get_u32(bytes, 4),
            lsn: get_u64(bytes, 8),
            structure: get_u64(bytes, 16),
            next: get_u32(bytes, 24),
            low: get_u16(bytes, 28),
            level: bytes[30],
        }
    }

    pub(crate) fn write(&self, bytes: &mut [u8])
        requires { PAGE_HEADER_BYTES ≤ length bytes.old }
        ensures { bytes.new ≡ header_bytes self.now ++ drop PAGE_HEADER_BYTES bytes.old }
    {
        bytes[0] = self.kind.number();
        bytes[1] = 0;
        put_u16(bytes, 2, self.slots);
        put_u32(bytes, 4, self.page);
        put_u64(bytes, 8, self.lsn);
        put_u64(bytes, 16, self.structure);
        put_u32(bytes, 24, self.next);
        put_u16(bytes, 28, self.low);
        bytes[30] = self.level;
        bytes[31] = 0;
    }
}
