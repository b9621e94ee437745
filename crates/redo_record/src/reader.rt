ghost use Rattle.std.specs.Prelude.{◌≡◌, ◌↔◌, IsTrue, [], length, Some};
ghost use Rattle.page_image.specs.Image.{LevelFits};
ghost use Rattle.redo_record.specs.Reading.{level_fits, byte_at, number_at, page_number_at, kind_at, counted_at};
ghost use Rattle.redo_record.specs.Reads.{Reads, ReadsIfMemory};

use page_image::Kind;
use rm_base::{
    Bytes, Items, PAGE_BYTES, PAGE_HEADER_BYTES, PageId, WantOfMemory, get_u16, get_u32,
};
use std::alloc::Global;
use std::marker::Model;

/// The bytes left begin no such field or record.
#[derive(Clone, Copy, Debug, PartialEq, Eq)]
pub struct Malformed;

/// Why a field or a record that takes memory was not read.
#[derive(Clone, Copy, Debug, PartialEq, Eq)]
pub enum Unread {
    Malformed,
    WantOfMemory,
}

impl From<Malformed> for Unread {
    ghost use Rattle.std.specs.Prelude.{◌≡◌};
    ghost use Rattle.redo_record.specs.declared.reader.Unread.TheVariants.{Malformed as IsMalformed};

    ghost from_gives = { λ _ e. e ≡ IsMalformed };

    fn from(_e: Malformed) -> Unread {
        Unread::Malformed
    }
}

impl From<WantOfMemory> for Unread {
    ghost use Rattle.std.specs.Prelude.{◌≡◌};
    ghost use Rattle.redo_record.specs.declared.reader.Unread.TheVariants.{WantOfMemory as NoMemory};

    ghost from_gives = { λ _ e. e ≡ NoMemory };

    fn from(_e: WantOfMemory) -> Unread {
        Unread::WantOfMemory
    }
}

/// The bytes of a group that are left to read. Each reading takes from their front.
#[derive(Debug, Drop)]
pub struct Reader<'a> {
    bytes: &'a [u8],
}

impl<'a> Model for Reader<'a> {
    ghost use Rattle.std.specs.Prelude.{List, ℕ};
    ghost use Rattle.std.specs.Coded.{coded_list, coded_ℕ};

    ghost Value = { List ℕ };

    ghost coded = { coded_list coded_ℕ };

    ghost view = { λ r. r.bytes.now };
}

impl<'a> Reader<'a> {
    pub fn over(bytes: &'a [u8]) -> Reader<'a>
        ensures { result ≡ bytes.now }
    {
        Reader { bytes }
    }

    pub fn len(&self) -> usize
        ensures { result ≡ length self.now }
    {
        self.bytes.len()
    }

    pub fn is_empty(&self) -> bool
        ensures { IsTrue result ↔ (self.now ≡ []) }
    {
        self.bytes.is_empty()
    }

    pub fn u8(&mut self) -> Result<u8, Malformed>
        ensures { Reads result self.new (byte_at self.old) }
    {
        match self.bytes {
            [] => Err(Malformed),
            [byte, rest @ ..] => {
                self.bytes = rest;
                Ok(*byte)
            }
        }
    }

    pub fn u16(&mut self) -> Result<u16, Malformed>
        ensures { Reads result self.new (number_at 2 self.old) }
    {
        if self.bytes.len() < 2 {
            return Err(Malformed);
        }
        let number = get_u16(self.bytes, 0);
        self.bytes = &self.bytes[2..];
        Ok(number)
    }

    pub fn u32(&mut self) -> Result<u32, Malformed>
        ensures { Reads result self.new (number_at 4 self.old) }
    {
        if self.bytes.len() < 4 {
            return Err(Malformed);
        }
        let number = get_u32(self.bytes, 0);
        self.bytes = &self.bytes[4..];
        Ok(number)
    }

    /// The number of a page.
    #[tactic(auto, unfolding(crate::specs::Reading::page_number_at))]
    pub fn page(&mut self) -> Result<PageId, Malformed>
        ensures { Reads result self.new (page_number_at self.old) }
    {
        let number = self.u32()?;
        match PageId::new(number) {
            Some(page) => Ok(page),
            None => Err(Malformed),
        }
    }

    /// The kind that a page is made of.
    #[tactic(auto, unfolding(crate::specs::Reading::kind_at))]
    pub fn kind(&mut self) -> Result<Kind, Malformed>
        ensures { Reads result self.new (kind_at self.old) }
    {
        let number = self.u8()?;
        if number < 1 {
            return Err(Malformed);
        }
        match Kind::from_number(number) {
            Some(kind) => Ok(kind),
            None => Err(Malformed),
        }
    }

    /// Bytes behind their number, a patch or an item.
    #[tactic(auto, unfolding(crate::specs::Reading::counted_at))]
    pub fn counted(&mut self, alloc: Global) -> Result<Bytes, Unread>
        ensures { ReadsIfMemory result self.new (counted_at self.old) }
    {
        let n = usize::from(self.u16()?);
        if n < 1 || n > PAGE_BYTES - PAGE_HEADER_BYTES || n > self.bytes.len() {
            return Err(Unread::Malformed);
        }
        let mut bytes = Items::new(alloc);
        bytes.append(&self.bytes[..n])?;
        self.bytes = &self.bytes[n..];
        Ok(bytes)
    }
}

/// Whether a page of the kind can be at the level.
pub fn fits_level(kind: Kind, level: u8) -> bool
    ensures { result ≡ level_fits kind level }
{
    match kind {
        Kind::Inner => 1 <= level && level <= 8,
        _ => level == 0,
    }
}
