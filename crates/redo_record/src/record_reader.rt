ghost use Rattle.redo_record.specs.Reading.{make_at, patch_at, insert_at, remove_at, cut_at, link_at, record_at};
ghost use Rattle.redo_record.specs.Reads.{Reads, ReadsIfMemory};

use crate::reader::{Malformed, Reader, Unread, fits_level};
use crate::redo::{CUT, INSERT_SLOT, LINK, MAKE, PATCH, REMOVE_SLOT, Record};
use std::alloc::Global;

impl<'a> Reader<'a> {
    #[tactic(auto, unfolding(crate::specs::Reading::make_at))]
    fn make(&mut self) -> Result<Record, Malformed>
        ensures { Reads result self.new (make_at self.old) }
    {
        let page = self.page()?;
        let kind = self.kind()?;
        let level = self.u8()?;
        if !fits_level(kind, level) {
            return Err(Malformed);
        }
        Ok(Record::Make { page, kind, level })
    }

    #[tactic(auto, unfolding(crate::specs::Reading::patch_at))]
    fn patch(&mut self, alloc: Global) -> Result<Record, Unread>
        ensures { ReadsIfMemory result self.new (patch_at self.old) }
    {
        let page = self.page()?;
        let at = self.u16()?;
        let bytes = self.counted(alloc)?;
        Ok(Record::Patch { page, at, bytes })
    }

    #[tactic(auto, unfolding(crate::specs::Reading::insert_at))]
    fn insert_slot(&mut self, alloc: Global) -> Result<Record, Unread>
        ensures { ReadsIfMemory result self.new (insert_at self.old) }
    {
        let page = self.page()?;
        let index = self.u16()?;
        let bytes = self.counted(alloc)?;
        Ok(Record::InsertSlot { page, index, bytes })
    }

    #[tactic(auto, unfolding(crate::specs::Reading::remove_at))]
    fn remove_slot(&mut self) -> Result<Record, Malformed>
        ensures { Reads result self.new (remove_at self.old) }
    {
        let page = self.page()?;
        let index = self.u16()?;
        Ok(Record::RemoveSlot { page, index })
    }

    #[tactic(auto, unfolding(crate::specs::Reading::cut_at))]
    fn cut(&mut self) -> Result<Record, Malformed>
        ensures { Reads result self.new (cut_at self.old) }
    {
        let page = self.page()?;
        let from = self.u16()?;
        Ok(Record::Cut { page, from })
    }

    #[tactic(auto, unfolding(crate::specs::Reading::link_at))]
    fn link(&mut self) -> Result<Record, Malformed>
        ensures { Reads result self.new (link_at self.old) }
    {
        let page = self.page()?;
        let next = self.page()?;
        Ok(Record::Link {
            page,
            next: next.number(),
        })
    }

    #[tactic(auto, unfolding(crate::specs::Reading::record_at))]
    pub fn record(&mut self, alloc: Global) -> Result<Record, Unread>
        ensures { ReadsIfMemory result self.new (record_at self.old) }
    {
        match self.u8()? {
            MAKE => Ok(self.make()?),
            PATCH => self.patch(alloc),
            INSERT_SLOT => self.insert_slot(alloc),
            REMOVE_SLOT => Ok(self.remove_slot()?),
            CUT => Ok(self.cut()?),
            LINK => Ok(self.link()?),
            _ => Err(Unread::Malformed),
        }
    }
}
