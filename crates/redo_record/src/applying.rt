ghost use Rattle.std.specs.Prelude.{◌≡◌, ◌↔◌, IsOk, OnOk, OnErr};
ghost use Rattle.page_image.specs.Image.{Follows};
ghost use Rattle.redo_record.specs.Effect.{page_of, Applies, effect};

use crate::redo::Record;
use page_image::Page;
use rm_base::Lsn;
use thiserror::Error;

/// The record's condition does not hold of the page.
#[derive(Clone, Copy, Debug, PartialEq, Eq, Error)]
#[error("the record does not apply to the page")]
pub struct BadApply;

/// Does a record of a group with this LSN to its page. Refused where the record cannot change the page,
/// which then stays as it was.
pub fn apply(page: &mut Page, r: &Record, lsn: Lsn) -> Result<(), BadApply>
    requires mine { page_of r.now ≡ page.old.page }
    requires follows { Follows page.old lsn }
    ensures applies { IsOk result ↔ Applies r.now page.old }
    ensures ok { OnOk result (page.new ≡ effect r.now lsn page.old) }
    ensures err { OnErr result (page.new ≡ page.old) }
{
    match r {
        Record::Make {
            page: _,
            kind,
            level,
        } => {
            if !page.can_make(*kind, *level) {
                return Err(BadApply);
            }
            page.make(*kind, *level, lsn);
            Ok(())
        }
        Record::InsertSlot {
            page: _,
            index,
            bytes,
        } => {
            if !page.can_insert(*index, bytes.as_slice()) {
                return Err(BadApply);
            }
            page.insert_item(*index, bytes.as_slice(), lsn);
            Ok(())
        }
        Record::Patch { page: _, at, bytes } => {
            if !page.can_patch(*at, bytes.as_slice()) {
                return Err(BadApply);
            }
            page.patch(*at, bytes.as_slice(), lsn);
            Ok(())
        }
        Record::RemoveSlot { page: _, index } => {
            if !page.can_remove(*index) {
                return Err(BadApply);
            }
            page.remove_item(*index, lsn);
            Ok(())
        }
        Record::Cut { page: _, from } => {
            if !page.can_cut(*from) {
                return Err(BadApply);
            }
            page.cut(*from, lsn);
            Ok(())
        }
        Record::Link { page: _, next } => {
            if !page.can_link(*next) {
                return Err(BadApply);
            }
            page.link(*next, lsn);
            Ok(())
        }
    }
}
