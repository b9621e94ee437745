ghost use Rattle.std.specs.Prelude.{◌≡◌, ◌↔◌, IsOk, OnOk};
ghost use Rattle.page_image.specs.Image.{Follows};
ghost use Rattle.redo_record.specs.Effect.{RecordsApply, after_records};

use page_image::Page;
use redo_record::{BadApply, Group, apply};

/// Does the records of a group that are for the page to it, in order. Refused at the first that does not
/// apply, when those before it are done and the page is to be given up. It takes no memory.
pub fn replay(page: &mut Page, group: &Group) -> Result<(), BadApply>
    requires { Follows page.old group.now.lsn }
    ensures applies { IsOk result ↔ RecordsApply group.now.lsn group.now.records page.old }
    ensures ok { OnOk result (page.new ≡ after_records group.now.lsn group.now.records page.old) }
{
    let lsn = group.lsn;
    for record in group.records.as_slice() {
        if record.page() == page.page() {
            apply(page, record, lsn)?;
        }
    }
    Ok(())
}
