ghost use Rattle.std.specs.Prelude.{IsNone, IfSome};
ghost use Rattle.materialiser.specs.Versions.{IsVersion};

use page_image::Page;
use rm_base::{Items, Lsn};

/// Images of one page, oldest first.
pub type PageRow = Items<Page>;

/// The last place whose image has an LSN of at most `at`. None exactly where there is none.
pub fn version(images: &PageRow, at: Lsn) -> Option<usize>
    ensures { IsVersion images.now at result }
{
    let images = images.as_slice();
    for place in (0..images.len()).rev() {
        if images[place].lsn() <= at {
            return Some(place);
        }
    }
    None
}
