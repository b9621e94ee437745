//! A search that is told of pages, and its way down.
ghost use Rattle.std.specs.Prelude.{◌≡◌, Some};
ghost use Rattle.bplus_tree.specs.Walk.{wanted, IsInnerToRead, IsToRead, LeadsTo};
ghost use Rattle.range_reader.specs.Walked.{child_in, walked};
ghost use Rattle.range_reader.specs.Landing.{lands};

use bplus_tree::{LeafWalk, Want};
use page_image::{Kind, Page};
use page_view::InnerView;
use rm_base::PageId;

/// Whether a page on the way down is a leaf.
fn lands(want: Want, kind: Kind) -> bool
    ensures { result ≡ lands want kind }
{
    matches!(want, Want::Need(_)) && kind == Kind::Leaf
}

/// Tells a search of a page; of a leaf on its way down twice, so that it is the first of the range
/// at once.
#[tactic(auto, using(crate::proofs::StepLaws::one_step, crate::proofs::StepLaws::two_steps, crate::proofs::StepLaws::still))]
pub fn step(walk: &mut LeafWalk, page: &Page)
    requires wanted { wanted walk.old.want ≡ Some page.now.page }
    requires readable { IsToRead page.now }
    ensures { walk.new ≡ walked walk.old page.now }
{
    let twice = lands(walk.next(), page.kind());
    walk.give(page);
    if twice {
        walk.give(page);
    }
}

fn child_under(page: &Page, key: &[u8]) -> PageId
    requires { IsInnerToRead page.now }
    ensures { LeadsTo page.now key.now result }
{
    let view = InnerView::over(page).unwrap();
    let place = view.child_for(key);
    view.item(place).unwrap().child()
}

/// The child of an inner page that holds the key.
pub fn child_of(page: &Page, key: &[u8]) -> PageId
    requires { IsInnerToRead page.now }
    ensures { result ≡ child_in page.now key.now }
{
    child_under(page, key)
}
