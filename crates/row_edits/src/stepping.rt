//! The way down a tree, with the pages that were read.
ghost use Rattle.std.specs.Prelude.{◌≡◌, ◌<◌, false, IfOk};
ghost use Rattle.bplus_tree.specs.Walk.{IsInnerToRead, IsToRead};
ghost use Rattle.range_reader.specs.Walked.{child_in};
ghost use Rattle.row_edits.specs.Ways as spec;

use crate::wishes::{Act, Fetch};
use page_image::{Kind, Page};
use page_view::InnerView;
use redo_record::Path;
use rm_base::{Items, PageId, WantOfMemory};
use std::alloc::Global;

/// How many pages a way has at most: one of each level.
pub const WAY_PAGES: u8 = 9;

/// A way down: the pages so far, the one that is wanted, and how many there may still be.
#[derive(Drop)]
pub struct Walk {
    pub path: Path,
    pub page: PageId,
    pub left: u8,
}

/// Where a page leads: it is the leaf, and this is the way, or the way goes on.
#[derive(Drop)]
pub enum Step {
    Leaf(Path),
    Down(Walk),
}

/// A way that begins at a root.
pub(crate) fn way_from(alloc: Global, root: PageId) -> Walk
    ensures { result ≡ spec.way_from root }
{
    Walk {
        path: Items::new(alloc),
        page: root,
        left: WAY_PAGES,
    }
}

/// The child of an inner page that holds the key.
#[tactic(auto, using(bplus_tree::proofs::Entries::entry_lent, crate::proofs::WayLaws::child_is))]
fn child_of(page: &Page, key: &[u8]) -> PageId
    requires { IsInnerToRead page.now }
    ensures { result ≡ child_in page.now key.now }
{
    let view = InnerView::over(page).unwrap();
    let place = view.child_for(key);
    view.item(place).unwrap().child()
}

/// The way on through an inner page.
#[tactic(auto, using(crate::proofs::WayLaws::inner_read, crate::proofs::WayLaws::goes_down))]
fn below(walk: Walk, key: &[u8], page: Page) -> Result<Step, WantOfMemory>
    requires left { 0 < walk.left }
    requires readable { IsToRead page }
    requires inner { spec.is_leaf page.kind ≡ false }
    ensures { IfOk result (λ step. step ≡ spec.step_of walk key.now page) }
{
    let Walk { mut path, left, .. } = walk;
    let child = child_of(&page, key);
    path.push(page)?;
    Ok(Step::Down(Walk {
        path,
        page: child,
        left: left - 1,
    }))
}

fn is_leaf(page: &Page) -> bool
    ensures { result ≡ spec.is_leaf page.now.kind }
{
    page.kind() == Kind::Leaf
}

/// Takes the page that is wanted.
#[tactic(auto, using(crate::proofs::WayLaws::ends_at))]
pub(crate) fn step_on(walk: Walk, key: &[u8], page: Page) -> Result<Step, WantOfMemory>
    requires left { 0 < walk.left }
    requires readable { IsToRead page }
    ensures { IfOk result (λ step. step ≡ spec.step_of walk key.now page) }
{
    if !is_leaf(&page) {
        return below(walk, key, page);
    }
    let Walk { mut path, .. } = walk;
    path.push(page)?;
    Ok(Step::Leaf(path))
}

/// The page that is wanted: a root where none was read.
pub(crate) fn fetch_of(walk: &Walk) -> Option<Act>
    ensures { result ≡ spec.fetch_of walk.now }
{
    match walk.left {
        0 => None,
        _ => Some(Act::Fetch(next_page(walk))),
    }
}

fn next_page(walk: &Walk) -> Fetch
    ensures { result ≡ spec.step_to walk.now.path walk.now.page }
{
    match walk.path.len() {
        0 => Fetch::Root(walk.page),
        _ => Fetch::Child(walk.page),
    }
}
