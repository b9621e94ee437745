ghost use Rattle.std.specs.Prelude.{◌≡◌, IsTrue, ◌↔◌};
ghost use Rattle.std.specs.List.{AllByRecursion};
ghost use Rattle.page_view.specs.Leaf.{HoldsLeaf};
ghost use Rattle.bplus_tree.specs.Walk.{IsToRead, IsLeafToRead, IsInnerToRead, SpellsInner};
ghost use Rattle.page_image.specs.declared.kind.Kind.TheVariants as kind;

use page_image::{Kind, Page};
use page_view::{InnerRef, InnerView, LeafRef, LeafView};

/// Whether a search can be told of the page: a leaf or an inner page whose items can be read and ascend.
pub fn can_be_read(page: &Page) -> bool
    ensures { IsTrue result ↔ IsToRead page.now }
{
    match page.kind() {
        Kind::Leaf => is_leaf_to_read(page),
        Kind::Inner => is_inner_to_read(page),
        _ => false,
    }
}

fn is_leaf_to_read(page: &Page) -> bool
    requires { page.now.kind ≡ kind.Leaf }
    ensures { IsTrue result ↔ IsLeafToRead page.now }
{
    holds_leaves(page) && LeafView::over(page).unwrap().keys_ascend()
}

#[tactic(auto, using(crate::proofs::Readable::inner_readable, crate::proofs::Readable::inner_spells))]
fn is_inner_to_read(page: &Page) -> bool
    requires { page.now.kind ≡ kind.Inner }
    ensures { IsTrue result ↔ IsInnerToRead page.now }
{
    if !spells_inners(page) {
        return false;
    }
    let view = InnerView::over(page).unwrap();
    view.least_is_empty() && view.keys_ascend()
}

fn holds_leaves(page: &Page) -> bool
    ensures { IsTrue result ↔ AllByRecursion HoldsLeaf page.now.items }
{
    for i in 0..usize::from(page.slots()) {
        if !holds_leaf(page.item(i).unwrap()) {
            return false;
        }
    }
    true
}

fn spells_inners(page: &Page) -> bool
    ensures { IsTrue result ↔ AllByRecursion SpellsInner page.now.items }
{
    for i in 0..usize::from(page.slots()) {
        if !spells_inner(page.item(i).unwrap()) {
            return false;
        }
    }
    true
}

#[tactic(auto, using(crate::proofs::Readable::leaf_there, crate::proofs::Readable::leaf_not_there))]
fn holds_leaf(item: &[u8]) -> bool
    ensures { IsTrue result ↔ HoldsLeaf item.now }
{
    LeafRef::read(item).is_some()
}

#[tactic(auto, using(crate::proofs::Readable::inner_there, crate::proofs::Readable::inner_not_there))]
fn spells_inner(item: &[u8]) -> bool
    ensures { IsTrue result ↔ SpellsInner item.now }
{
    InnerRef::read(item).is_some()
}
