//! How far the test of one key has come.
ghost use Rattle.std.specs.Prelude.{◌≡◌, ℕ, List};
ghost use Rattle.bplus_tree.specs.Walk.{IsInnerToRead, IsLeafToRead, IsToRead};
ghost use Rattle.question_tree.specs.Questions.{after, then_on};
ghost use Rattle.range_reader.specs.declared.fetch.Snapshot.{Snapshot};
ghost use Rattle.range_reader.specs.Finding.{Asked, has_stamp};
ghost use Rattle.version_store.specs.Versions as seeing;
ghost use Rattle.key_conflicts.specs.Testing.{down, item_of, look_by, look_in, stamp_by};
ghost use Rattle.key_conflicts.specs.Machine as machine;
ghost use Rattle.key_conflicts.specs.Machine.{key_left, step_left};

use crate::verdict::{Met, nothing_met};
use page_image::{Kind, Page};
use page_view::{LeafRef, LeafView};
use range_reader::{Fetch, Snapshot, child_of, is_own, is_seen, item_at, leaf_in, stamp_fetch};
use rm_base::{MAX_TREE_LEVEL, PageId, TrxId};

/// The page that the test of a key waits for.
#[derive(Clone, Copy, Debug, PartialEq, Eq)]
pub(crate) enum Stage {
    /// The root of the tree.
    Root(PageId),
    /// A page on the way down, and how many there can be below it.
    Child(PageId, u8),
    /// That of the stamp of the newest version's transaction, and whether that version is there.
    Stamp(TrxId, bool),
    /// None: it cannot be tested.
    Stopped,
}

/// What follows a page that was given.
#[derive(Clone, Copy, Debug, PartialEq, Eq)]
pub(crate) enum Step {
    Waits(Stage),
    Known(Met),
}

/// The page that is wanted.
pub(crate) fn fetch_of(stage: Stage) -> Option<Fetch>
    ensures { result ≡ machine.fetch_of stage }
{
    match stage {
        Stage::Root(page) => Some(Fetch::Root(page)),
        Stage::Child(page, _) => Some(Fetch::Child(page)),
        Stage::Stamp(trx, _) => stamp_fetch(trx),
        Stage::Stopped => None,
    }
}

/// The newest version of the key in a leaf, if there is one.
#[tactic(auto, using(crate::proofs::ItemLaws::found_is, crate::proofs::ItemLaws::none_is, crate::proofs::ItemLaws::place_within))]
fn newest_in<'a>(page: &'a Page, key: &[u8]) -> Option<LeafRef<'a>>
    requires { IsLeafToRead page.now }
    ensures { result ≡ item_of key.now page.now.items }
{
    match LeafView::over(page).unwrap().find(key) {
        Ok(place) => Some(leaf_in(item_at(page, place))),
        Err(_) => None,
    }
}

/// Looks a version up, unless it is the writer's own.
#[tactic(auto, using(crate::proofs::StageLaws::own_known, crate::proofs::StageLaws::other_waits))]
fn look_up(snapshot: &Snapshot, trx: TrxId, there: bool) -> Step
    ensures { (key : List ℕ)
        → step_left snapshot.now key result ≡ look_by (seeing.is_own snapshot.now.own trx)
        snapshot.now trx there }
{
    if is_own(snapshot.own, trx) {
        return Step::Known(Met {
            clash: false,
            there,
        });
    }
    Step::Waits(Stage::Stamp(trx, there))
}

/// Looks up the newest version of the key in a leaf.
#[tactic(auto, using(crate::proofs::StageLaws::none_met, crate::proofs::StageLaws::item_met))]
fn look(snapshot: &Snapshot, key: &[u8], page: &Page) -> Step
    requires { IsLeafToRead page.now }
    ensures { step_left snapshot.now key.now result ≡ look_in snapshot.now key.now page.now }
{
    match newest_in(page, key) {
        None => Step::Known(nothing_met()),
        Some(item) => look_up(snapshot, item.trx(), !item.deleted()),
    }
}

/// Goes on with the child of an inner page.
#[tactic(auto, using(crate::proofs::StageLaws::ends_below, crate::proofs::StageLaws::goes_below))]
fn go_below(key: &[u8], left: u8, page: &Page) -> Step
    requires { IsInnerToRead page.now }
    ensures { (s : Snapshot)
        → step_left s key.now result ≡ then_on (down left key.now page.now) (look_in s key.now) }
{
    if left == 0 {
        return Step::Waits(Stage::Stopped);
    }
    Step::Waits(Stage::Child(child_of(page, key), left - 1))
}

/// Takes a page on the way down.
#[tactic(auto, using(crate::proofs::StageLaws::is_leaf, crate::proofs::StageLaws::is_inner, crate::proofs::StageLaws::leaf_told))]
fn go_down(snapshot: &Snapshot, key: &[u8], left: u8, page: &Page) -> Step
    requires { IsToRead page.now }
    ensures { step_left snapshot.now key.now result ≡ then_on (down left key.now page.now)
        (look_in snapshot.now key.now) }
{
    match page.kind() {
        Kind::Leaf => look(snapshot, key, page),
        _ => go_below(key, left, page),
    }
}

/// Takes the page of a stamp.
#[tactic(auto, using(crate::proofs::StageLaws::stamp_kind, crate::proofs::StageLaws::stamp_number, crate::proofs::StageLaws::stamp_can_be, crate::proofs::StageLaws::stamp_judged))]
fn judge(snapshot: &Snapshot, trx: TrxId, there: bool, page: &Page) -> Step
    requires { Asked (stamp_by (has_stamp trx) snapshot.now trx there) page.now }
    ensures { (key : List ℕ)
        → step_left snapshot.now key result ≡ after
        (stamp_by (has_stamp trx) snapshot.now trx there) page.now }
{
    Step::Known(Met {
        clash: !is_seen(snapshot.stamp, page, trx),
        there,
    })
}

/// Takes the page that the test of a key waits for.
#[tactic(auto, using(crate::proofs::StageLaws::root_read, crate::proofs::StageLaws::child_read, crate::proofs::StageLaws::root_after, crate::proofs::StageLaws::child_after, crate::proofs::StageLaws::stamp_read, crate::proofs::StageLaws::stamp_after, crate::proofs::StageLaws::stopped_after))]
pub(crate) fn take_page(stage: Stage, snapshot: &Snapshot, key: &[u8], page: &Page) -> Step
    requires { Asked (key_left snapshot.now key.now stage) page.now }
    ensures { step_left snapshot.now key.now result ≡ after (key_left snapshot.now key.now stage)
        page.now }
{
    match stage {
        Stage::Root(_) => go_down(snapshot, key, MAX_TREE_LEVEL, page),
        Stage::Child(_, left) => go_down(snapshot, key, left, page),
        Stage::Stamp(trx, there) => judge(snapshot, trx, there, page),
        Stage::Stopped => Step::Waits(Stage::Stopped),
    }
}
