//! The version of an item that a reader sees.
ghost use Rattle.std.specs.Prelude.{◌≡◌, ◌≤◌, true, IfOk};
ghost use Rattle.commit_stamps.specs.Stamping as stamping;
ghost use Rattle.page_image.specs.declared.kind.Kind.TheVariants as kind;
ghost use Rattle.question_tree.specs.Questions.{after};
ghost use Rattle.undo_versions.specs.Walking.{is_page, replaced};
ghost use Rattle.version_store.specs.Versions as seeing;
ghost use Rattle.range_reader.specs.Finding as finding;
ghost use Rattle.range_reader.specs.Finding.{Asked, look};
ghost use Rattle.range_reader.specs.Machine as machine;
ghost use Rattle.range_reader.specs.Machine.{looked_of, version_of, version_fetch};

use crate::fetch::{Fetch, Snapshot};
use commit_stamps::{stamp_of, stamp_page, visible};
use page_image::Page;
use page_view::LeafItem;
use rm_base::{MAX_TRX_ID, PageId, Stamp, TrxId, UndoPtr, WantOfMemory};
use std::alloc::Global;
use undo_versions::older;

/// The page that a version waits for.
#[derive(Clone, Copy, Debug, PartialEq, Eq)]
pub(crate) enum Stage {
    /// That of its stamp.
    Stamp,
    /// That of the version before it.
    Older(PageId),
    /// None: it cannot be looked at.
    Stopped,
}

/// A version that is looked at, and how many older ones can be.
#[derive(Drop)]
pub(crate) struct Version {
    item: LeafItem,
    left: u32,
    stage: Stage,
}

/// What is known of an item's versions.
#[derive(Drop)]
pub(crate) enum Looked {
    /// The one that is seen, if any.
    Seen(Option<LeafItem>),
    Asking(Version),
}

/// Whether a version of that transaction is the reader's own.
pub fn is_own(own: Option<TrxId>, t: TrxId) -> bool
    ensures { result ≡ seeing.is_own own t }
{
    match own {
        None => false,
        Some(own) => own.number() == t.number(),
    }
}

/// Whether there can be a stamp of that number.
fn has_stamp(t: TrxId) -> bool
    ensures { result ≡ finding.has_stamp t }
{
    t.number() >= 1 && t.number() <= MAX_TRX_ID
}

/// The page of a transaction's stamp.
fn page_of_stamp(t: TrxId) -> PageId
    requires { (1 ≤ t) × (t ≤ MAX_TRX_ID) }
    ensures { result ≡ stamping.stamp_page t }
{
    PageId::new(stamp_page(t) as u32).unwrap()
}

/// The page of a transaction's stamp, which is wanted. None where there can be none.
#[tactic(auto, using(crate::proofs::VersionLaws::stamp_some, crate::proofs::VersionLaws::stamp_most))]
pub fn stamp_fetch(t: TrxId) -> Option<Fetch>
    ensures { result ≡ finding.stamp_fetch (finding.has_stamp t) (stamping.stamp_page t) }
{
    if !has_stamp(t) {
        return None;
    }
    Some(Fetch::Stamps(page_of_stamp(t)))
}

fn fetch_at(stage: Stage, t: TrxId) -> Option<Fetch>
    ensures { result ≡ machine.fetch_at_stage stage t }
{
    match stage {
        Stage::Stamp => stamp_fetch(t),
        Stage::Older(page) => Some(Fetch::Undo(page)),
        Stage::Stopped => None,
    }
}

/// The page with the version before one, where there is one.
fn page_before(at: UndoPtr) -> Option<PageId>
    ensures { result ≡ machine.page_if (is_page at.page) at.page }
{
    if at.page == 0 {
        return None;
    }
    PageId::new(at.page)
}

/// Whether the stamp that the page has for the transaction is seen.
#[tactic(auto, using(crate::proofs::VersionLaws::stamp_there))]
pub fn is_seen(snap: Stamp, page: &Page, t: TrxId) -> bool
    requires kind { page.now.kind ≡ kind.Stamps }
    requires number { page.now.page ≡ stamping.stamp_page t }
    requires some { finding.has_stamp t ≡ true }
    ensures { result ≡ stamping.visible (stamping.stamp_in page.now t) snap }
{
    visible(stamp_of(page, t).unwrap(), snap)
}

/// The version that was replaced by the one that points there.
fn older_item(alloc: Global, page: &Page, at: UndoPtr) -> Result<Option<LeafItem>, WantOfMemory>
    ensures { IfOk result (λ old. old ≡ replaced page.now at) }
{
    let found = older(alloc, page, at)?;
    Ok(found.and_then(|undo| undo.old))
}

/// Begins to look at a version, and at so many at most.
#[tactic(auto, using(crate::proofs::VersionLaws::begins_stopped, crate::proofs::VersionLaws::begins_own, crate::proofs::VersionLaws::begins_stamp))]
pub(crate) fn begin(snapshot: &Snapshot, item: LeafItem, left: u32) -> Looked
    ensures { looked_of snapshot.now result ≡ look left snapshot.now item }
{
    if left == 0 {
        return Looked::Asking(Version {
            item,
            left,
            stage: Stage::Stopped,
        });
    }
    if is_own(snapshot.own, item.trx) {
        return Looked::Seen(Some(item));
    }
    Looked::Asking(Version {
        item,
        left: left - 1,
        stage: Stage::Stamp,
    })
}

impl Version {
    /// The page that is wanted. None where there is none that helps.
    pub(crate) fn next(&self) -> Option<Fetch>
        ensures { result ≡ version_fetch self.now }
    {
        fetch_at(self.stage, self.item.trx)
    }

    /// Takes the page that `next` names.
    #[tactic(auto, using(crate::proofs::VersionLaws::stopped_asks_nothing))]
    pub(crate) fn given(
        self,
        alloc: Global,
        snapshot: &Snapshot,
        page: &Page,
    ) -> Result<Looked, WantOfMemory>
        requires { Asked (version_of snapshot.now self) page.now }
        ensures { IfOk result
            (λ look. looked_of snapshot.now look ≡ after (version_of snapshot.now self) page.now) }
    {
        match self.stage {
            Stage::Stamp => Ok(self.judged(snapshot, page)),
            Stage::Older(_) => self.went_back(alloc, snapshot, page),
            Stage::Stopped => Ok(Looked::Seen(None)),
        }
    }

    /// Takes the page of its stamp.
    #[tactic(auto, using(crate::proofs::VersionLaws::stamp_kind, crate::proofs::VersionLaws::stamp_number, crate::proofs::VersionLaws::stamp_can_be, crate::proofs::VersionLaws::judged_seen, crate::proofs::VersionLaws::judged_end, crate::proofs::VersionLaws::judged_older))]
    fn judged(self, snapshot: &Snapshot, page: &Page) -> Looked
        requires stage { self.stage ≡ Stage.Stamp }
        requires asked { Asked (version_of snapshot.now self) page.now }
        ensures { looked_of snapshot.now result ≡ after (version_of snapshot.now self) page.now }
    {
        let Version { item, left, .. } = self;
        if is_seen(snapshot.stamp, page, item.trx) {
            return Looked::Seen(Some(item));
        }
        match page_before(item.older) {
            None => Looked::Seen(None),
            Some(page) => Looked::Asking(Version {
                item,
                left,
                stage: Stage::Older(page),
            }),
        }
    }

    /// Takes the page with the version before.
    #[tactic(auto, using(crate::proofs::VersionLaws::back_end, crate::proofs::VersionLaws::back_old))]
    fn went_back(
        self,
        alloc: Global,
        snapshot: &Snapshot,
        page: &Page,
    ) -> Result<Looked, WantOfMemory>
        requires stage { machine.is_older self.stage ≡ true }
        requires asked { Asked (version_of snapshot.now self) page.now }
        ensures { IfOk result
            (λ look. looked_of snapshot.now look ≡ after (version_of snapshot.now self) page.now) }
    {
        let Version { item, left, .. } = self;
        match older_item(alloc, page, item.older)? {
            None => Ok(Looked::Seen(None)),
            Some(old) => Ok(begin(snapshot, old, left)),
        }
    }
}
