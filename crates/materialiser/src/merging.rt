ghost use Rattle.std.specs.Prelude.{◌≡◌, ◌<◌, ◌≤◌, ◌↔◌, [], ◌∷◌, IsOk, IfOk, OnOk, IsTrue};
ghost use Rattle.page_image.specs.Image.{Follows};
ghost use Rattle.redo_record.specs.Effect.{Ascends, GroupsApply, after_groups, merged};
ghost use Rattle.materialiser.specs.Merging.{between};

use crate::replaying::replay;
use page_image::Page;
use redo_record::{BadApply, Group, Groups};
use rm_base::{Duplicate, Lsn, WantOfMemory};
use std::alloc::Global;

/// Whether the groups' LSNs ascend, and none is 0.
pub fn ascends(groups: &Groups) -> bool
    ensures { IsTrue result ↔ Ascends 0 groups.now }
{
    let mut before = 0;
    for group in groups.as_slice() {
        let lsn = group.lsn.number();
        if lsn <= before {
            return false;
        }
        before = lsn;
    }
    true
}

/// The base image with the records for its page done to it: those of the groups past its own LSN, up to
/// `upto`. The base stays as it is.
pub fn merge(alloc: Global, base: &Page, groups: &Groups, upto: Lsn) -> Result<Page, WantOfMemory>
    requires ascend { Ascends 0 groups.now }
    requires apply { GroupsApply (between base.now.lsn upto groups.now) base.now }
    ensures { IfOk result (λ page. page ≡ merged base.now groups.now upto) }
{
    match try_merge(alloc, base, groups, upto)? {
        Ok(page) => Ok(page),
        Err(_) => unreachable!(),
    }
}

/// The same where it is not known that the records apply. Refused exactly where one does not.
pub fn try_merge(
    alloc: Global,
    base: &Page,
    groups: &Groups,
    upto: Lsn,
) -> Result<Result<Page, BadApply>, WantOfMemory>
    requires { Ascends 0 groups.now }
    ensures applies { IfOk result (λ page. IsOk page ↔ GroupsApply (between base.now.lsn upto groups.now) base.now) }
    ensures merged { IfOk result (λ page. IfOk page (λ page. page ≡ merged base.now groups.now upto)) }
{
    let mut page = base.copy(alloc)?;
    let from = base.lsn();
    for group in groups.as_slice() {
        if replay_between(&mut page, group, from, upto).is_err() {
            return Ok(Err(BadApply));
        }
    }
    Ok(Ok(page))
}

/// Replays the group where its LSN is past `from` and at most `upto`.
#[tactic(auto, using(crate::proofs::MergeLaws::chosen, crate::proofs::MergeLaws::passed))]
fn replay_between(page: &mut Page, group: &Group, from: Lsn, upto: Lsn) -> Result<(), BadApply>
    requires { from < group.now.lsn → group.now.lsn ≤ upto → Follows page.old group.now.lsn }
    ensures applies { IsOk result ↔ GroupsApply (between from upto (group.now ∷ [])) page.old }
    ensures ok { OnOk result (page.new ≡ after_groups (between from upto (group.now ∷ [])) page.old) }
{
    let lsn = group.lsn.number();
    if lsn <= from.number() || upto.number() < lsn {
        return Ok(());
    }
    replay(page, group)
}
