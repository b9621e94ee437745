//! The uses of one statement.
ghost use Rattle.std.specs.Prelude.{◌≡◌, ◌==◌, [], IfOk, OnOk};
ghost use Rattle.std.specs.List.{list_any};
ghost use Rattle.trace_text.specs.Uses as spec;

use cluster_model::{Answered, Origin, Use, Uses};
use rm_base::WantOfMemory;
use std::alloc::Global;

/// Whether the statement used the page.
fn is_of(answered: &Answered, used: &Use) -> bool
    ensures { result ≡ spec.is_of answered.now used.now }
{
    let _statement = *answered;
    used.session.number() == answered.session.number() && used.number == answered.number
}

fn is_same_origin(a: Origin, b: Origin) -> bool
    ensures { result ≡ spec.is_same_origin a b }
{
    match a {
        Origin::Local => matches!(b, Origin::Local),
        Origin::Pool => matches!(b, Origin::Pool),
        Origin::Storage => matches!(b, Origin::Storage),
    }
}

/// Whether two uses have the same page, LSN and origin.
fn is_same(a: &Use, b: &Use) -> bool
    ensures { result ≡ spec.is_same a.now b.now }
{
    a.page.number() == b.page.number()
        && a.lsn.number() == b.lsn.number()
        && is_same_origin(a.origin, b.origin)
}

fn is_noted(noted: &[Use], used: &Use) -> bool
    ensures { result ≡ list_any (λ a. spec.is_same a used.now) noted.now }
{
    noted.iter().any(|a| is_same(a, used))
}

/// Notes a use of the statement that is not noted yet.
#[tactic(auto, unfolding(crate::specs::Uses::with_use))]
fn note(answered: &Answered, noted: &mut Uses, used: &Use) -> Result<(), WantOfMemory>
    ensures { OnOk result (noted.new ≡ spec.with_use answered.now noted.old used.now) }
{
    if is_of(answered, used) && !is_noted(noted.as_slice(), used) {
        noted.push(*used)?;
    }
    Ok(())
}

/// The different uses of the statement, in the order in which each came first.
pub fn uses_of(alloc: Global, answered: &Answered, uses: &[Use]) -> Result<Uses, WantOfMemory>
    ensures { IfOk result (λ noted. noted ≡ spec.noted answered.now [] uses.now) }
{
    let mut noted = Uses::new(alloc);
    for used in uses {
        note(answered, &mut noted, used)?;
    }
    Ok(noted)
}
