ghost use Rattle.std.specs.Prelude.{◌≡◌, true, nat_lt, length};
ghost use Rattle.std.specs.List.{list_all, AllByRecursion};
ghost use Rattle.trace_text.specs.Texts.{HasName};

use crate::trace_text;
use cluster_model::{Answered, AnsweredList, Origin, Trace, Use, Uses};
use rm_base::{Lsn, Name, Names, PageId, SessionId, Text};
use std::alloc::Global;
use std::test::Fail;

fn used(session: u8, number: u32, page: u32, lsn: u64, origin: Origin) -> Result<Use, Fail> {
    Ok(Use {
        session: SessionId::new(session).ok_or("session")?,
        number,
        page: PageId::new(page).ok_or("page")?,
        lsn: Lsn::new(lsn),
        origin,
    })
}

fn answered(session: u8, number: u32) -> Result<Answered, Fail> {
    Ok(Answered {
        session: SessionId::new(session).ok_or("session")?,
        number,
    })
}

fn names(alloc: Global) -> Result<Names, Fail> {
    let mut names = Names::new(alloc);
    for bytes in [b"a", b"b"] {
        let mut text = Text::new(alloc);
        text.append(bytes)?;
        names.push(Name::new(text).ok_or("name")?)?;
    }
    Ok(names)
}

fn all_below(answered: &[Answered], count: usize) -> bool
    ensures { result ≡ list_all (λ a. nat_lt a.session count) answered.now }
{
    answered
        .iter()
        .all(|a| usize::from(a.session.number()) < count)
}

/// Whether each session has a name.
fn are_named(trace: &Trace, names: &Names) -> bool
    ensures { result ≡ true → AllByRecursion (HasName names.now trace.now) trace.now.answered }
{
    all_below(trace.answered.as_slice(), names.len())
}

fn trace(alloc: Global) -> Result<Trace, Fail> {
    let mut uses = Uses::new(alloc);
    uses.push(used(0, 2, 1028, 6, Origin::Pool)?)?;
    uses.push(used(1, 1, 1028, 6, Origin::Storage)?)?;
    uses.push(used(0, 2, 0, 1, Origin::Local)?)?;
    uses.push(used(0, 2, 1028, 6, Origin::Pool)?)?;
    uses.push(used(0, 2, 1028, 6, Origin::Local)?)?;
    uses.push(used(0, 2, 1028, 7, Origin::Pool)?)?;
    uses.push(used(1, 2, 1028, 7, Origin::Pool)?)?;
    let mut replied = AnsweredList::new(alloc);
    replied.push(answered(1, 1)?)?;
    replied.push(answered(0, 1)?)?;
    replied.push(answered(0, 2)?)?;
    Ok(Trace {
        uses,
        answered: replied,
    })
}

#[test]
fn each_use_once(rt: HostRuntime) -> Result<(), Fail> {
    let names = names(rt.alloc())?;
    let trace = trace(rt.alloc())?;
    assert!(rt; are_named(&trace, &names));
    let text = trace_text(rt.alloc(), &trace, &names)?;
    assert_eq!(rt;
        text.as_slice(),
        b"trace b 1 page 1028 lsn 6 storage\ntrace a 2 page 1028 lsn 6 pool\ntrace a 2 page 0 lsn 1 local\ntrace a 2 page 1028 lsn 6 local\ntrace a 2 page 1028 lsn 7 pool\n".as_slice()
    );
    Ok(())
}
