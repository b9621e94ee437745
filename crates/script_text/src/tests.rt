use crate::Why::{Form, Later, Node, Number, Session, Shape, Slab, Twice};
use crate::{BadScript, Why, form_laws, read_script, script_laws};
use cluster_model::{Event, Order};
use rm_base::Text;
use std::alloc::Global;
use std::test::Fail;

const MOST: usize = 4_194_304;

/// What is wrong with a script.
fn fault(alloc: Global, text: &[u8]) -> Result<Option<BadScript>, Fail> {
    if text.len() > MOST {
        return Ok(None);
    }
    match read_script(alloc, text)? {
        Ok(_) => Ok(None),
        Err(bad) => Ok(Some(bad)),
    }
}

/// What is wrong with lines behind a first line and a session `a`.
fn fault_behind(alloc: Global, lines: &[u8]) -> Result<Option<BadScript>, Fail> {
    let mut text = Text::new(alloc);
    text.append(b"cluster nodes 1 slabs 1 slots 16 cache 16\nsession a on n1\n")?;
    text.append(lines)?;
    fault(alloc, text.as_slice())
}

fn at(line: u32, why: Why) -> Option<BadScript> {
    Some(BadScript { line, why })
}

#[test]
fn first_lines(rt: HostRuntime) -> Result<(), Fail> {
    let rows: [(&[u8], Option<BadScript>); 16] = [
        (b"", at(1, Shape)),
        (b"\n", at(2, Shape)),
        (b"# a\n# b\n", at(3, Shape)),
        (b"# a\n# b", at(3, Shape)),
        (b"\xff", at(1, Shape)),
        (b"# \xff\n", at(1, Shape)),
        (b"drain 5", at(1, Shape)),
        (b"cluster nodes 0 slabs 1 slots 16 cache 16", at(1, Shape)),
        (b"cluster nodes 17 slabs 1 slots 16 cache 16", at(1, Shape)),
        (b"cluster nodes 1 slabs 1 slots 7 cache 16", at(1, Shape)),
        (b"cluster nodes 1 slabs 1 slots 16 cache 1025", at(1, Shape)),
        (b"cluster nodes 1 slabs 1 slots 16 cache 16 ", at(1, Shape)),
        (
            b"cluster nodes 0000000001 slabs 1 slots 16 cache 16",
            at(1, Shape),
        ),
        (
            b"cluster nodes 2 slabs 1 slots 16 cache 16\nx",
            at(1, Later),
        ),
        (
            b"\n#\r\ncluster nodes 01 slabs 16 slots 4096 cache 1024\r\n",
            None,
        ),
        (b"cluster nodes 1 slabs 1 slots 8 cache 16\r", at(1, Shape)),
    ];
    for (text, want) in rows {
        assert_eq!(rt; fault(rt.alloc(), text)?, want, "{text:?}");
    }
    form_laws();
    script_laws();
    Ok(())
}

#[test]
fn forms(rt: HostRuntime) -> Result<(), Fail> {
    let rows: [&[u8]; 20] = [
        b"\xff",
        b"# \xff",
        b"turn  n1",
        b" turn n1",
        b"turn n1 ",
        b"TURN n1",
        b"turn n",
        b"turn 1",
        b"drain 1234567890",
        b"drain +5",
        b"drain 5\r",
        b"until n1 fetch 5",
        b"session 1a on n1",
        b"session abcdefghi on n1",
        b"a:BEGIN",
        b"a: \t\r",
        b"a : BEGIN",
        b"boot 00",
        b"cluster nodes 1 slabs 1 slots 16 cache 16",
        b"deliver first",
    ];
    for text in rows {
        assert_eq!(rt; fault_behind(rt.alloc(), text)?, at(3, Form), "{text:?}");
    }
    Ok(())
}

#[test]
fn places(rt: HostRuntime) -> Result<(), Fail> {
    let rows: [(&[u8], Why); 25] = [
        (b"drain 0", Number),
        (b"drain 100001", Number),
        (b"ship 128", Number),
        (b"fold 32768", Number),
        (b"deliver 0", Number),
        (b"evict n9 32768", Number),
        (b"until n9 reply 0", Number),
        (b"turn n0", Node),
        (b"turn n2 lost", Node),
        (b"evict n2 32767", Node),
        (b"session a on n2", Node),
        (b"until n2 reply 100000", Node),
        (b"crash slab 0", Slab),
        (b"drop slab 2", Slab),
        (b"timeout b", Session),
        (b"n1: BEGIN", Session),
        (b"session a on n1", Twice),
        (b"turn n1 unseen", Later),
        (b"ship 127", Later),
        (b"deliver all", Later),
        (b"timeout a", Later),
        (b"crash home", Later),
        (b"restart slab 1", Later),
        (b"takeover n1", Later),
        (b"until n1 split 1", Later),
    ];
    for (text, why) in rows {
        assert_eq!(rt; fault_behind(rt.alloc(), text)?, at(3, why), "{text:?}");
    }
    Ok(())
}

/// The first bad line counts, whatever stands behind it.
#[test]
fn lines(rt: HostRuntime) -> Result<(), Fail> {
    let rows: [(&[u8], Option<BadScript>); 8] = [
        (b"renew\nx\n", at(3, Later)),
        (b"\n# c\r\nturn n1\r\nx", at(6, Form)),
        (b"drain 000100000\nturn n000000001\na: x\r", None),
        (
            b"session n1 on n1\nn1: BEGIN\nsession n1 on n1",
            at(5, Twice),
        ),
        (b"\r\n", None),
        (b"\r", at(3, Form)),
        (b"a: caf\xc3\xa9: x\n", None),
        (b"a: caf\xc3: x\n", at(3, Form)),
    ];
    for (text, want) in rows {
        assert_eq!(rt; fault_behind(rt.alloc(), text)?, want, "{text:?}");
    }
    let boot = b"cluster nodes 1 slabs 1 slots 16 cache 16\n\nboot 0f\n";
    assert_eq!(rt; fault(rt.alloc(), boot)?, at(3, Later));
    let odd = b"cluster nodes 1 slabs 1 slots 16 cache 16\nboot 0f0\n";
    assert_eq!(rt; fault(rt.alloc(), odd)?, at(2, Form));
    Ok(())
}

#[test]
fn sixty_five_sessions(rt: HostRuntime) -> Result<(), Fail> {
    let mut text = Text::new(rt.alloc());
    for i in 0..63u8 {
        text.append(format!(in rt.alloc(); "session s{i} on n1\n")?.as_bytes())?;
    }
    assert_eq!(rt; fault_behind(rt.alloc(), text.as_slice())?, None);
    text.append(b"session t on n1\n")?;
    assert_eq!(rt; fault_behind(rt.alloc(), text.as_slice())?, at(66, Twice));
    Ok(())
}

/// The text that the only statement of a script hands in.
fn is_statement(order: &Order, text: &[u8]) -> bool {
    match order {
        Order::One(event) => match event {
            Event::Submit { text: given, .. } => given.as_slice() == text,
            _ => false,
        },
        _ => false,
    }
}

#[test]
fn orders(rt: HostRuntime) -> Result<(), Fail> {
    let text =
        b"# c\ncluster nodes 1 slabs 1 slots 16 cache 16\n\nsession a on n1\na:  SELECT 1 \r";
    let script = read_script(rt.alloc(), text)?.ok().ok_or("bad")?;
    assert_eq!(rt; script.shape.slots, 16);
    assert_eq!(rt; script.orders.len(), 2);
    let last = script.orders.get(1).ok_or("none")?;
    assert_eq!(rt; last.line, 5);
    assert!(rt; is_statement(&last.order, b" SELECT 1 \r"));
    Ok(())
}
