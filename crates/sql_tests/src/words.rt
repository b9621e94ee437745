//! Texts as tokens.
use sql_words::{Class, Sign, Token, WORDS, Word, content_of, number_in, one_reading, scan, words};
use std::alloc::Global;
use std::test::Fail;

/// Where a text has a byte that begins no token.
fn fault(alloc: Global, text: &[u8]) -> Result<Option<usize>, Fail> {
    match words(alloc, text)? {
        Ok(_) => Ok(None),
        Err(bad) => Ok(Some(bad.at)),
    }
}

#[test]
fn faults(rt: HostRuntime) -> Result<(), Fail> {
    let rows: [(&[u8], Option<usize>); 30] = [
        (b"", None),
        (b" \t\r", None),
        (b"\n", Some(0)),
        (b"a # b", Some(2)),
        (b"a != b", None),
        (b"a ! = b", Some(2)),
        (b"a !", Some(2)),
        (b"caf\xc3\xa9", Some(3)),
        (b"12ab", Some(2)),
        (b"12 ab", None),
        (b"12_", Some(2)),
        (b"12'ab'", None),
        (b"a234567890123456789012345678901_", None),
        (b" a234567890123456789012345678901_x", Some(1)),
        (b"9223372036854775807", None),
        (b"9223372036854775808", Some(0)),
        (b"-9223372036854775808", None),
        (b"- \t 0009223372036854775808", None),
        (b"1 - 9223372036854775808", None),
        (b"-9223372036854775809", Some(1)),
        (b"+ 9223372036854775808", Some(2)),
        (b"99999999999999999999", Some(0)),
        (b"x 'a''b' y", None),
        (b"x 'a''", Some(2)),
        (b"x ''''", None),
        (b"x '", Some(2)),
        (b"x 'caf\xc3\xa9'", None),
        (b"x 'a\xffb' #", Some(4)),
        (b"x 'a''\xc3' #", Some(6)),
        (b"x 'a\xffb", Some(2)),
    ];
    for (text, at) in rows {
        assert_eq!(rt; fault(rt.alloc(), text)?, at, "{text:?}");
    }
    one_reading();
    Ok(())
}

fn shown(token: &Token<'_>) -> (usize, usize, Class) {
    (token.at, token.text.len(), token.class)
}

#[test]
fn classes_and_places(rt: HostRuntime) -> Result<(), Fail> {
    let text = b" seLECT x1,'o''b' <>\t007<=a.b!=;";
    let wanted = [
        (1, 6, Class::Reserved(Word::Select)),
        (8, 2, Class::Name),
        (10, 1, Class::Sign(Sign::Comma)),
        (11, 6, Class::Text),
        (18, 2, Class::Sign(Sign::Ne)),
        (21, 3, Class::Number),
        (24, 2, Class::Sign(Sign::Le)),
        (26, 1, Class::Name),
        (27, 1, Class::Sign(Sign::Dot)),
        (28, 1, Class::Name),
        (29, 2, Class::Sign(Sign::Ne)),
        (31, 1, Class::Sign(Sign::Semicolon)),
    ];
    let reading = scan(rt.alloc(), text)?;
    assert_eq!(rt; reading.fault, None);
    assert_eq!(rt; reading.tokens.len(), 12);
    for (token, want) in reading.tokens.as_slice().iter().zip(wanted) {
        assert_eq!(rt; shown(token), want);
    }
    Ok(())
}

#[test]
fn reserved_words_in_both_cases(rt: HostRuntime) -> Result<(), Fail> {
    for word in WORDS {
        let reading = scan(rt.alloc(), word.spelling())?;
        assert_eq!(rt; reading.tokens.len(), 1);
        for token in reading.tokens.as_slice() {
            assert_eq!(rt; token.class, Class::Reserved(word));
        }
    }
    let reading = scan(
        rt.alloc(),
        b"and asc begin by commit count create delete desc from insert int into is join key limit max min not null on or order primary rollback select set sum table text update values where",
    )?;
    assert_eq!(rt; reading.tokens.len(), 34);
    for (token, word) in reading.tokens.as_slice().iter().zip(WORDS) {
        assert_eq!(rt; token.class, Class::Reserved(word));
    }
    Ok(())
}

#[tactic(auto, unfolding(sql_words::specs::Bytes::is_digit))]
#[test]
fn numbers_and_contents(rt: HostRuntime) -> Result<(), Fail> {
    assert_eq!(rt; number_in(b"0070"), Some(70));
    assert_eq!(rt;
        number_in(b"9223372036854775808"),
        Some(9223372036854775808)
    );
    assert_eq!(rt; number_in(b"9223372036854775809"), None);
    let content = content_of(rt.alloc(), b"'''o''b'")?;
    assert_eq!(rt; content.as_slice(), b"'o'b".as_slice());
    Ok(())
}
