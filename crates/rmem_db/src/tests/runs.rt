use crate::running::run;
use crate::status::Status;
use crate::tests::serve;
use rm_base::Items;
use rm_env::{MemSink, MemSource, QuietSink, QuietSource};
use std::alloc::Global;
use std::test::Fail;

const ROW: &str = "BEGIN\nBEGIN\nCOMMIT\nROLLBACK\nSELEC 1\nbegin;\nrollback\n";

const ROW_OUTPUT: &str =
    "ok 0\nerror in transaction\nok 0\nerror no transaction\nerror syntax at 0\nok 0\nok 0\n";

/// The status and the output of a run over an input that comes in pieces.
fn served(alloc: Global, input: &[u8], piece: usize) -> Result<(Status, Vec<u8>), Fail> {
    let bytes = Items::from_vec(input.to_vec(alloc)?);
    let mut source = QuietSource::new(bytes).in_pieces(piece.max(1));
    let mut sink = QuietSink::new(alloc);
    let status = run(alloc, &serve(alloc)?, &mut source, &mut sink, &mut None);
    Ok((status, sink.taken().to_vec(alloc)?))
}

#[test]
fn any_pieces_give_one_output(rt: HostRuntime) -> Result<(), Fail> {
    let alloc = rt.alloc();
    for piece in [1, 2, 7, 65_536] {
        let (status, output) = served(alloc, ROW.as_bytes(), piece)?;
        assert_eq!(rt; status, Status::Done);
        assert_eq!(rt;
            output.as_slice(),
            ROW_OUTPUT.as_bytes(),
            "in pieces of {piece}"
        );
    }
    Ok(())
}

#[test]
fn lines_are_parted_at_line_feeds(rt: HostRuntime) -> Result<(), Fail> {
    let alloc = rt.alloc();
    for (input, want) in [
        ("", ""),
        ("\n \t\r\n\r\n   ", ""),
        ("COMMIT", "error no transaction\n"),
        ("x\n\nBEGIN\r\nCOMMIT\n", "error syntax at 0\nok 0\nok 0\n"),
        ("BEGIN\nROLLBACK", "ok 0\nok 0\n"),
    ] {
        for piece in [1, 3, 100] {
            let (status, output) = served(alloc, input.as_bytes(), piece)?;
            assert_eq!(rt; status, Status::Done);
            assert_eq!(rt;
                output.as_slice(),
                want.as_bytes(),
                "at {input:?} in pieces of {piece}"
            );
        }
    }
    Ok(())
}

#[test]
fn an_input_past_the_limit_is_too_long(rt: HostRuntime) -> Result<(), Fail> {
    let alloc = rt.alloc();
    for (length, end, want) in [
        (4_194_304, Status::Done, ""),
        (4_194_305, Status::TooLong, "too long\n"),
    ] {
        let input = vec![in alloc; b' '; length]?;
        let (status, output) = served(alloc, input.as_slice(), 65_536)?;
        assert_eq!(rt; status, end);
        assert_eq!(rt; output.as_slice(), want.as_bytes());
    }
    Ok(())
}

#[test]
fn other_words_are_refused(rt: HostRuntime) -> Result<(), Fail> {
    let alloc = rt.alloc();
    for count in [0, 2] {
        let mut words = Vec::new(alloc);
        for _ in 0..count {
            words.push(String::from_str(alloc, "serve")?)?;
        }
        let mut source = QuietSource::new(Items::from_vec(b"x\n".to_vec(alloc)?));
        let mut sink = QuietSink::new(alloc);
        assert_eq!(rt;
            run(alloc, &words, &mut source, &mut sink, &mut None),
            Status::BadWords
        );
        assert_eq!(rt; sink.taken(), b"bad words\n".as_slice());
    }
    Ok(())
}

/// The status of a run over the worked row, and how many bytes of its output the sink took.
fn broken(alloc: Global, read_fails: u64, write_fails: u64) -> Result<(Status, usize, bool), Fail> {
    let bytes = Items::from_vec(ROW.as_bytes().to_vec(alloc)?);
    let mut source = MemSource::new(bytes, vec![in alloc; read_fails]?).in_pieces(20);
    let mut sink = MemSink::new(alloc, vec![in alloc; write_fails]?);
    let status = run(alloc, &serve(alloc)?, &mut source, &mut sink, &mut None);
    let taken = sink.taken();
    Ok((
        status,
        taken.len(),
        ROW_OUTPUT.as_bytes().starts_with(taken),
    ))
}

#[test]
fn a_failing_read_leaves_the_replies_to_whole_lines(rt: HostRuntime) -> Result<(), Fail> {
    // The row comes in 3 reads of at most 20 bytes, and the fourth finds the end.
    for (call, end, taken) in [
        (1, Status::ReadFault, 0),
        (2, Status::ReadFault, 31),
        (3, Status::ReadFault, 70),
        (4, Status::ReadFault, 80),
        (5, Status::Done, 80),
        (6, Status::Done, 80),
        (7, Status::Done, 80),
        (8, Status::Done, 80),
    ] {
        assert_eq!(rt;
            broken(rt.alloc(), call, 0)?,
            (end, taken, true),
            "read {call}"
        );
    }
    Ok(())
}

#[test]
fn a_failing_write_leaves_the_pieces_before_it(rt: HostRuntime) -> Result<(), Fail> {
    // The row's output are 7 lines, each of them one piece.
    for (call, end, taken) in [
        (1, Status::WriteFault, 0),
        (2, Status::WriteFault, 5),
        (3, Status::WriteFault, 26),
        (4, Status::WriteFault, 31),
        (5, Status::WriteFault, 52),
        (6, Status::WriteFault, 70),
        (7, Status::WriteFault, 75),
        (8, Status::Done, 80),
    ] {
        assert_eq!(rt;
            broken(rt.alloc(), 0, call)?,
            (end, taken, true),
            "write {call}"
        );
    }
    Ok(())
}

#[test]
fn a_sink_may_take_a_byte_at_a_time(rt: HostRuntime) -> Result<(), Fail> {
    let alloc = rt.alloc();
    let bytes = Items::from_vec(ROW.as_bytes().to_vec(alloc)?);
    let mut source = QuietSource::new(bytes);
    let mut sink = MemSink::new(alloc, Vec::new(alloc)).in_pieces(1);
    let status = run(alloc, &serve(alloc)?, &mut source, &mut sink, &mut None);
    assert_eq!(rt; status, Status::Done);
    assert_eq!(rt; sink.taken(), ROW_OUTPUT.as_bytes());
    Ok(())
}

#[test]
fn each_status_has_its_code(rt: HostRuntime) {
    for (status, code) in [
        (Status::Done, 0),
        (Status::BadWords, 2),
        (Status::BadScript, 3),
        (Status::ReadFault, 4),
        (Status::WriteFault, 5),
        (Status::TooLong, 6),
        (Status::BadLog, 7),
        (Status::WantOfMemory, 12),
    ] {
        assert_eq!(rt; status.code(), code);
    }
}
