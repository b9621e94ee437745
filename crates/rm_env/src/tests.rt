use crate::*;
use rm_base::Items;
use std::alloc::Global;
use std::io;
use std::io::{Read, Write};
use std::test::Fail;

/// Reads up to the end or the first fault, four bytes a call, and answers what was read.
fn read_through<S: Source>(alloc: Global, source: &mut S) -> Result<(Vec<u8>, bool), Fail> {
    let mut all = Vec::new(alloc);
    for _ in 0..100 {
        let mut buf = [0u8; 4];
        match source.read(&mut buf) {
            Ok(0) => return Ok((all, false)),
            Ok(n) => all.extend_from_slice(&buf[..n])?,
            Err(_) => return Ok((all, true)),
        }
    }
    Ok((all, false))
}

#[test]
fn sources_in_memory_give_their_bytes_and_fail_at_the_given_calls(
    rt: HostRuntime,
) -> Result<(), Fail> {
    let alloc = rt.alloc();
    for (piece, fail, want, faulty) in [
        (9usize, 9u64, "one, two", false),
        (1, 20, "one, two", false),
        (3, 1, "", true),
        (3, 2, "one", true),
    ] {
        let bytes = Items::from_vec(b"one, two".to_vec(alloc)?);
        let mut source = MemSource::new(bytes, vec![in alloc; fail]?).in_pieces(piece.max(1));
        let (read, failed) = read_through(alloc, &mut source)?;
        assert_eq!(rt; read.as_slice(), want.as_bytes());
        assert_eq!(rt; failed, faulty);
        assert_eq!(rt; source.faults(), u64::from(faulty));
    }
    let bytes = Items::from_vec(b"quiet".to_vec(alloc)?);
    let (read, failed) = read_through(alloc, &mut QuietSource::new(bytes).in_pieces(2))?;
    assert_eq!(rt; read.as_slice(), b"quiet".as_slice());
    assert_eq!(rt; failed, false);
    Ok(())
}

#[test]
fn sinks_in_memory_take_pieces_and_fail_at_the_given_calls(rt: HostRuntime) -> Result<(), Fail> {
    let alloc = rt.alloc();
    let mut sink = MemSink::new(alloc, vec![in alloc; 2, 4]?).in_pieces(3);
    assert_eq!(rt; sink.write(b"ok 1\n"), Ok(3));
    assert_eq!(rt; sink.write(b"1\n"), Err(SinkNo::Failed));
    assert_eq!(rt; sink.write(b"1\n"), Ok(2));
    assert_eq!(rt; sink.write(b"rows"), Err(SinkNo::Failed));
    assert_eq!(rt; sink.taken(), b"ok 1\n".as_slice());
    assert_eq!(rt; sink.faults(), 2);
    let mut quiet = QuietSink::new(alloc);
    assert_eq!(rt; quiet.write(b"rows 0\n"), Ok(7));
    assert_eq!(rt; quiet.write(b""), Ok(0));
    assert_eq!(rt; quiet.taken(), b"rows 0\n".as_slice());
    Ok(())
}

/// Answers an error to each call.
#[derive(Drop)]
struct Broken;

impl Read for Broken {
    fn read(&mut self, _buf: &mut [u8]) -> io::Result<usize> {
        Err(io::Error::from(io::ErrorKind::BrokenPipe))
    }
}

impl Write for Broken {
    fn write(&mut self, _buf: &[u8]) -> io::Result<usize> {
        Err(io::Error::from(io::ErrorKind::BrokenPipe))
    }

    fn flush(&mut self) -> io::Result<()> {
        Ok(())
    }
}

/// Takes nothing.
#[derive(Drop)]
struct Full;

impl Write for Full {
    fn write(&mut self, _buf: &[u8]) -> io::Result<usize> {
        Ok(0)
    }

    fn flush(&mut self) -> io::Result<()> {
        Ok(())
    }
}

#[test]
fn adapters_pass_bytes_on(rt: HostRuntime) -> Result<(), Fail> {
    let alloc = rt.alloc();
    let (read, failed) = read_through(alloc, &mut StdSource::new(b"adapted".as_slice()))?;
    assert_eq!(rt; read.as_slice(), b"adapted".as_slice());
    assert_eq!(rt; failed, false);
    let mut sink = StdSink::new(Vec::new(alloc));
    assert_eq!(rt; sink.write(b"ok 1\n"), Ok(5));
    assert_eq!(rt; sink.faults(), 0);
    Ok(())
}

#[test]
fn adapters_count_errors(rt: HostRuntime) -> Result<(), Fail> {
    let mut broken = StdSource::new(Broken);
    assert_eq!(rt; read_through(rt.alloc(), &mut broken)?.1, true);
    assert_eq!(rt; broken.faults(), 1);
    let mut full = StdSink::new(Full);
    assert_eq!(rt; full.write(b"ok 1\n"), Ok(0));
    assert_eq!(rt; full.faults(), 1);
    let mut shut = StdSink::new(Broken);
    assert_eq!(rt; shut.write(b"ok 1\n"), Err(SinkNo::Failed));
    assert_eq!(rt; shut.faults(), 1);
    Ok(())
}
