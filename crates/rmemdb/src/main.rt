//! The program: `rmemdb serve` answers SQL statements from standard input, a line each, on standard output.
#![tactic(auto)]

use rm_base::WantOfMemory;
use rm_env::{StdSink, StdSource};
use rmem_db::{Status, run};
use std::env;
use std::io::ErrorKind;
use std::process::ExitCode;
use std::rt::Env;

/// The words behind the program's name. Words that are not UTF-8 are none that the program takes, and
/// count as no words.
fn words<R: Env + AllocGlobal>(rt: &R) -> Result<Vec<String>, WantOfMemory> {
    let mut words = Vec::new(rt.alloc());
    match env::args(rt) {
        Ok(args) => {
            for word in args.skip(1) {
                words.push(word)?;
            }
            Ok(words)
        }
        Err(e) if e.kind() == ErrorKind::OutOfMemory => Err(WantOfMemory),
        Err(_) => Ok(words),
    }
}

fn main(rt: HostRuntime) -> ExitCode {
    let mut source = StdSource::new(rt.stdin());
    let mut sink = StdSink::new(rt.stdout());
    let mut kept = None;
    let status = match words(&rt) {
        Ok(words) => run(rt.alloc(), &words, &mut source, &mut sink, &mut kept),
        Err(WantOfMemory) => Status::WantOfMemory,
    };
    ExitCode::from(status.code())
}
