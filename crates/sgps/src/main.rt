//! The program `sgps`: it hands the words of its command line and the standard streams to `sgps_cli::run`, and ends
//! with the status that the run has.
#![tactic(auto)]

use sg_io::{StdSink, StdSource, write_whole};
use sgps_cli::run;
use std::env;
use std::io::ErrorKind;
use std::process::ExitCode;

/// The status where memory for the words is refused, and the line that tells it, as `run` has them.
const NO_MEMORY: u8 = 5;

const NO_MEMORY_LINE: &[u8] = b"sgps: no memory\n";

fn main(rt: HostRuntime) -> ExitCode {
    let mut err = StdSink::err(&rt);
    let Some(words) = words(&rt) else {
        let _ = write_whole(&mut err, NO_MEMORY_LINE);
        return ExitCode::from(NO_MEMORY);
    };
    let mut source = StdSource::new(&rt);
    let mut out = StdSink::out(&rt);
    let ending = run(rt.alloc(), &words, &mut source, &mut out, &mut err);
    ExitCode::from(ending.status)
}

/// The words without the program's name, or none where memory for them is refused. Words that are no text are taken
/// as one empty word, which is no accepted word.
fn words(rt: &HostRuntime) -> Option<Vec<String>> {
    match env::args(rt) {
        Ok(words) => words.skip(1).collect(rt.alloc()).ok(),
        Err(error) if error.kind() == ErrorKind::OutOfMemory => None,
        Err(_) => vec![in rt.alloc(); String::new(rt.alloc())].ok(),
    }
}
