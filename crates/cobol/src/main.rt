//! `cobol`: reads a program, and checks it or shows its screen.
//!
//! The words of the command line say what to do; the files of the current folder are read, and results and lines of
//! refusal go to standard output. The status says how it went.
#![tactic(auto)]

use cob_base::NoMemory;
use cobol_cmd::{Answer, cobol_plain};
use outside_world::{HostShelf, StdSink};
use std::io::ErrorKind;
use std::process::ExitCode;
use std::{env, io};

/// The words after the program's name. Words that are no text have no shape of a command, and count as none.
fn words(rt: &HostRuntime) -> Result<Vec<String>, NoMemory> {
    match env::args(rt) {
        Ok(args) => Ok(args.skip(1).collect(rt.alloc())?),
        Err(error) => {
            if error.kind() == ErrorKind::OutOfMemory {
                Err(NoMemory)
            } else {
                Ok(Vec::new(rt.alloc()))
            }
        }
    }
}

fn main(rt: HostRuntime) -> ExitCode {
    let Ok(words) = words(&rt) else {
        return ExitCode::from(Answer::NoMemory.status());
    };
    let mut shelf = HostShelf::new(&rt);
    let mut out = StdSink::new(io::writer(&rt));
    ExitCode::from(cobol_plain(rt.alloc(), words.as_slice(), &mut shelf, &mut out))
}
