//! The program `dmasim`: carries out the command that its words name, over standard input and standard output.
#![tactic(auto)]

use nc_io::{StdSink, StdSource};
use nc_top::dmasim;
use std::alloc::{AllocError, Global};
use std::env;
use std::io::{BufWriter, ErrorKind, Write};
use std::process::ExitCode;
use std::rt::Env;

/// Returns the words after the program's name, or no words where one is not UTF-8, which no command is.
///
/// # Errors
///
/// `AllocError` where memory runs out.
fn words<R: Env + AllocGlobal>(rt: &R, alloc: Global) -> Result<Vec<String>, AllocError> {
    let mut words = Vec::new(alloc);
    match env::args(rt) {
        Ok(given) => {
            for word in given.skip(1) {
                words.push(word)?;
            }
        }
        Err(lost) => {
            if lost.kind() == ErrorKind::OutOfMemory {
                return Err(AllocError);
            }
        }
    }
    Ok(words)
}

fn main(rt: HostRuntime) -> ExitCode {
    let alloc = rt.alloc();
    let Ok(words) = words(&rt, alloc) else {
        return ExitCode::from(6);
    };
    let Ok(mut buffered) = BufWriter::new(alloc, std::io::writer(&rt)) else {
        return ExitCode::from(6);
    };
    let mut src = StdSource::new(rt.reader());
    let status = dmasim(alloc, &words, &mut src, &mut StdSink::new(&mut buffered));
    if status == 2 {
        // A usage line beside the answer. Where it can't be written, the status stays.
        let _ = eprintln!(rt; "usage: dmasim run | migrate | pool | gen N");
    }
    match buffered.flush() {
        Ok(()) => ExitCode::from(status),
        Err(_) => ExitCode::from(5),
    }
}
