//! fairlive: checks answers that a request of a circuit can wait for ever, and writes generated models.
//! The program makes the real shelf and sink, and ends with the number of the status that `run` answers.
#![tactic(auto)]

use edge::{FileShelf, Progress, StdSink};
use fair_top::{Status, run};
use std::io::IsTerminal;
use std::process::ExitCode;
use std::{env, io};

fn main(rt: HostRuntime) -> ExitCode {
    let status = match words_of(&rt) {
        Ok(words) => run(
            &rt,
            rt.alloc(),
            &words,
            &mut FileShelf::new(rt.alloc(), &rt),
            &mut StdSink::new(&rt),
            &progress(&rt),
        ),
        Err(_) => Status::Memory,
    };
    ExitCode::from(status.number())
}

/// The gate that says on the error stream how far workers are, where that stream is a terminal.
fn progress(rt: &HostRuntime) -> Option<Progress<'_, HostRuntime>> {
    if rt.stderr().is_terminal() {
        Progress::new(rt)
    } else {
        None
    }
}

/// The words of the command line. Words that are not UTF-8 are handed on as none, which is no command.
fn words_of(rt: &HostRuntime) -> io::Result<Vec<String>> {
    let mut words = Vec::new(rt.alloc());
    match env::args(rt) {
        Ok(args) => {
            for word in args {
                words.push(word)?;
            }
        }
        Err(error) if error.kind() == io::ErrorKind::OutOfMemory => return Err(error),
        Err(_) => {}
    }
    Ok(words)
}
