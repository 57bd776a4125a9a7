//! The program: a source text on standard input, the answer on standard output, and its code as the
//! exit status.
#![tactic(auto)]

use dactl_base::adapters::{ReaderSource, WriterSink};
use dactl_top::dactl;
use dactl_top::kept::Kept;
use dactl_top::status::Status;
use dactl_workers::OpenGate;
use std::io::ErrorKind;
use std::process::ExitCode;
use std::{env, io};

// The words of the command line. Where one is no text, a list that no command line fits stands for
// them.
fn words(rt: &HostRuntime) -> io::Result<Vec<String>> {
    let mut words = Vec::new(rt.alloc());
    match env::args(rt) {
        Ok(args) => {
            for word in args {
                words.push(word)?;
            }
        }
        Err(fault) if fault.kind() == ErrorKind::OutOfMemory => return Err(fault),
        Err(_) => {
            for _ in 0..2 {
                words.push(String::from_str(rt.alloc(), "\u{fffd}")?)?;
            }
        }
    }
    Ok(words)
}

fn main(rt: HostRuntime) -> ExitCode {
    let Ok(words) = words(&rt) else {
        return ExitCode::from(Status::Memory.code());
    };
    let mut kept = Kept::empty(rt.alloc());
    let mut source = ReaderSource::new(rt.reader());
    let mut sink = WriterSink::new(io::writer(&rt));
    let status = dactl(
        &rt,
        rt.alloc(),
        &words,
        &mut source,
        &mut sink,
        &OpenGate,
        &mut kept,
    );
    ExitCode::from(status.code())
}
