//! Runs the programs of the folder `examples/` that standard input names, one a line, and tells of
//! each whether it prints what stands beside it. A program is NAME.dactl, what it prints NAME.out.
//! Each is run by one worker, by as many as the command takes without words, and by 16.
#![tactic(auto)]

use dactl_base::memory::{MemorySink, SteadySource};
use dactl_top::dactl;
use dactl_top::kept::Kept;
use dactl_workers::OpenGate;
use std::rt::Files;
use std::sync::Wait;
use std::thread::Threads;
use std::{fs, io};

/// The numbers of workers. Where none is given, the command takes its own.
const WORKERS: [&str; 3] = ["", "1", "16"];

// The words of a command line that asks for so many workers, the program's name first.
fn words(rt: &impl AllocGlobal, workers: &str) -> io::Result<Vec<String>> {
    let mut words = Vec::new(rt.alloc());
    words.push(String::from_str(rt.alloc(), "dactl")?)?;
    if !workers.is_empty() {
        words.push(String::from_str(rt.alloc(), "--workers")?)?;
        words.push(String::from_str(rt.alloc(), workers)?)?;
    }
    Ok(words)
}

// Whether the text, run by so many workers, prints what is due.
fn prints<R: Threads + Wait + Sync + AllocGlobal>(
    rt: &R,
    text: &[u8],
    workers: &str,
    due: &[u8],
) -> io::Result<bool> {
    let words = words(rt, workers)?;
    let mut source = SteadySource::new(Vec::from_slice(rt.alloc(), text)?);
    let mut sink = MemorySink::new(rt.alloc(), 65_536, 4_096, Vec::new(rt.alloc()))?;
    let mut kept = Kept::empty(rt.alloc());
    dactl(
        rt,
        rt.alloc(),
        &words,
        &mut source,
        &mut sink,
        &OpenGate,
        &mut kept,
    );
    Ok(sink.held() == due)
}

// Whether the example prints what stands beside it in each run.
fn holds<R: Threads + Wait + Sync + AllocGlobal + Files>(rt: &R, name: &str) -> io::Result<bool> {
    let text = fs::read(rt, format!(in rt.alloc(); "{name}.dactl")?.as_str())?;
    let due = fs::read(rt, format!(in rt.alloc(); "{name}.out")?.as_str())?;
    for workers in WORKERS {
        if !prints(rt, text.as_slice(), workers, due.as_slice())? {
            return Ok(false);
        }
    }
    Ok(true)
}

fn main(rt: HostRuntime) -> io::Result<()> {
    for line in rt.lines(rt.alloc()) {
        let name = line?;
        let verdict = if holds(&rt, &name)? {
            "as due"
        } else {
            "OTHERWISE"
        };
        println!(rt; "{name}: {verdict}")?;
    }
    Ok(())
}
