//! The program of a text.

ghost use Rattle.std.specs.Prelude.{IfSome};
ghost use Rattle.dactl_model.specs.Programs.{IsValid};

use dactl_base::memory::{MemorySink, SteadySource};
use dactl_model::program::Program;
use dactl_model::validity::is_valid;
use dactl_top::dactl;
use dactl_top::kept::Kept;
use dactl_workers::OpenGate;
use std::alloc::{AllocError, Global};
use std::sync::Wait;
use std::thread::Threads;

// The words of a call that makes a text's program and does not run it.
fn words(alloc: Global) -> Result<Vec<String>, AllocError> {
    let mut words = vec![in alloc; String::from_str(alloc, "dactl")?]?;
    words.push(String::from_str(alloc, "--check")?)?;
    Ok(words)
}

// What a call keeps that checks the text.
fn checked<R: Threads + Wait + Sync>(
    rt: &R,
    alloc: Global,
    text: &str,
) -> Result<Kept, AllocError> {
    let words = words(alloc)?;
    let mut source = SteadySource::new(Vec::from_slice(alloc, text.as_bytes())?);
    let mut sink = MemorySink::new(alloc, 64, 64, Vec::new(alloc))?;
    let mut kept = Kept::empty(alloc);
    dactl(
        rt,
        alloc,
        &words,
        &mut source,
        &mut sink,
        &OpenGate,
        &mut kept,
    );
    Ok(kept)
}

/// The program that the text means, where it means one.
pub(crate) fn compiled<R: Threads + Wait + Sync>(
    rt: &R,
    alloc: Global,
    text: &str,
) -> Option<Program>
    ensures { IfSome result IsValid }
{
    let mut kept = checked(rt, alloc, text).ok()?;
    let program = kept.program.take()?;
    if is_valid(&program) {
        Some(program)
    } else {
        None
    }
}
