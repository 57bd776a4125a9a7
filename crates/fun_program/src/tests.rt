//! A program of equations, and texts that have none.

use crate::compile::compile_equations;
use dactl_base::refusal::{Kind, TextFault};
use dactl_model::program::Program;
use std::alloc::Global;

fn program_of(alloc: Global, text: &[u8]) -> Option<Program> {
    if text.len() > 1_048_576 {
        return None;
    }
    compile_equations(alloc, text).ok()
}

// Beside the seven symbols of arithmetic a program has those of the functions, Chk and the
// constructors.
fn has_symbols(program: &Program, count: usize) -> bool {
    program.symbols.as_slice().len() == count && !program.wide
}

fn is_refused(alloc: Global, text: &[u8], kind: Kind, byte: u32) -> bool {
    if text.len() > 1_048_576 {
        return false;
    }
    match compile_equations(alloc, text) {
        Err(TextFault::Refused(refusal)) => refusal.kind == kind && refusal.place.byte == byte,
        _ => false,
    }
}

#[test]
fn equations_have_a_program(rt: HostRuntime) {
    let text = b"DATA A, B; F[A] = B; F[B] = A; MAIN = F[F[A]];";
    let program = program_of(rt.alloc(), text);
    assert!(rt; program.is_some_and(|program| has_symbols(&program, 11)));
    let bare = program_of(rt.alloc(), b"MAIN = 1;");
    assert!(rt; bare.is_some_and(|program| has_symbols(&program, 8)));
}

#[test]
fn a_fault_is_told_at_its_place(rt: HostRuntime) {
    assert!(rt; is_refused(rt.alloc(), b"MAIN = F;", Kind::UnknownName, 7));
    assert!(rt; is_refused(rt.alloc(), b"MAIN = 1", Kind::Unexpected, 8));
}
