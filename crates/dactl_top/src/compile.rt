//! From the bytes of a text to its program.

ghost use Rattle.std.specs.Prelude.{◌≤◌, IfOk, length};
ghost use Rattle.dactl_model.specs.Programs.{IsValid};
ghost use Rattle.dactl_top.specs.Compiling.{Compiles, CompilesBy};

use dactl_base::refusal::TextFault;
use dactl_model::program::Program;
use dactl_rules::program;
use dactl_symbols::scope;
use dactl_syntax::parse;
use dactl_tokens::tokens;
use fun_program::compile_equations;
use std::alloc::Global;

/// The program of a text of modules, or its first fault.
///
/// # Errors
///
/// `Refused` with the first fault of a text that is no program. `Memory` where memory is wanting.
pub fn compile(alloc: Global, text: &[u8]) -> Result<Program, TextFault>
    requires { length text.now ≤ 1048576 }
    ensures answer { Compiles text.now result }
    ensures valid { IfOk result IsValid }
{
    let found = tokens(alloc, text)?;
    let tree = parse(alloc, text, found.as_slice())?;
    drop(found);
    match scope(alloc, &tree) {
        Ok(scopes) => program(alloc, &tree, &scopes),
        Err(fault) => Err(fault),
    }
}

/// The program of a text, or its first fault. With `fun` the text is a list of equations, and else
/// one of modules.
///
/// # Errors
///
/// `Refused` with the first fault of a text that is no program. `Memory` where memory is wanting.
#[tactic(auto, using(crate::proofs::Compiled::by_modules, crate::proofs::Compiled::by_equations))]
pub fn compile_input(alloc: Global, fun: bool, text: &[u8]) -> Result<Program, TextFault>
    requires { length text.now ≤ 1048576 }
    ensures answer { CompilesBy fun text.now result }
    ensures valid { IfOk result IsValid }
{
    if fun {
        compile_equations(alloc, text)
    } else {
        compile(alloc, text)
    }
}
