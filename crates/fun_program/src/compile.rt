//! From the bytes of a text of equations to its program.

ghost use Rattle.std.specs.Prelude.{◌≤◌, IfOk, length};
ghost use Rattle.dactl_model.specs.Programs.{IsValid};
ghost use Rattle.fun_program.specs.Compiling.{Compiles};

use dactl_base::refusal::TextFault;
use dactl_model::program::Program;
use dactl_rules::program;
use dactl_symbols::scope;
use fun_compile::translate;
use fun_syntax::read_fun;
use std::alloc::Global;

/// The program of a text of equations, or its first fault.
///
/// # Errors
///
/// `Refused` with the first fault of the text, as `read_fun` tells it. `Memory` where memory is
/// wanting, which tells nothing of the text.
pub fn compile_equations(alloc: Global, text: &[u8]) -> Result<Program, TextFault>
    requires { length text.now ≤ 1048576 }
    ensures answer { Compiles text.now result }
    ensures valid { IfOk result IsValid }
{
    let equations = read_fun(alloc, text)?;
    let tree = translate(alloc, &equations)?;
    let scopes = scope(alloc, &tree)?;
    program(alloc, &tree, &scopes)
}
