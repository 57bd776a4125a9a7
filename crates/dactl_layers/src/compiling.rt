//! The compiler's calls in a row.

ghost use Rattle.std.specs.Prelude.{◌≤◌, IfOk, length};
ghost use Rattle.dactl_model.specs.Programs.{IsValid};

use dactl_base::refusal::TextFault;
use dactl_model::program::Program;
use dactl_rules::program;
use dactl_symbols::scope;
use dactl_syntax::parse;
use dactl_tokens::tokens;
use std::alloc::Global;

/// The program of a text of modules.
///
/// # Errors
/// `Refused` with the text's first fault, or `Memory` where memory is wanting.
pub fn compile(alloc: Global, text: &[u8]) -> Result<Program, TextFault>
    requires { length text.now ≤ 1048576 }
    ensures { IfOk result IsValid }
{
    let found = tokens(alloc, text)?;
    let tree = parse(alloc, text, found.as_slice())?;
    let scopes = scope(alloc, &tree)?;
    program(alloc, &tree, &scopes)
}
