//! The functions of equations, in the order of their first equations.

ghost use Rattle.std.specs.Prelude.{◌≡◌, IfOk, map};
ghost use Rattle.fun_meaning.specs.Functions.{first_ones};
ghost use Rattle.fun_compile.specs.Knowing.{told};

use dactl_model::Memory;
use fun_meaning::tree::Equation;
use std::alloc::Global;
use std::collections::BTreeSet;

/// The first equation of each function, in text order.
///
/// # Errors
///
/// `Memory` where the list, or the set of the functions, cannot grow.
pub fn first_equations(alloc: Global, equations: &[Equation]) -> Result<Vec<&Equation>, Memory>
    ensures { IfOk result (λ firsts. told firsts.items ≡ first_ones equations.now) }
{
    let mut heads = BTreeSet::new(alloc);
    let mut firsts = Vec::new(alloc);
    for equation in equations {
        if heads.insert(equation.head.text.as_slice())? {
            firsts.push(equation)?;
        }
    }
    Ok(firsts)
}
