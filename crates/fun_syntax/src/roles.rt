//! What the names of equations are.

ghost use Rattle.std.specs.Prelude.{◌≡◌, IfOk};
ghost use Rattle.fun_syntax.specs.Words.{found_in};
ghost use Rattle.fun_syntax.specs.Roles as spec;
ghost use Rattle.fun_syntax.specs.Roles.{built_in};

use crate::words::enter;
use dactl_base::refusal::Memory;
use std::alloc::Global;
use std::collections::BTreeMap;

/// What a name is. A function has as many arguments as its first equation has patterns.
#[derive(Clone, Copy, Debug, PartialEq, Eq, Drop)]
pub enum Role {
    Constructor,
    Arithmetic,
    Function { arity: usize },
}

/// What each name is.
pub type Roles = BTreeMap<Vec<u8>, Role>;

/// The words that a translation has for itself.
pub fn is_reserved(word: &[u8]) -> bool
    ensures { result ≡ spec.is_reserved word.now }
{
    word == b"Fun".as_slice() || word == b"Chk".as_slice() || word == b"Arithmetic".as_slice()
}

/// Whether no equation may define the name.
pub fn is_given(role: Option<Role>) -> bool
    ensures { result ≡ spec.is_given role }
{
    matches!(role, Some(Role::Constructor | Role::Arithmetic))
}

/// Whether the name is a function, be it of equations or arithmetic.
pub fn is_called(role: Option<Role>) -> bool
    ensures { result ≡ spec.is_called role }
{
    matches!(role, Some(Role::Arithmetic | Role::Function { .. }))
}

/// Whether a function is given another number of arguments than it has.
pub fn has_other_count(role: Option<Role>, count: usize) -> bool
    ensures { result ≡ spec.has_other_count role count }
{
    match role {
        Some(Role::Arithmetic) => count != 2,
        Some(Role::Function { arity }) => count != arity,
        Some(Role::Constructor) | None => false,
    }
}

/// What a word is, if it is declared.
pub fn role_of(roles: &Roles, word: &[u8]) -> Option<Role>
    ensures { result ≡ found_in roles.now word.now }
{
    roles.get(word).copied()
}

/// What is declared before a text.
///
/// # Errors
///
/// Where memory is wanting.
pub fn built_ins(alloc: Global) -> Result<Roles, Memory>
    ensures { IfOk result (λ roles. found_in roles ≡ built_in) }
{
    let mut roles = BTreeMap::new(alloc);
    enter(&mut roles, alloc, b"IAdd".as_slice(), Role::Arithmetic)?;
    enter(&mut roles, alloc, b"ISub".as_slice(), Role::Arithmetic)?;
    enter(&mut roles, alloc, b"IMul".as_slice(), Role::Arithmetic)?;
    enter(&mut roles, alloc, b"IEq".as_slice(), Role::Arithmetic)?;
    enter(&mut roles, alloc, b"ILt".as_slice(), Role::Arithmetic)?;
    enter(&mut roles, alloc, b"True".as_slice(), Role::Constructor)?;
    enter(&mut roles, alloc, b"False".as_slice(), Role::Constructor)?;
    Ok(roles)
}
