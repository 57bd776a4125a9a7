//! Tests of one pattern.
ghost use Rattle.std.specs.Prelude.{◌≡◌, ◌<◌, ◌↔◌, IsTrue, map, ℕ};
ghost use Rattle.std.specs.List.{list_all};
ghost use Rattle.dactl_model.specs.Binders as spec;
ghost use Rattle.dactl_model.specs.Programs as programs;
ghost use Rattle.dactl_model.specs.Validity.{HasVariables};

use crate::integers::is_word;
use crate::program::Pat;

/// The symbol at the head, found through binders and left sides of differences.
pub fn head(pattern: &Pat) -> Option<u32>
    ensures { result ≡ spec.head pattern.now }
{
    match pattern {
        Pat::Any | Pat::Int | Pat::Char | Pat::Literal(_) | Pat::Letter(_) | Pat::Union { .. } =>
            None,
        Pat::Sym { symbol, .. } => Some(*symbol),
        Pat::Bind { inner, .. } => head(inner.get()),
        Pat::Less { left, .. } => head(left.get()),
    }
}

/// Whether each symbol in the pattern is below the count.
#[cycle(symbols)]
pub fn symbols_below(count: usize, pattern: &Pat) -> bool
    ensures { result ≡ programs.symbols_below count pattern.now }
{
    match pattern {
        Pat::Any | Pat::Int | Pat::Char | Pat::Literal(_) | Pat::Letter(_) => true,
        Pat::Sym { symbol, args } => {
            (*symbol as usize) < count && all_symbols_below(count, args.as_slice())
        }
        Pat::Bind { inner, .. } => symbols_below(count, inner.get()),
        Pat::Union { left, right } => {
            symbols_below(count, left.get()) && symbols_below(count, right.get())
        }
        Pat::Less { left, right } => {
            symbols_below(count, left.get()) && symbols_below(count, right.get())
        }
    }
}

#[cycle(symbols)]
fn all_symbols_below(count: usize, patterns: &[Pat]) -> bool
    ensures { result ≡ list_all (λ b. b) (map (programs.symbols_below count) patterns.now) }
{
    for pattern in patterns {
        if !symbols_below(count, pattern) {
            return false;
        }
    }
    true
}

/// Whether the variable of each binder is below the count.
#[cycle(variables)]
fn variables_below(count: u8, pattern: &Pat) -> bool
    ensures { result ≡ spec.variables_below count pattern.now }
{
    match pattern {
        Pat::Any | Pat::Int | Pat::Char | Pat::Literal(_) | Pat::Letter(_) => true,
        Pat::Sym { args, .. } => all_variables_below(count, args.as_slice()),
        Pat::Bind { var, inner } => *var < count && variables_below(count, inner.get()),
        Pat::Union { left, right } => {
            variables_below(count, left.get()) && variables_below(count, right.get())
        }
        Pat::Less { left, right } => {
            variables_below(count, left.get()) && variables_below(count, right.get())
        }
    }
}

#[cycle(variables)]
fn all_variables_below(count: u8, patterns: &[Pat]) -> bool
    ensures { result ≡ list_all (λ b. b) (map (spec.variables_below count) patterns.now) }
{
    for pattern in patterns {
        if !variables_below(count, pattern) {
            return false;
        }
    }
    true
}

/// Whether a binder of the variable stands in the pattern.
#[cycle(binds)]
fn binds(variable: u8, pattern: &Pat) -> bool
    ensures { result ≡ spec.binds variable pattern.now }
{
    match pattern {
        Pat::Any | Pat::Int | Pat::Char | Pat::Literal(_) | Pat::Letter(_) => false,
        Pat::Sym { args, .. } => any_binds(variable, args.as_slice()),
        Pat::Bind { var, inner } => *var == variable || binds(variable, inner.get()),
        Pat::Union { left, right } => {
            binds(variable, left.get()) || binds(variable, right.get())
        }
        Pat::Less { left, right } => binds(variable, left.get()) || binds(variable, right.get()),
    }
}

#[cycle(binds)]
fn any_binds(variable: u8, patterns: &[Pat]) -> bool
    ensures { result ≡ spec.any_true (map (spec.binds variable) patterns.now) }
{
    for pattern in patterns {
        if binds(variable, pattern) {
            return true;
        }
    }
    false
}

/// Whether each binder stands where it may, as `allowed` says of the pattern's own place.
#[cycle(places)]
pub fn allows(pattern: &Pat, allowed: bool) -> bool
    ensures { result ≡ spec.allows pattern.now allowed }
{
    match pattern {
        Pat::Any | Pat::Int | Pat::Char | Pat::Literal(_) | Pat::Letter(_) => true,
        Pat::Sym { args, .. } => all_allow(args.as_slice(), allowed),
        Pat::Bind { inner, .. } => allowed && allows(inner.get(), allowed),
        Pat::Union { left, right } => allows(left.get(), false) && allows(right.get(), false),
        Pat::Less { left, right } => allows(left.get(), allowed) && allows(right.get(), false),
    }
}

#[cycle(places)]
fn all_allow(patterns: &[Pat], allowed: bool) -> bool
    ensures { result ≡ spec.all_allow (map spec.allows patterns.now) allowed }
{
    for pattern in patterns {
        if !allows(pattern, allowed) {
            return false;
        }
    }
    true
}

/// Whether each variable below the count has a binder.
fn binds_each(count: u8, pattern: &Pat) -> bool
    ensures { IsTrue result ↔ ((v : ℕ) → v < count → IsTrue (spec.binds v pattern.now)) }
{
    for variable in 0..count {
        if !binds(variable, pattern) {
            return false;
        }
    }
    true
}

/// Whether the variables of the pattern are the numbers below the count.
pub fn has_variables(count: u8, pattern: &Pat) -> bool
    ensures { IsTrue result ↔ HasVariables pattern.now count }
{
    variables_below(count, pattern) && binds_each(count, pattern)
}

/// Whether the variable stands for the node at which the pattern holds.
pub fn binds_root(variable: u8, pattern: &Pat) -> bool
    ensures { result ≡ spec.binds_root variable pattern.now }
{
    match pattern {
        Pat::Any | Pat::Int | Pat::Char | Pat::Literal(_) | Pat::Letter(_) => false,
        Pat::Sym { .. } | Pat::Union { .. } => false,
        Pat::Bind { var, inner } => *var == variable || binds_root(variable, inner.get()),
        Pat::Less { left, .. } => binds_root(variable, left.get()),
    }
}

/// Whether the pattern has integers of 64 bits alone, and no character.
#[cycle(narrow)]
pub fn is_narrow(pattern: &Pat) -> bool
    ensures { result ≡ programs.is_narrow pattern.now }
{
    match pattern {
        Pat::Any | Pat::Int => true,
        Pat::Char | Pat::Letter(_) => false,
        Pat::Literal(literal) => is_word(*literal),
        Pat::Sym { args, .. } => are_narrow(args.as_slice()),
        Pat::Bind { inner, .. } => is_narrow(inner.get()),
        Pat::Union { left, right } => is_narrow(left.get()) && is_narrow(right.get()),
        Pat::Less { left, right } => is_narrow(left.get()) && is_narrow(right.get()),
    }
}

#[cycle(narrow)]
fn are_narrow(patterns: &[Pat]) -> bool
    ensures { result ≡ list_all (λ b. b) (map programs.is_narrow patterns.now) }
{
    for pattern in patterns {
        if !is_narrow(pattern) {
            return false;
        }
    }
    true
}
