//! The tree of a text of equations.

use dactl_meaning::tree::Name;
use sqlite_items::Items;

/// An expression: a variable, an integer, or a name over its arguments. A pattern is an expression
/// too, and so is a value, which has integers and constructors alone.
#[derive(Debug, Drop)]
pub enum Expr {
    Variable { name: Name },
    Integer { value: i64 },
    Made { name: Name, args: Items<Expr> },
}

/// An equation: the name of the function that it is of, the patterns of its arguments, and its
/// right side.
#[derive(Debug, Drop)]
pub struct Equation {
    pub head: Name,
    pub patterns: Items<Expr>,
    pub right: Expr,
}

/// A whole text: the names that its `DATA` items declare and its equations, each in text order, and
/// the expression of `MAIN`.
#[derive(Debug, Drop)]
pub struct Fun {
    pub constructors: Items<Name>,
    pub equations: Items<Equation>,
    pub main: Expr,
}
