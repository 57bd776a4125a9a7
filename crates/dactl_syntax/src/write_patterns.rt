//! Patterns of a canonical text.

ghost use Rattle.std.specs.Prelude.{◌≡◌, ◌++◌, OnOk, map};
ghost use Rattle.std.specs.List.{concat};
ghost use Rattle.dactl_syntax.specs.Canonical.{pattern_text, tail_text, brackets, piece_of};
ghost use Rattle.dactl_syntax.specs.Canonical.{sign_text};
ghost use Rattle.dactl_syntax.specs.declared.write_patterns.Standing.TheVariants as standing;

use crate::write_words::{character, integer, name, word};
use dactl_meaning::tree::{PatternTree, Sign};
use std::alloc::AllocError;

/// Where a pattern stands: which ones have round brackets about them.
#[derive(Clone, Copy)]
pub enum Standing {
    Whole,
    Inner,
    Bound,
}

fn is_bracketed(tree: &PatternTree, standing: Standing) -> bool
    ensures { result ≡ brackets standing (piece_of tree.now) }
{
    match standing {
        Standing::Whole => false,
        Standing::Inner => matches!(tree, PatternTree::Chain { .. }),
        Standing::Bound => matches!(
            tree,
            PatternTree::Chain { .. } | PatternTree::Variable { .. } | PatternTree::Binder { .. }
        ),
    }
}

fn sign(out: &mut Vec<u8>, sign: Sign) -> Result<(), AllocError>
    ensures { OnOk result (out.new.items ≡ out.old.items ++ sign_text sign) }
{
    match sign {
        Sign::Plus => word(out, b"+".as_slice()),
        Sign::Minus => word(out, b"-".as_slice()),
    }
}

/// Writes a pattern, in round brackets where it needs them.
///
/// # Errors
///
/// Where memory for the text is wanting; `out` then has what was written before it.
#[cycle(write_patterns)]
pub fn pattern(out: &mut Vec<u8>, tree: &PatternTree, standing: Standing) -> Result<(), AllocError>
    ensures { OnOk result (out.new.items ≡ out.old.items ++ pattern_text standing tree.now) }
{
    if is_bracketed(tree, standing) {
        word(out, b"(".as_slice())?;
        bare(out, tree)?;
        return word(out, b")".as_slice());
    }
    bare(out, tree)
}

#[cycle(write_patterns)]
fn bare(out: &mut Vec<u8>, tree: &PatternTree) -> Result<(), AllocError>
    ensures { OnOk result (out.new.items ≡ out.old.items ++ (piece_of tree.now).bytes) }
{
    match tree {
        PatternTree::Any => word(out, b"ANY".as_slice()),
        PatternTree::Int => word(out, b"INT".as_slice()),
        PatternTree::Char => word(out, b"CHAR".as_slice()),
        PatternTree::Integer { value } => integer(out, *value),
        PatternTree::Letter { value } => character(out, *value),
        PatternTree::Sym { name: symbol, args } => {
            name(out, symbol)?;
            if args.is_empty() {
                return Ok(());
            }
            word(out, b"[".as_slice())?;
            pieces(out, args.as_slice())?;
            word(out, b"]".as_slice())
        }
        PatternTree::Variable { name: variable } => name(out, variable),
        PatternTree::Binder {
            name: variable,
            inner,
        } => {
            name(out, variable)?;
            word(out, b":".as_slice())?;
            pattern(out, inner.get(), Standing::Bound)
        }
        PatternTree::Chain { first, rest } => {
            pattern(out, first.get(), Standing::Inner)?;
            links(out, rest.as_slice())
        }
    }
}

#[cycle(write_patterns)]
fn pieces(out: &mut Vec<u8>, args: &[PatternTree]) -> Result<(), AllocError>
    ensures { OnOk result (out.new.items ≡ out.old.items ++
        concat (map (pattern_text standing.Inner) args.now)) }
{
    for piece in args {
        pattern(out, piece, Standing::Inner)?;
    }
    Ok(())
}

#[cycle(write_patterns)]
fn links(out: &mut Vec<u8>, rest: &[(Sign, PatternTree)]) -> Result<(), AllocError>
    ensures { OnOk result (out.new.items ≡ out.old.items ++ concat (map tail_text rest.now)) }
{
    for link in rest {
        sign(out, link.0)?;
        pattern(out, &link.1, Standing::Inner)?;
    }
    Ok(())
}
