//! Terms of a canonical text.

ghost use Rattle.std.specs.Prelude.{◌≡◌, ◌++◌, ◌∷◌, [], OnOk, map};
ghost use Rattle.std.specs.List.{concat};
ghost use Rattle.dactl_syntax.specs.Canonical.{word as a_word, repeated, marks_text, node_text};
ghost use Rattle.dactl_syntax.specs.Canonical.{arg_text, term_text};

use crate::write_words::{character, integer, name, word};
use dactl_meaning::tree::{ArgTree, Marks, NodeTree, TermTree};
use std::alloc::AllocError;

fn hashes(out: &mut Vec<u8>, count: u32) -> Result<(), AllocError>
    ensures { OnOk result (out.new.items ≡ out.old.items ++ repeated count (a_word (35 ∷ []))) }
{
    'hash: for _index in 0..count {
        word(out, b"#".as_slice())?;
    }
    Ok(())
}

fn marks(out: &mut Vec<u8>, marks: Marks) -> Result<(), AllocError>
    ensures { OnOk result (out.new.items ≡ out.old.items ++ marks_text marks) }
{
    match marks {
        Marks::Plain => Ok(()),
        Marks::Star { .. } => word(out, b"*".as_slice()),
        Marks::Hashes { count, .. } => hashes(out, count),
    }
}

#[cycle(write_terms)]
fn node(out: &mut Vec<u8>, tree: &NodeTree) -> Result<(), AllocError>
    ensures { OnOk result (out.new.items ≡ out.old.items ++ node_text tree.now) }
{
    match tree {
        NodeTree::Integer { value, .. } => integer(out, *value),
        NodeTree::Letter { value, .. } => character(out, *value),
        NodeTree::Sym { name: symbol, args } => {
            name(out, symbol)?;
            if args.is_empty() {
                return Ok(());
            }
            word(out, b"[".as_slice())?;
            arg_list(out, args.as_slice())?;
            word(out, b"]".as_slice())
        }
    }
}

#[cycle(write_terms)]
fn arg_list(out: &mut Vec<u8>, args: &[ArgTree]) -> Result<(), AllocError>
    ensures { OnOk result (out.new.items ≡ out.old.items ++ concat (map arg_text args.now)) }
{
    for item in args {
        arg(out, item)?;
    }
    Ok(())
}

#[cycle(write_terms)]
fn arg(out: &mut Vec<u8>, tree: &ArgTree) -> Result<(), AllocError>
    ensures { OnOk result (out.new.items ≡ out.old.items ++ arg_text tree.now) }
{
    if tree.waits {
        word(out, b"^".as_slice())?;
        return term(out, &tree.term);
    }
    term(out, &tree.term)
}

/// Writes a term.
///
/// # Errors
///
/// Where memory for the text is wanting; `out` then has what was written before it.
#[cycle(write_terms)]
pub fn term(out: &mut Vec<u8>, tree: &TermTree) -> Result<(), AllocError>
    ensures { OnOk result (out.new.items ≡ out.old.items ++ term_text tree.now) }
{
    marks(out, tree.marks)?;
    match (&tree.name, &tree.node) {
        (None, None) => Ok(()),
        (None, Some(made)) => node(out, made),
        (Some(named), None) => name(out, named),
        (Some(named), Some(made)) => {
            name(out, named)?;
            word(out, b":".as_slice())?;
            node(out, made)
        }
    }
}
