//! Items and modules of a canonical text.

ghost use Rattle.std.specs.Prelude.{◌≡◌, ◌==◌, ◌++◌, OnOk, IfOk, map};
ghost use Rattle.std.specs.List.{concat};
ghost use Rattle.dactl_syntax.specs.Canonical.{comma, separated, names_text, class_text};
ghost use Rattle.dactl_syntax.specs.Canonical.{public_class_text, public_text, term_text};
ghost use Rattle.dactl_syntax.specs.Canonical.{group_text, item_text, module_text, header_text};
ghost use Rattle.dactl_syntax.specs.Canonical.{canonical};

use crate::write_patterns::{Standing, pattern};
use crate::write_rules::group;
use crate::write_terms::term;
use crate::write_words::{before, line_end, name, word};
use dactl_base::refusal::Place;
use dactl_meaning::tree::{Group, Item, Module, Name, TermTree, Text};
use dactl_model::program::Class;
use std::alloc::{AllocError, Global};

fn names(out: &mut Vec<u8>, names: &[Name]) -> Result<(), AllocError>
    ensures { OnOk result (out.new.items ≡ out.old.items ++ names_text names.now) }
{
    for index in 0..names.len() {
        before(out, index, b",".as_slice())?;
        name(out, &names[index])?;
    }
    Ok(())
}

fn terms(out: &mut Vec<u8>, terms: &[TermTree]) -> Result<(), AllocError>
    ensures { OnOk result (out.new.items ≡ out.old.items ++
        separated comma (map term_text terms.now)) }
{
    for index in 0..terms.len() {
        before(out, index, b",".as_slice())?;
        term(out, &terms[index])?;
    }
    Ok(())
}

fn groups(out: &mut Vec<u8>, groups: &[Group]) -> Result<(), AllocError>
    ensures { OnOk result (out.new.items ≡ out.old.items ++ concat (map group_text groups.now)) }
{
    for one in groups {
        group(out, one)?;
    }
    Ok(())
}

fn class(out: &mut Vec<u8>, class: Class) -> Result<(), AllocError>
    ensures { OnOk result (out.new.items ≡ out.old.items ++ class_text class) }
{
    match class {
        Class::Rewritable => word(out, b"REWRITABLE".as_slice()),
        Class::Overwritable => word(out, b"OVERWRITABLE".as_slice()),
        Class::Creatable => word(out, b"CREATABLE".as_slice()),
    }
}

fn public_class(out: &mut Vec<u8>, public: Option<(Class, Place)>) -> Result<(), AllocError>
    ensures { OnOk result (out.new.items ≡ out.old.items ++ public_class_text public) }
{
    match public {
        None => Ok(()),
        Some((importers, _)) => {
            word(out, b"PUBLIC".as_slice())?;
            class(out, importers)
        }
    }
}

fn public_mark(out: &mut Vec<u8>, public: bool) -> Result<(), AllocError>
    ensures { OnOk result (out.new.items ≡ out.old.items ++ public_text public) }
{
    if public {
        word(out, b"PUBLIC".as_slice())?;
    }
    Ok(())
}

fn item(out: &mut Vec<u8>, item: &Item) -> Result<(), AllocError>
    ensures { OnOk result (out.new.items ≡ out.old.items ++ item_text item.now) }
{
    match item {
        Item::Imports { names: imported } => {
            word(out, b"IMPORTS".as_slice())?;
            names(out, imported.as_slice())?;
            line_end(out)?;
        }
        Item::Symbols {
            class: own,
            public,
            names: declared,
        } => {
            word(out, b"SYMBOL".as_slice())?;
            class(out, *own)?;
            public_class(out, *public)?;
            names(out, declared.as_slice())?;
            line_end(out)?;
        }
        Item::Named {
            public,
            name: declared,
            pattern: meant,
        } => {
            word(out, b"PATTERN".as_slice())?;
            public_mark(out, *public)?;
            name(out, declared)?;
            word(out, b"=".as_slice())?;
            pattern(out, meant, Standing::Whole)?;
            line_end(out)?;
        }
        Item::Rules { groups: written } => {
            word(out, b"RULE".as_slice())?;
            groups(out, written.as_slice())?;
        }
        Item::Initial { terms: written, .. } => {
            word(out, b"INITIAL".as_slice())?;
            word(out, b"=>".as_slice())?;
            terms(out, written.as_slice())?;
            line_end(out)?;
        }
    }
    Ok(())
}

fn items(out: &mut Vec<u8>, items: &[Item]) -> Result<(), AllocError>
    ensures { OnOk result (out.new.items ≡ out.old.items ++ concat (map item_text items.now)) }
{
    for one in items {
        item(out, one)?;
    }
    Ok(())
}

fn module(out: &mut Vec<u8>, written: &Module) -> Result<(), AllocError>
    ensures { OnOk result (out.new.items ≡ out.old.items ++ module_text written.now) }
{
    word(out, b"MODULE".as_slice())?;
    name(out, &written.name)?;
    line_end(out)?;
    items(out, written.items.as_slice())?;
    word(out, b"ENDMODULE".as_slice())?;
    name(out, &written.name)?;
    line_end(out)
}

fn modules(out: &mut Vec<u8>, modules: &[Module]) -> Result<(), AllocError>
    ensures { OnOk result (out.new.items ≡ out.old.items ++ concat (map module_text modules.now)) }
{
    for one in modules {
        module(out, one)?;
    }
    Ok(())
}

/// Writes the Header of a text of language 2 and one LF.
fn header(out: &mut Vec<u8>, language: u8) -> Result<(), AllocError>
    ensures { OnOk result (out.new.items ≡ out.old.items ++ header_text (language == 2)) }
{
    if language == 2 {
        out.extend_from_slice(b"DACTL 2;")?;
        out.push(b'\n')?;
    }
    Ok(())
}

/// The canonical text of a tree: its tokens in the order of the grammar, each with one space behind
/// it, but `;` and the Header with one LF. A text that reads as the tree is written so whatever
/// its gaps and its needless brackets were.
///
/// # Errors
///
/// Where memory for the text is wanting.
pub fn write_text(alloc: Global, text: &Text) -> Result<Vec<u8>, AllocError>
    ensures { IfOk result (λ written. written.items ≡ canonical text.now) }
{
    let mut out = Vec::new(alloc);
    header(&mut out, text.language)?;
    modules(&mut out, text.modules.as_slice())?;
    Ok(out)
}
