//! The module of a translation.

ghost use Rattle.std.specs.Prelude.{◌≡◌, [], ◌∷◌, ◌++◌, None, IfOk, OnOk, map};
ghost use Rattle.dactl_model.specs.declared.program.Class.TheVariants as classes;
ghost use Rattle.dactl_meaning.specs.declared.tree.Item.TheVariants as item;
ghost use Rattle.dactl_meaning.specs.Unplaced.{nowhere};
ghost use Rattle.fun_meaning.specs.Functions.{arithmetic_name};
ghost use Rattle.fun_meaning.specs.Names.{check_name};
ghost use Rattle.fun_compile.specs.Knowing.{IsReady, told};
ghost use Rattle.fun_compile.specs.Translated as spec;

use crate::functions::first_equations;
use crate::names::{NOWHERE, word};
use crate::terms::Translator;
use dactl_meaning::tree::{Item, Module, Name, Text};
use dactl_model::Memory;
use dactl_model::program::Class;
use fun_meaning::tree::{Equation, Expr, Fun};
use sqlite_items::Items;
use std::alloc::Global;

/// `IMPORTS Arithmetic;`.
fn imports(alloc: Global) -> Result<Item, Memory>
    ensures { IfOk result (λ one. one ≡ item.Imports (spec.word arithmetic_name ∷ [])) }
{
    let mut names = Items::new(alloc);
    names.push(word(alloc, b"Arithmetic")?)?;
    Ok(Item::Imports { names })
}

/// The symbols that are rewritten: these functions, and `Chk`.
fn functions(alloc: Global, firsts: &[&Equation]) -> Result<Item, Memory>
    ensures { IfOk result (λ one. one ≡ item.Symbols classes.Rewritable None
        (map spec.word (map (λ eq. eq.head.text) (told firsts.now) ++ check_name ∷ []))) }
{
    let mut names = Items::new(alloc);
    for equation in firsts {
        names.push(word(alloc, equation.head.text.as_slice())?)?;
    }
    names.push(word(alloc, b"Chk")?)?;
    Ok(Item::Symbols {
        class: Class::Rewritable,
        public: None,
        names,
    })
}

fn words(alloc: Global, names: &[Name]) -> Result<Items<Name>, Memory>
    ensures { IfOk result (λ all. all ≡ map (λ c. spec.word c.text) names.now) }
{
    let mut all = Items::new(alloc);
    for name in names {
        all.push(word(alloc, name.text.as_slice())?)?;
    }
    Ok(all)
}

/// Puts the symbols of these constructors behind the items, where there are any: a `SYMBOL` has a
/// name at least.
fn push_constructors(
    alloc: Global,
    items: &mut Items<Item>,
    constructors: &[Name],
) -> Result<(), Memory>
    ensures { OnOk result (items.new ≡ items.old ++ spec.constructor_items constructors.now) }
{
    if constructors.is_empty() {
        return Ok(());
    }
    let names = words(alloc, constructors)?;
    items.push(Item::Symbols {
        class: Class::Creatable,
        public: None,
        names,
    })?;
    Ok(())
}

/// `INITIAL`, with what is asked for.
fn initial(translator: &Translator, main: &Expr) -> Result<Item, Memory>
    requires { IsReady translator.now }
    ensures { IfOk result (λ one.
        one ≡ item.Initial nowhere (spec.top translator.now.fun.now main.now ∷ [])) }
{
    let mut terms = Items::new(translator.alloc);
    terms.push(translator.top(main)?)?;
    Ok(Item::Initial {
        place: NOWHERE,
        terms,
    })
}

fn items(translator: &Translator) -> Result<Items<Item>, Memory>
    requires { IsReady translator.now }
    ensures { IfOk result (λ items. items ≡ spec.items_of translator.now.fun.now) }
{
    let alloc = translator.alloc;
    let fun = translator.fun;
    let firsts = first_equations(alloc, fun.equations.as_slice())?;
    let mut items = Items::new(alloc);
    items.push(imports(alloc)?)?;
    items.push(functions(alloc, firsts.as_slice())?)?;
    push_constructors(alloc, &mut items, fun.constructors.as_slice())?;
    let groups = translator.groups(firsts.as_slice())?;
    items.push(Item::Rules { groups })?;
    items.push(initial(translator, &fun.main)?)?;
    Ok(items)
}

/// The tree of the module `Fun` that the equations are translated to, in language 1. No place
/// counts in it: each is 0, and so is the length. Calls nest as deep as expressions do.
///
/// # Errors
///
/// `Memory` where memory is wanting, and where a name has more than 2^32 - 1 arguments to wait for.
pub fn translate(alloc: Global, fun: &Fun) -> Result<Text, Memory>
    ensures { IfOk result (λ text. text ≡ spec.translated fun.now) }
{
    let translator = Translator::new(alloc, fun)?;
    let mut modules = Items::new(alloc);
    modules.push(Module {
        name: word(alloc, b"Fun")?,
        items: items(&translator)?,
    })?;
    Ok(Text {
        language: 1,
        modules,
        length: 0,
    })
}
