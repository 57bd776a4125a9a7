//! What each declared name means.

ghost use Rattle.std.specs.Prelude.{◌≡◌, [], IfOk, OnOk, map, option_map};
ghost use Rattle.dactl_symbols.specs.Declaring.{declaration_of, entity_of};
ghost use Rattle.dactl_symbols.specs.Meanings.{meaning_of, meaning_in, again_after, count_with};
ghost use Rattle.dactl_symbols.specs.Meanings.{found_in, repeats, first_with, Adds};

use crate::least::lesser;
use crate::survey::{Declared, Entity, Home};
use dactl_base::refusal::{Kind, Refusal};
use dactl_model::Memory;
use dactl_names::NameMap;
use std::alloc::Global;
use std::marker::Model;

/// What a name means: what its first declaration says, and how many symbols are declared before it,
/// at most 2^32 - 1.
#[derive(Clone, Copy, Debug)]
pub struct Meaning {
    pub home: Home,
    pub entity: Entity,
    pub number: u32,
}

/// The declarations of a text in their order, those before the text included.
#[derive(Drop)]
pub struct Names {
    declared: Vec<Declared>,
    first: NameMap<Meaning>,
    again: Option<Refusal>,
}

impl Model for Names {
    ghost use Rattle.std.specs.Prelude.{List, map};
    ghost use Rattle.dactl_meaning.specs.Declarations.{Declaration};
    ghost use Rattle.dactl_symbols.specs.Declaring.{declaration_of};
    ghost use Rattle.dactl_symbols.specs.Meanings.{AreNames, found_in};

    ghost Value = { List Declaration };

    ghost view = { λ n. map declaration_of n.declared.items };

    ghost invariant = { λ n.
        AreNames (map declaration_of n.declared.items) (found_in n.first) n.again };
}

/// The number of symbols after one declaration more.
fn counted(symbols: u32, entity: Entity) -> u32
    ensures { result ≡ count_with symbols (entity_of entity) }
{
    match entity {
        Entity::Symbol { .. } => symbols.saturating_add(1),
        Entity::Module | Entity::Pattern { .. } => symbols,
    }
}

/// Adds what a name means by this declaration. Where it means something already, that stays, and
/// the answer is the fault.
fn note(
    first: &mut NameMap<Meaning>,
    alloc: Global,
    declared: &Declared,
    symbols: u32,
) -> Result<Option<Refusal>, Memory>
    ensures fault { IfOk result
        (λ fault. fault ≡ repeats (found_in first.old declared.now.name.text) declared.now.name) }
    ensures added { OnOk result
        (Adds (found_in first.old) (found_in first.new) declared.now.name.text
        (first_with (declaration_of declared.now) symbols)) }
{
    let meaning = Meaning {
        home: declared.home,
        entity: declared.entity,
        number: symbols,
    };
    if first.note(alloc, declared.name.text.as_slice(), meaning)? {
        return Ok(None);
    }
    Ok(Some(Refusal {
        kind: Kind::TwiceDeclared,
        place: declared.name.place,
    }))
}

impl Names {
    /// The names of these declarations, in their order. A name that is declared again keeps what
    /// its first declaration says.
    ///
    /// # Errors
    ///
    /// Want of memory. The declarations are then given back.
    pub fn new(alloc: Global, declared: Vec<Declared>) -> Result<Names, Memory>
        ensures { IfOk result (λ names. names ≡ map declaration_of declared.items) }
    {
        let mut first = NameMap::new(alloc);
        let mut again = None;
        let mut symbols = 0u32;
        for one in &declared {
            let repeated = note(&mut first, alloc, one, symbols)?;
            again = lesser(again, repeated);
            symbols = counted(symbols, one.entity);
        }
        Ok(Names {
            declared,
            first,
            again,
        })
    }

    /// What the name means, if it is declared. Whether a module sees it is not said.
    pub fn meaning(&self, word: &[u8]) -> Option<Meaning>
        ensures { option_map meaning_of result ≡ meaning_in self.now word.now }
    {
        self.first.get(word)
    }

    /// The first declaration of a name that is declared before, as a fault.
    pub fn again(&self) -> Option<Refusal>
        ensures { result ≡ again_after [] self.now }
    {
        self.again
    }

    /// The declarations in their order, those before the text first.
    pub fn declared(&self) -> &[Declared]
        ensures { map declaration_of result.now ≡ self.now }
    {
        self.declared.as_slice()
    }
}
