//! What the modules of a text see.

ghost use Rattle.std.specs.Prelude.{◌≡◌, ◌++◌, IfOk, OnOk, map, option_map};
ghost use Rattle.std.specs.Option.{option_to_list};
ghost use Rattle.std.specs.List.{filter_map};
ghost use Rattle.dactl_meaning.specs.Declarations.{same_home, entity_symbol};
ghost use Rattle.dactl_meaning.specs.Sight.{is_earlier as is_before, class_seen as has_class};
ghost use Rattle.dactl_meaning.specs.Sight.{entity_seen};
ghost use Rattle.dactl_symbols.specs.Declaring.{home_of, entity_of, declaration_of, import_of};
ghost use Rattle.dactl_symbols.specs.Sights.{link_of, owned_of, owned_in, imported_in, has_link};
ghost use Rattle.dactl_symbols.specs.Sights.{AddsLink, AreLinks};
ghost use Rattle.dactl_symbols.specs.Meanings.{meaning_of};
ghost use Rattle.dactl_symbols.specs.Scoping.{told, first_seen, seen_in, class_in, symbols_in};

use crate::names::{Meaning, Names};
use crate::survey::{Declared, Entity, Home, Import};
use dactl_model::Memory;
use dactl_model::program::{Class, Symbol};
use sqlite_items::{Items, at};
use std::alloc::Global;
use std::collections::BTreeSet;
use std::marker::Model;

/// What a module sees under a name: a symbol, by its number in a program and with the class that it
/// has for that module; or a named pattern, by the number of its module in the text and that of its
/// item in that module.
#[derive(Clone, Copy, Debug, PartialEq, Eq)]
pub enum Seen {
    Symbol { id: u32, class: Class },
    Pattern { module: usize, item: usize },
}

/// The number of a module that imports, and the module that it imports.
#[derive(Clone, Copy, Debug, PartialEq, Eq, PartialOrd, Ord)]
struct Link {
    owner: usize,
    home: Home,
}

/// The module of a symbol and its two classes.
#[derive(Clone, Copy, Debug)]
struct Owned {
    home: Home,
    class: Class,
    public: Option<Class>,
}

/// What each module of a text sees. Modules have the numbers of their places in the text.
#[derive(Drop)]
pub struct Scopes {
    names: Names,
    links: BTreeSet<Link>,
    symbols: Vec<Owned>,
}

impl Model for Scopes {
    ghost use Rattle.std.specs.Prelude.{◌≡◌, map};
    ghost use Rattle.std.specs.List.{filter_map};
    ghost use Rattle.dactl_symbols.specs.Sights.{Sights, link_of, owned_of, owned_in};

    ghost Value = { Sights };

    ghost view = { λ s. record { names = s.names; links = map link_of s.links.keys } };

    ghost invariant = { λ s. map owned_of s.symbols.items ≡ filter_map owned_in s.names };
}

/// The class that a symbol has for a module: `own` says that it is the module's, and `imported`
/// that the module imports the symbol's.
fn class_seen(own: bool, imported: bool, class: Class, public: Option<Class>) -> Option<Class>
    ensures { result ≡ has_class own imported class public }
{
    if own {
        Some(class)
    } else if imported {
        public
    } else {
        None
    }
}

fn same(a: Home, b: Home) -> bool
    ensures { result ≡ same_home (home_of a) (home_of b) }
{
    match (a, b) {
        (Home::Arithmetic, Home::Arithmetic) => true,
        (Home::Written(m), Home::Written(n)) => m == n,
        _ => false,
    }
}

fn is_earlier(home: Home, owner: usize) -> bool
    ensures { result ≡ is_before (home_of home) owner }
{
    match home {
        Home::Arithmetic => true,
        Home::Written(number) => number < owner,
    }
}

/// What a module sees of a declared name.
fn meaning_seen(own: bool, imported: bool, meaning: Meaning) -> Option<Seen>
    ensures { option_map told result
        ≡ entity_seen own imported meaning.number (entity_of meaning.entity) }
{
    match meaning.entity {
        Entity::Module => None,
        Entity::Symbol { class, public } => {
            let class = class_seen(own, imported, class, public)?;
            Some(Seen::Symbol {
                id: meaning.number,
                class,
            })
        }
        Entity::Pattern {
            public,
            owner,
            item,
        } => {
            if own || (imported && public) {
                return Some(Seen::Pattern {
                    module: owner,
                    item,
                });
            }
            None
        }
    }
}

/// The module that an import gives to see, if it is one that counts.
pub(crate) fn imported(names: &Names, import: &Import) -> Option<Home>
    ensures { option_map home_of result ≡ imported_in names.now (import_of import.now) }
{
    let meaning = names.meaning(import.name.text.as_slice())?;
    match meaning.entity {
        Entity::Module if is_earlier(meaning.home, import.owner) => Some(meaning.home),
        _ => None,
    }
}

fn add_link(links: &mut BTreeSet<Link>, owner: usize, home: Option<Home>) -> Result<(), Memory>
    ensures { OnOk result
        (AddsLink (map link_of links.old.keys) (map link_of links.new.keys) owner
        (option_map home_of home)) }
{
    if let Some(home) = home {
        links.insert(Link { owner, home })?;
    }
    Ok(())
}

/// The imports that count.
fn links(alloc: Global, names: &Names, imports: &[Import]) -> Result<BTreeSet<Link>, Memory>
    ensures { IfOk result
        (λ links. AreLinks names.now (map import_of imports.now) (map link_of links.keys)) }
{
    let mut links = BTreeSet::new(alloc);
    for import in imports {
        add_link(&mut links, import.owner, imported(names, import))?;
    }
    Ok(links)
}

fn owned_by(declared: &Declared) -> Option<Owned>
    ensures { option_map owned_of result ≡ owned_in (declaration_of declared.now) }
{
    match declared.entity {
        Entity::Symbol { class, public } => Some(Owned {
            home: declared.home,
            class,
            public,
        }),
        Entity::Module | Entity::Pattern { .. } => None,
    }
}

fn symbol_of(alloc: Global, declared: &Declared) -> Result<Option<Symbol>, Memory>
    ensures { IfOk result
        (λ o. o ≡ entity_symbol declared.now.name.text (entity_of declared.now.entity)) }
{
    match declared.entity {
        Entity::Symbol { class, .. } => {
            let name = Items::from_slice(alloc, declared.name.text.as_slice())?;
            Ok(Some(Symbol { name, class }))
        }
        Entity::Module | Entity::Pattern { .. } => Ok(None),
    }
}

fn push_some<T: Drop>(items: &mut Vec<T>, item: Option<T>) -> Result<(), Memory>
    ensures { OnOk result (items.new.items ≡ items.old.items ++ option_to_list item) }
{
    if let Some(one) = item {
        items.push(one)?;
    }
    Ok(())
}

/// The symbols by their numbers.
fn list_owned(alloc: Global, names: &Names) -> Result<Vec<Owned>, Memory>
    ensures { IfOk result (λ owned. map owned_of owned.items ≡ filter_map owned_in names.now) }
{
    let mut owned = Vec::new(alloc);
    for declared in names.declared() {
        push_some(&mut owned, owned_by(declared))?;
    }
    Ok(owned)
}

impl Scopes {
    /// The scopes of these declarations and imports.
    ///
    /// # Errors
    ///
    /// Want of memory. The names are then given back.
    pub(crate) fn new(alloc: Global, names: Names, imports: &[Import]) -> Result<Scopes, Memory>
        ensures names { IfOk result (λ s. s.names ≡ names) }
        ensures links { IfOk result (λ s. AreLinks names (map import_of imports.now) s.links) }
    {
        let links = links(alloc, &names, imports)?;
        let symbols = list_owned(alloc, &names)?;
        Ok(Scopes {
            names,
            links,
            symbols,
        })
    }

    fn gives(&self, owner: usize, home: Home) -> bool
        ensures { result ≡ has_link self.now.links owner (home_of home) }
    {
        self.links.contains(&Link { owner, home })
    }

    /// What the declarations say.
    pub(crate) fn names(&self) -> &Names
        ensures { result.now ≡ self.now.names }
    {
        &self.names
    }

    /// What the module sees of a name that means this. Imports are looked through for the names of
    /// other modules alone.
    pub(crate) fn seen(&self, module: usize, meaning: Meaning) -> Option<Seen>
        ensures { option_map told result ≡ first_seen self.now «module» (meaning_of meaning) }
    {
        if same(meaning.home, Home::Written(module)) {
            return meaning_seen(true, false, meaning);
        }
        let imported = self.gives(module, meaning.home);
        meaning_seen(false, imported, meaning)
    }

    /// What the module sees under the name. It is `None` where the module sees no symbol and no
    /// pattern of that name.
    pub fn look(&self, module: usize, name: &[u8]) -> Option<Seen>
        ensures { option_map told result ≡ seen_in self.now «module» name.now }
    {
        let meaning = self.names.meaning(name)?;
        self.seen(module, meaning)
    }

    /// The class of a symbol for the module. It is `None` where the module doesn't see the symbol,
    /// and where no symbol has that number.
    pub fn class_for(&self, module: usize, symbol: u32) -> Option<Class>
        ensures { result ≡ class_in self.now «module» symbol }
    {
        let owned = at(self.symbols.as_slice(), symbol as usize)?;
        if same(owned.home, Home::Written(module)) {
            return Some(owned.class);
        }
        let imported = self.gives(module, owned.home);
        class_seen(false, imported, owned.class, owned.public)
    }

    /// The symbols of the program that the text says, in the order of their numbers: copies, which
    /// the program keeps.
    ///
    /// # Errors
    ///
    /// Want of memory. The scopes stay as they are.
    pub fn symbols(&self, alloc: Global) -> Result<Items<Symbol>, Memory>
        ensures { IfOk result (λ symbols. symbols ≡ symbols_in self.now) }
    {
        let mut symbols = Vec::with_capacity(alloc, self.symbols.len())?;
        for declared in self.names.declared() {
            push_some(&mut symbols, symbol_of(alloc, declared)?)?;
        }
        Ok(Items::from_vec(symbols))
    }
}
