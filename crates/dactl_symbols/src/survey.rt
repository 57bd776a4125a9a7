//! What a text declares and says, as flat lists in text order.

ghost use Rattle.std.specs.Prelude.{◌≡◌, ◌++◌, ◌∷◌, [], IfOk, OnOk, map, option_map};
ghost use Rattle.std.specs.List.{flat_map, enumerate_from};
ghost use Rattle.dactl_meaning.specs.Declarations.{Written, AsSymbol, built_in as a_built_in};
ghost use Rattle.dactl_meaning.specs.Declarations.{built_in_names};
ghost use Rattle.dactl_meaning.specs.ScopeFaults.{is_too_strong};
ghost use Rattle.dactl_symbols.specs.Declaring.{entity_of, declaration_of, import_of};
ghost use Rattle.dactl_symbols.specs.Finds.{finds_of, joined, joined_all, byte_of, strong_bytes};
ghost use Rattle.dactl_symbols.specs.Finds.{rule_bytes, item_finds, module_finds, text_finds};

use dactl_base::refusal::Place;
use dactl_meaning::tree::{Group, Item, Module, Name, RuleTree, Text};
use dactl_model::Memory;
use dactl_model::program::Class;
use sqlite_items::Items;
use std::alloc::Global;

/// The module of a declaration: the built-in one, or the one of that number.
#[derive(Clone, Copy, Debug, PartialEq, Eq, PartialOrd, Ord)]
pub enum Home {
    Arithmetic,
    Written(usize),
}

/// What a name is declared as. A pattern has the numbers of its module and its item.
#[derive(Clone, Copy, Debug)]
pub enum Entity {
    Module,
    Symbol {
        class: Class,
        public: Option<Class>,
    },
    Pattern {
        public: bool,
        owner: usize,
        item: usize,
    },
}

/// A declaration of a name.
#[derive(Debug, Drop)]
pub struct Declared {
    pub name: Name,
    pub home: Home,
    pub entity: Entity,
}

/// An import, and the number of the module that imports.
#[derive(Debug, Drop)]
pub struct Import {
    pub owner: usize,
    pub name: Name,
}

/// The declarations, those before the text first, and the imports of a text, and the places of its
/// public classes that are too strong, of its `INITIAL`s and of its rules.
#[derive(Drop)]
pub struct Survey {
    pub declared: Vec<Declared>,
    pub imports: Vec<Import>,
    pub too_strong: Vec<Place>,
    pub initials: Vec<Place>,
    pub rules: Vec<Place>,
}

fn copy(alloc: Global, name: &Name) -> Result<Name, Memory>
    ensures { IfOk result (λ copy. copy ≡ name.now) }
{
    Ok(Name {
        text: Items::from_slice(alloc, name.text.as_slice())?,
        place: name.place,
    })
}

fn exceeds(class: Class, public: Class) -> bool
    ensures { result ≡ is_too_strong class public }
{
    match public {
        Class::Rewritable => true,
        Class::Overwritable => match class {
            Class::Overwritable => false,
            Class::Rewritable | Class::Creatable => true,
        },
        Class::Creatable => false,
    }
}

fn built_in(
    declared: &mut Vec<Declared>,
    alloc: Global,
    word: &[u8],
    entity: Entity,
) -> Result<(), Memory>
    ensures { OnOk result
        (map declaration_of declared.new.items ≡ map declaration_of declared.old.items
        ++ a_built_in word.now (entity_of entity) ∷ []) }
{
    let name = Name {
        text: Items::from_slice(alloc, word)?,
        place: Place { byte: 0 },
    };
    declared.push(Declared {
        name,
        home: Home::Arithmetic,
        entity,
    })?;
    Ok(())
}

/// What is declared before a text.
fn built_ins(alloc: Global) -> Result<Vec<Declared>, Memory>
    ensures { IfOk result (λ declared. map declaration_of declared.items ≡ built_in_names) }
{
    let operation = Entity::Symbol {
        class: Class::Rewritable,
        public: Some(Class::Creatable),
    };
    let truth = Entity::Symbol {
        class: Class::Creatable,
        public: Some(Class::Creatable),
    };
    let mut declared = Vec::new(alloc);
    built_in(
        &mut declared,
        alloc,
        b"Arithmetic".as_slice(),
        Entity::Module,
    )?;
    built_in(&mut declared, alloc, b"IAdd".as_slice(), operation)?;
    built_in(&mut declared, alloc, b"ISub".as_slice(), operation)?;
    built_in(&mut declared, alloc, b"IMul".as_slice(), operation)?;
    built_in(&mut declared, alloc, b"IEq".as_slice(), operation)?;
    built_in(&mut declared, alloc, b"ILt".as_slice(), operation)?;
    built_in(&mut declared, alloc, b"True".as_slice(), truth)?;
    built_in(&mut declared, alloc, b"False".as_slice(), truth)?;
    Ok(declared)
}

fn list_imports(
    imports: &mut Vec<Import>,
    alloc: Global,
    owner: usize,
    names: &[Name],
) -> Result<(), Memory>
    ensures { OnOk result
        (map import_of imports.new.items ≡ map import_of imports.old.items
        ++ map (λ n. record { owner = owner; name = n }) names.now) }
{
    for name in names {
        let name = copy(alloc, name)?;
        imports.push(Import { owner, name })?;
    }
    Ok(())
}

fn list_symbols(
    declared: &mut Vec<Declared>,
    alloc: Global,
    owner: usize,
    class: Class,
    public: Option<Class>,
    names: &[Name],
) -> Result<(), Memory>
    ensures { OnOk result
        (map declaration_of declared.new.items ≡ map declaration_of declared.old.items
        ++ map (λ n. record { name = n; home = Written owner; entity = AsSymbol class public })
        names.now) }
{
    for name in names {
        let name = copy(alloc, name)?;
        declared.push(Declared {
            name,
            home: Home::Written(owner),
            entity: Entity::Symbol { class, public },
        })?;
    }
    Ok(())
}

fn list_too_strong(
    places: &mut Vec<Place>,
    class: Class,
    public: Option<(Class, Place)>,
) -> Result<(), Memory>
    ensures { OnOk result
        (map byte_of places.new.items ≡ map byte_of places.old.items ++ strong_bytes class public) }
{
    if let Some((importers, place)) = public {
        if exceeds(class, importers) {
            places.push(place)?;
        }
    }
    Ok(())
}

fn list_rules(places: &mut Vec<Place>, rules: &[RuleTree]) -> Result<(), Memory>
    ensures { OnOk result
        (map byte_of places.new.items ≡ map byte_of places.old.items
        ++ map (λ r. r.place.byte) rules.now) }
{
    for rule in rules {
        places.push(rule.place)?;
    }
    Ok(())
}

fn list_groups(places: &mut Vec<Place>, groups: &[Group]) -> Result<(), Memory>
    ensures { OnOk result
        (map byte_of places.new.items ≡ map byte_of places.old.items ++ rule_bytes groups.now) }
{
    for group in groups {
        list_rules(places, group.rules.as_slice())?;
    }
    Ok(())
}

fn public_class(public: Option<(Class, Place)>) -> Option<Class>
    ensures { result ≡ option_map (λ c. c.0) public }
{
    match public {
        Some((class, _)) => Some(class),
        None => None,
    }
}

impl Survey {
    fn add_item(
        &mut self,
        alloc: Global,
        owner: usize,
        number: usize,
        item: &Item,
    ) -> Result<(), Memory>
        ensures { OnOk result
            (finds_of self.new ≡ joined (finds_of self.old) (item_finds owner (number, item.now))) }
    {
        match item {
            Item::Imports { names } => {
                list_imports(&mut self.imports, alloc, owner, names.as_slice())?;
            }
            Item::Symbols {
                class,
                public,
                names,
            } => {
                let importers = public_class(*public);
                list_symbols(
                    &mut self.declared,
                    alloc,
                    owner,
                    *class,
                    importers,
                    names.as_slice(),
                )?;
                list_too_strong(&mut self.too_strong, *class, *public)?;
            }
            Item::Named { public, name, .. } => {
                let name = copy(alloc, name)?;
                self.declared.push(Declared {
                    name,
                    home: Home::Written(owner),
                    entity: Entity::Pattern {
                        public: *public,
                        owner,
                        item: number,
                    },
                })?;
            }
            Item::Rules { groups } => {
                list_groups(&mut self.rules, groups.as_slice())?;
            }
            Item::Initial { place, .. } => {
                self.initials.push(*place)?;
            }
        }
        Ok(())
    }

    fn add_items(&mut self, alloc: Global, owner: usize, items: &[Item]) -> Result<(), Memory>
        ensures { OnOk result
            (finds_of self.new
            ≡ joined (finds_of self.old)
            (joined_all (item_finds owner) (enumerate_from 0 items.now))) }
    {
        for (number, item) in items.iter().enumerate() {
            self.add_item(alloc, owner, number, item)?;
        }
        Ok(())
    }

    fn add_module(&mut self, alloc: Global, owner: usize, tree: &Module) -> Result<(), Memory>
        ensures { OnOk result
            (finds_of self.new ≡ joined (finds_of self.old) (module_finds (owner, tree.now))) }
    {
        let name = copy(alloc, &tree.name)?;
        self.declared.push(Declared {
            name,
            home: Home::Written(owner),
            entity: Entity::Module,
        })?;
        self.add_items(alloc, owner, tree.items.as_slice())?;
        Ok(())
    }
}

/// Looks through a text, once, and copies the names that it declares and imports.
///
/// # Errors
///
/// Want of memory.
pub fn look_through(alloc: Global, text: &Text) -> Result<Survey, Memory>
    ensures { IfOk result (λ survey. finds_of survey ≡ text_finds text.now) }
{
    let mut survey = Survey {
        declared: built_ins(alloc)?,
        imports: Vec::new(alloc),
        too_strong: Vec::new(alloc),
        initials: Vec::new(alloc),
        rules: Vec::new(alloc),
    };
    for (owner, tree) in text.modules.as_slice().iter().enumerate() {
        survey.add_module(alloc, owner, tree)?;
    }
    Ok(survey)
}
