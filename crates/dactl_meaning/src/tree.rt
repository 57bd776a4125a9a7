//! The tree of a text.

use dactl_base::refusal::Place;
use dactl_model::program::Class;
use sqlite_items::{Boxed, Items};

/// A name as it is spelled, and where it stands.
#[derive(Debug, Drop)]
pub struct Name {
    pub text: Items<u8>,
    pub place: Place,
}

/// A whole text: its language, 1 or 2, its modules, and its length in bytes.
#[derive(Debug, Drop)]
pub struct Text {
    pub language: u8,
    pub modules: Items<Module>,
    pub length: u32,
}

/// A module: the name before its items is the one behind them.
#[derive(Debug, Drop)]
pub struct Module {
    pub name: Name,
    pub items: Items<Item>,
}

/// What a module declares or says. `public` of symbols is the class for importers and its place;
/// `place` of an `INITIAL` is that of the keyword.
#[derive(Debug, Drop)]
pub enum Item {
    Imports {
        names: Items<Name>,
    },
    Symbols {
        class: Class,
        public: Option<(Class, Place)>,
        names: Items<Name>,
    },
    Named {
        public: bool,
        name: Name,
        pattern: PatternTree,
    },
    Rules {
        groups: Items<Group>,
    },
    Initial {
        place: Place,
        terms: Items<TermTree>,
    },
}

/// Rules among which the choice is free.
#[derive(Debug, Drop)]
pub struct Group {
    pub rules: Items<RuleTree>,
}

/// A rule: its first token's place, its pattern, whether it redirects the root (`=>`), and its parts.
#[derive(Debug, Drop)]
pub struct RuleTree {
    pub place: Place,
    pub pattern: PatternTree,
    pub redirects: bool,
    pub parts: Items<Part>,
}

/// What joins two patterns: a union or a difference.
#[derive(Clone, Copy, Debug, PartialEq, Eq)]
pub enum Sign {
    Plus,
    Minus,
}

/// A pattern as it is written. Round brackets leave no node; a chain has at least one sign.
#[derive(Debug, Drop)]
pub enum PatternTree {
    Any,
    Int,
    Char,
    Integer {
        value: i128,
    },
    Letter {
        value: u8,
    },
    Sym {
        name: Name,
        args: Items<PatternTree>,
    },
    Variable {
        name: Name,
    },
    Binder {
        name: Name,
        inner: Boxed<PatternTree>,
    },
    Chain {
        first: Boxed<PatternTree>,
        rest: Items<(Sign, PatternTree)>,
    },
}

/// A part of a rule's right side: a term, or a redirection of the variable `left`.
#[derive(Debug, Drop)]
pub enum Part {
    Term { term: TermTree },
    Redirect { left: Name, term: TermTree },
}

/// The marks before a term, with the place of the first.
#[derive(Clone, Copy, Debug, PartialEq, Eq)]
pub enum Marks {
    Plain,
    Star { place: Place },
    Hashes { place: Place, count: u32 },
}

/// A term: a name, a node or both.
#[cycle(terms)]
#[derive(Debug, Drop)]
pub struct TermTree {
    pub marks: Marks,
    pub name: Option<Name>,
    pub node: Option<NodeTree>,
}

/// What makes a new node.
#[cycle(terms)]
#[derive(Debug, Drop)]
pub enum NodeTree {
    Integer { value: i128, place: Place },
    Letter { value: u8, place: Place },
    Sym { name: Name, args: Items<ArgTree> },
}

/// An argument of a term, and whether `^` stands before it.
#[cycle(terms)]
#[derive(Debug, Drop)]
pub struct ArgTree {
    pub waits: bool,
    pub term: TermTree,
}
