//! A node as the table keeps it.

ghost use Rattle.std.specs.Prelude.{◌≡◌, ◌<◌};
ghost use Rattle.dactl_store.specs.Table.{marked, longer};
ghost use Rattle.dactl_store.specs.Slots.{label_from, IsSmall};

use crate::table::{NodeRecord, Span};
use dactl_model::graph::{Label, Mark};
use std::marker::Model;

/// What kind of label a node has.
#[derive(Clone, Copy)]
pub enum Kind {
    Symbol,
    Integer,
    Character,
}

/// A node in 32 bytes, so that two of them share a line of the cache: the kind of its label stands apart
/// from what the label holds, and the parts of its span apart from one another.
#[derive(Drop)]
pub struct Slot {
    // of an integer
    integer: i128,
    // of a symbol or a character
    code: u32,
    version: u32,
    first: u32,
    mark: Mark,
    count: u8,
    kind: Kind,
}

impl Model for Slot {
    ghost use Rattle.dactl_store.specs.declared.table.NodeRecord.{NodeRecord};

    ghost Value = { NodeRecord };

    ghost use Rattle.dactl_store.specs.Slots.{label_from, IsSmall};

    ghost view = { λ s. record {
      label = label_from s.kind s.code s.integer;
      mark = s.mark;
      version = s.version;
      span = record { first = s.first; count = s.count };
    } };

    ghost invariant = { λ s. IsSmall s.kind s.code };
}

// The kind of a label, the number of its symbol or its character, and its integer.
fn parts(label: Label) -> (Kind, u32, i128)
    ensures label { label_from result.0 result.1 result.2 ≡ label }
    ensures small { IsSmall result.0 result.1 }
{
    match label {
        Label::Symbol(symbol) => (Kind::Symbol, symbol, 0),
        Label::Integer(integer) => (Kind::Integer, 0, integer),
        Label::Character(character) => (Kind::Character, u32::from(character), 0),
    }
}

// The label of its parts.
fn label(kind: Kind, code: u32, integer: i128) -> Label
    requires { IsSmall kind code }
    ensures { result ≡ label_from kind code integer }
{
    match kind {
        Kind::Symbol => Label::Symbol(code),
        Kind::Integer => Label::Integer(integer),
        Kind::Character => Label::Character(code as u8),
    }
}

impl Slot {
    /// The slot of a node.
    pub fn of(node: NodeRecord) -> Slot
        ensures { result ≡ node }
    {
        let (kind, code, integer) = parts(node.label);
        Slot {
            integer,
            code,
            version: node.version,
            first: node.span.first,
            mark: node.mark,
            count: node.span.count,
            kind,
        }
    }

    /// The node.
    pub fn node(&self) -> NodeRecord
        ensures { result ≡ self.now }
    {
        NodeRecord {
            label: label(self.kind, self.code, self.integer),
            mark: self.mark,
            version: self.version,
            span: Span {
                first: self.first,
                count: self.count,
            },
        }
    }

    /// Gives the node another mark.
    pub fn set_mark(&mut self, mark: Mark)
        ensures { self.new ≡ marked mark self.old }
    {
        self.mark = mark;
    }

    /// The node has one arc more.
    pub fn add_arc(&mut self)
        requires { self.old.span.count < 16 }
        ensures { self.new ≡ longer self.old }
    {
        self.count += 1;
    }
}
