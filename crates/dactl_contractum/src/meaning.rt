//! What a contractum without faults means.
ghost use Rattle.std.specs.Prelude.{◌≡◌, ◌++◌, ◌<◌, ◌≤◌, ◌^◌, ◌&&◌, List, [], ◌∷◌, IfOk, OnOk};
ghost use Rattle.std.specs.Prelude.{length, map};
ghost use Rattle.std.specs.List.{filter_map};
ghost use Rattle.dactl_meaning.specs.Contractum.{denotes, name_denotes, mark_of, left_of_part};
ghost use Rattle.dactl_meaning.specs.Contractum.{term_of_part, moves_of, asked_by};
ghost use Rattle.dactl_contractum.specs.Drawing.{target_of, core_of, arc_of, sketch_of, mention_of};
ghost use Rattle.dactl_contractum.specs.Drawing.{arcs_in, made_in, mentioned_in};
ghost use Rattle.dactl_contractum.specs.Terms.{IsReady, AreDrawn};
ghost use Rattle.dactl_meaning.specs.Expansion.{number_in};
ghost use Rattle.dactl_contractum.specs.Meant.{arc_meant, label_with, node_with, nodes_with};
ghost use Rattle.dactl_contractum.specs.Meant.{wake_of, moves_by, root_by};
ghost use Rattle.dactl_contractum.specs.Told.{suspensions_in};

use crate::contractum::Contractum;
use crate::drawing::{Arcs, Core, Mentioned, Sketch, SketchArc, Target};
use crate::suspending::suspend;
use crate::variables::Variables;
use dactl_base::refusal::Memory;
use dactl_meaning::tree::{Marks, Part};
use dactl_model::graph::{Label, Mark};
use dactl_model::program::{FreshArc, FreshNode, Left, Mention, Move};
use sqlite_items::Items;
use std::alloc::{AllocError, Global};

/// The label of a new node, whose symbol has that number if it is a symbol's.
fn label(core: Core, symbol: u32) -> Label
    ensures { result ≡ label_with (core_of core.entry) symbol }
{
    match core {
        Core::Number(value) => Label::Integer(*value),
        Core::Character(value) => Label::Character(value),
        Core::Of(_) => Label::Symbol(symbol),
    }
}

/// The mark of a new node. More than 255 hashes, which no node without a fault has, are want of
/// memory.
fn mark(marks: Marks) -> Result<Mark, Memory>
    ensures { IfOk result (λ m. m ≡ mark_of marks) }
{
    match marks {
        Marks::Plain => Ok(Mark::Idle),
        Marks::Star { .. } => Ok(Mark::Active),
        Marks::Hashes { count, .. } => {
            if count > 255 {
                return Err(AllocError);
            }
            Ok(Mark::Waiting(count as u8))
        }
    }
}

impl Contractum<'_> {
    /// The node that a name stands for.
    fn named(&self, variables: &Variables, name: &[u8]) -> Mention
        requires { IsReady variables.now self.now }
        ensures { result ≡ name_denotes variables.now (made_in self.now.drawing) name.now }
    {
        if let Some(number) = variables.small_number(name) {
            return Mention::Old(number);
        }
        match self.given.get(name) {
            Some(number) => Mention::Fresh(number as u32),
            None => Mention::Fresh(self.drawing.made.len() as u32),
        }
    }

    /// The node that is meant: a variable's before a new one's, and for a name that is not bound
    /// the number behind the last new node's.
    pub(crate) fn meant(&self, variables: &Variables, target: Target) -> Mention
        requires { IsReady variables.now self.now }
        ensures { result
            ≡ denotes variables.now (made_in self.now.drawing) (target_of target.entry) }
    {
        match target {
            Target::Made(number) => Mention::Fresh(number),
            Target::Named(name) => self.named(variables, name.text.as_slice()),
            Target::Nameless => self.named(variables, &[]),
        }
    }

    fn arc(&self, variables: &Variables, arc: SketchArc) -> FreshArc
        requires { IsReady variables.now self.now }
        ensures { result
            ≡ arc_meant variables.now (made_in self.now.drawing) (arc_of arc.entry) }
    {
        FreshArc {
            to: self.meant(variables, arc.target),
            waits: arc.waits,
        }
    }

    fn many_arcs(
        &self,
        variables: &Variables,
        arcs: &[SketchArc],
        meant: &mut Vec<FreshArc>,
    ) -> Result<(), Memory>
        requires { IsReady variables.now self.now }
        ensures { OnOk result
            (meant.new.items
            ≡ meant.old.items
            ++ map (arc_meant variables.now (made_in self.now.drawing)) (map arc_of arcs.now)) }
    {
        for arc in arcs {
            meant.push(self.arc(variables, *arc))?;
        }
        Ok(())
    }

    fn arcs(
        &self,
        alloc: Global,
        variables: &Variables,
        arcs: &Arcs,
    ) -> Result<Items<FreshArc>, Memory>
        requires { IsReady variables.now self.now }
        ensures { IfOk result
            (λ meant. meant
            ≡ map (arc_meant variables.now (made_in self.now.drawing))
            (map arc_of (arcs_in arcs.now))) }
    {
        let mut meant = Vec::with_capacity(alloc, arcs.len())?;
        match arcs {
            Arcs::None => {}
            Arcs::One(one) => meant.push(self.arc(variables, *one))?,
            Arcs::Two(first, second) => {
                meant.push(self.arc(variables, *first))?;
                meant.push(self.arc(variables, *second))?;
            }
            Arcs::More(arcs) => self.many_arcs(variables, arcs.as_slice(), &mut meant)?,
        }
        Ok(Items::from_vec(meant))
    }

    fn node(
        &self,
        alloc: Global,
        variables: &Variables,
        sketch: &Sketch,
        symbol: u32,
    ) -> Result<FreshNode, Memory>
        requires { IsReady variables.now self.now }
        ensures { IfOk result
            (λ n. n
            ≡ node_with variables.now (made_in self.now.drawing) (sketch_of sketch.now) symbol) }
    {
        let label = label(sketch.core, symbol);
        let arcs = self.arcs(alloc, variables, &sketch.arcs)?;
        let mark = mark(sketch.term.marks)?;
        Ok(FreshNode { label, arcs, mark })
    }

    /// The new nodes, whose symbols have these numbers.
    ///
    /// # Errors
    ///
    /// Want of memory, which more than 255 `#` before a node are too.
    pub fn fresh(
        &self,
        alloc: Global,
        variables: &Variables,
        symbols: &[u32],
    ) -> Result<Items<FreshNode>, Memory>
        requires ready { IsReady variables.now self.now }
        requires symbols { length symbols.now ≡ length self.now.drawing.made.items }
        ensures { IfOk result
            (λ fresh. fresh
            ≡ nodes_with variables.now (made_in self.now.drawing) (made_in self.now.drawing)
            symbols.now) }
    {
        let mut fresh = Vec::with_capacity(alloc, symbols.len())?;
        for (number, sketch) in self.drawing.made.as_slice().iter().enumerate() {
            fresh.push(self.node(alloc, variables, sketch, symbols[number])?)?;
        }
        Ok(Items::from_vec(fresh))
    }

    /// The variables whose nodes wake, in the order of their mentions.
    ///
    /// # Errors
    ///
    /// Want of memory.
    pub fn wakes(&self, alloc: Global, variables: &Variables) -> Result<Items<u8>, Memory>
        requires { IsReady variables.now self.now }
        ensures { IfOk result
            (λ wakes. wakes ≡ filter_map (wake_of variables.now) (mentioned_in self.now.drawing)) }
    {
        let mut wakes = Vec::new(alloc);
        for mention in self.drawing.mentions.as_slice() {
            if let Some(variable) = woken(variables, *mention) {
                wakes.push(variable)?;
            }
        }
        Ok(Items::from_vec(wakes))
    }

    /// How many notifications the root is to wait for again, where these names of it may have `#`;
    /// 0 where no mention asks for any.
    pub fn suspend(&self, roots: &Variables) -> u8
        ensures { result
            ≡ asked_by (suspensions_in roots.now (mentioned_in self.now.drawing)) }
    {
        suspend(roots, self.drawing.mentions.as_slice())
    }

    /// Adds the redirections of the parts to `moves`.
    fn push_moves(
        &self,
        moves: &mut Vec<Move>,
        variables: &Variables,
        parts: &[Part],
    ) -> Result<(), Memory>
        requires ready { IsReady variables.now self.now }
        requires parts { length parts.now ≡ length self.now.targets.items }
        ensures { OnOk result
            (moves.new.items ≡ moves.old.items
            ++ moves_by variables.now (made_in self.now.drawing) parts.now
            (map target_of self.now.targets.items)) }
    {
        for (number, part) in parts.iter().enumerate() {
            if let Part::Redirect { left, .. } = part {
                let from = Left::Variable(number_of(variables, left.text.as_slice()));
                let to = self.meant(variables, self.targets[number]);
                moves.push(Move { from, to })?;
            }
        }
        Ok(())
    }

    /// The redirections of the parts whose terms these are; `redirects` says that the root is
    /// redirected first.
    ///
    /// # Errors
    ///
    /// Want of memory.
    pub fn moves(
        &self,
        alloc: Global,
        variables: &Variables,
        redirects: bool,
        parts: &[Part],
    ) -> Result<Items<Move>, Memory>
        requires ready { IsReady variables.now self.now }
        requires drawn { AreDrawn (map term_of_part parts.now) self.now.drawing
            self.now.targets.items }
        ensures { IfOk result (λ moves. moves ≡ moves_of variables.now redirects parts.now) }
    {
        let mut moves = self.root_moves(alloc, variables, redirects)?;
        self.push_moves(&mut moves, variables, parts)?;
        Ok(Items::from_vec(moves))
    }

    /// The redirection of the root to what the first term stands for, if the root is redirected.
    fn root_moves(
        &self,
        alloc: Global,
        variables: &Variables,
        redirects: bool,
    ) -> Result<Vec<Move>, Memory>
        requires { IsReady variables.now self.now }
        ensures { IfOk result
            (λ moves. moves.items
            ≡ root_by variables.now (made_in self.now.drawing) redirects
            (map target_of self.now.targets.items)) }
    {
        let mut moves = Vec::new(alloc);
        match self.targets.as_slice() {
            [target, ..] if redirects => {
                let to = self.meant(variables, *target);
                moves.push(Move {
                    from: Left::Root,
                    to,
                })?;
            }
            _ => {}
        }
        Ok(moves)
    }
}

/// The number of a name among the variables: their count where it is none of them.
fn number_of(variables: &Variables, name: &[u8]) -> u8
    requires { length variables.now ≤ 64 }
    ensures { result ≡ number_in variables.now name.now }
{
    match variables.small_number(name) {
        Some(number) => number,
        None => variables.count() as u8,
    }
}

/// The variable that a mention wakes.
fn woken(variables: &Variables, mention: Mentioned) -> Option<u8>
    requires { length variables.now ≤ 64 }
    ensures { result ≡ wake_of variables.now (mention_of mention.entry) }
{
    match mention.marks {
        Marks::Star { .. } => variables.small_number(mention.name.text.as_slice()),
        _ => None,
    }
}
