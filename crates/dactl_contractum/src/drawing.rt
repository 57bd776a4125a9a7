//! What the terms of a contractum make and mention.
ghost use Rattle.std.specs.Prelude.{◌≡◌, ◌<◌, ◌^◌, [], ◌∷◌, IfOk, OnOk, count_by, length, map};
ghost use Rattle.dactl_meaning.specs.Contractum.{term_draws, mentions_in};
ghost use Rattle.dactl_meaning.specs.Contractum.{node_draws, arg_draws};
ghost use Rattle.dactl_contractum.specs.Drawing.{next_number, begun, sketch_of, arcs_in};
ghost use Rattle.dactl_contractum.specs.Drawing.{node_mentioned, arg_mentioned, args_mentioned};
ghost use Rattle.dactl_contractum.specs.Drawing.{args_draw};
ghost use Rattle.dactl_contractum.specs.Drawing.{with_arcs, made_in, mentioned_in, arc_of};
ghost use Rattle.dactl_contractum.specs.Drawing.{Grows, Draws, DrawsArc, DrawsArcs};

use dactl_base::refusal::Memory;
use dactl_meaning::tree::{ArgTree, Marks, Name, NodeTree, TermTree};
use std::alloc::{AllocError, Global};

/// How many new nodes a contractum can have. More of them are want of memory.
pub const MOST_NODES: usize = 0x7fff_ffff;

/// What a term stands for: a new node, by its number, the node of a name, or that of the empty
/// name.
#[derive(Clone, Copy)]
pub enum Target<'a> {
    Made(u32),
    Named(&'a Name),
    Nameless,
}

/// What a new node is made of: an integer, a character, or a symbol under its name.
#[derive(Clone, Copy)]
pub enum Core<'a> {
    Number(&'a i128),
    Character(u8),
    Of(&'a Name),
}

/// An arc of a new node, and whether `^` stands before it.
#[derive(Clone, Copy)]
pub struct SketchArc<'a> {
    pub waits: bool,
    pub target: Target<'a>,
}

/// The arcs of a new node. Up to two, and few nodes have more, take no memory of their own.
#[derive(Drop)]
pub enum Arcs<'a> {
    None,
    One(SketchArc<'a>),
    Two(SketchArc<'a>, SketchArc<'a>),
    More(Vec<SketchArc<'a>>),
}

impl Arcs<'_> {
    /// How many arcs there are.
    pub fn len(&self) -> usize
        ensures { result ≡ length (arcs_in self.now) }
    {
        match self {
            Arcs::None => 0,
            Arcs::One(_) => 1,
            Arcs::Two(_, _) => 2,
            Arcs::More(arcs) => arcs.len(),
        }
    }

    /// How many arcs wait.
    fn flags(&self) -> usize
        ensures { result ≡ count_by (λ a. a.0) (map arc_of (arcs_in self.now)) }
    {
        match self {
            Arcs::None => 0,
            Arcs::One(arc) => usize::from(arc.waits),
            Arcs::Two(first, second) => usize::from(first.waits) + usize::from(second.waits),
            Arcs::More(arcs) => arcs.iter().filter(|arc| arc.waits).count(),
        }
    }
}

/// A new node: the term that makes it, with its name and its marks; what it is made of; and its
/// arcs. A text may have a new node for every third byte, so a sketch is small.
#[derive(Drop)]
pub struct Sketch<'a> {
    pub term: &'a TermTree,
    pub core: Core<'a>,
    pub arcs: Arcs<'a>,
}

impl Sketch<'_> {
    /// How many arcs wait.
    pub fn flags(&self) -> usize
        ensures { result ≡ count_by (λ a. a.0) (sketch_of self.now).arcs }
    {
        self.arcs.flags()
    }
}

/// A name that is mentioned, and the marks before it.
#[derive(Clone, Copy)]
pub struct Mentioned<'a> {
    pub name: &'a Name,
    pub marks: Marks,
}

/// The new nodes of terms, the outer before the inner, and the names that they mention.
#[derive(Drop)]
pub struct Drawing<'a> {
    pub made: Vec<Sketch<'a>>,
    pub mentions: Vec<Mentioned<'a>>,
}

impl<'a> Drawing<'a> {
    /// Begins a new node whose arcs are not known yet, and tells its number.
    fn begin(&mut self, term: &'a TermTree, core: Core<'a>) -> Result<usize, Memory>
        ensures grows { OnOk result (Grows (begun term.now core.entry ∷ []) [] self.old self.new) }
        ensures number { IfOk result (λ n. n ≡ next_number self.old) }
        ensures small { IfOk result (λ n. n < 2 ^ 31) }
    {
        let number = self.made.len();
        if number >= MOST_NODES {
            return Err(AllocError);
        }
        self.made.push(Sketch {
            term,
            core,
            arcs: Arcs::None,
        })?;
        Ok(number)
    }

    /// Gives a new node its arcs.
    fn finish(&mut self, number: usize, arcs: Arcs<'a>)
        requires { number < next_number self.old }
        ensures made { made_in self.new
            ≡ with_arcs (made_in self.old) number (map arc_of (arcs_in arcs.entry)) }
        ensures mentions { self.new.mentions ≡ self.old.mentions }
    {
        self.made[number].arcs = arcs;
    }
}

#[cycle(draw)]
fn node<'a>(
    alloc: Global,
    drawing: &mut Drawing<'a>,
    tree: &'a NodeTree,
    whole: &'a TermTree,
) -> Result<Target<'a>, Memory>
    ensures { IfOk result
        (Draws (node_draws tree.now (next_number drawing.old) whole.now.name whole.now.marks)
        (node_mentioned tree.now) drawing.old drawing.new) }
{
    match tree {
        NodeTree::Integer { value, .. } => {
            let number = drawing.begin(whole, Core::Number(value))?;
            Ok(Target::Made(number as u32))
        }
        NodeTree::Letter { value, .. } => {
            let number = drawing.begin(whole, Core::Character(*value))?;
            Ok(Target::Made(number as u32))
        }
        NodeTree::Sym { name, args } => {
            let number = drawing.begin(whole, Core::Of(name))?;
            let arcs = args_of(alloc, drawing, args.as_slice())?;
            drawing.finish(number, arcs);
            Ok(Target::Made(number as u32))
        }
    }
}

#[cycle(draw)]
fn args_of<'a>(
    alloc: Global,
    drawing: &mut Drawing<'a>,
    args: &'a [ArgTree],
) -> Result<Arcs<'a>, Memory>
    ensures { IfOk result
        (λ arcs. DrawsArcs (args_draw args.now (next_number drawing.old)) (args_mentioned args.now)
        drawing.old drawing.new (arcs_in arcs)) }
{
    match args {
        [] => Ok(Arcs::None),
        [one] => Ok(Arcs::One(arg(alloc, drawing, one)?)),
        [one, two] => {
            let first = arg(alloc, drawing, one)?;
            let second = arg(alloc, drawing, two)?;
            Ok(Arcs::Two(first, second))
        }
        many => Ok(Arcs::More(many_args(alloc, drawing, many)?)),
    }
}

#[cycle(draw)]
fn many_args<'a>(
    alloc: Global,
    drawing: &mut Drawing<'a>,
    args: &'a [ArgTree],
) -> Result<Vec<SketchArc<'a>>, Memory>
    ensures { IfOk result
        (λ arcs. DrawsArcs (args_draw args.now (next_number drawing.old)) (args_mentioned args.now)
        drawing.old drawing.new arcs.items) }
{
    let mut arcs = Vec::with_capacity(alloc, args.len())?;
    for item in args {
        arcs.push(arg(alloc, drawing, item)?)?;
    }
    Ok(arcs)
}

#[cycle(draw)]
fn arg<'a>(
    alloc: Global,
    drawing: &mut Drawing<'a>,
    tree: &'a ArgTree,
) -> Result<SketchArc<'a>, Memory>
    ensures { IfOk result
        (DrawsArc (arg_draws tree.now (next_number drawing.old)) (arg_mentioned tree.now)
        drawing.old drawing.new) }
{
    let target = term(alloc, drawing, &tree.term)?;
    Ok(SketchArc {
        waits: tree.waits,
        target,
    })
}

/// Draws a term, and tells what it stands for. A term without a name and a node, which no text has,
/// stands for the empty name.
///
/// # Errors
///
/// Want of memory, which too many new nodes are too. The drawing may then have parts of the term,
/// and is to be given up.
#[cycle(draw)]
pub fn term<'a>(
    alloc: Global,
    drawing: &mut Drawing<'a>,
    tree: &'a TermTree,
) -> Result<Target<'a>, Memory>
    ensures { IfOk result
        (Draws (term_draws tree.now (next_number drawing.old)) (mentions_in tree.now) drawing.old
        drawing.new) }
{
    match (&tree.name, &tree.node) {
        (_, Some(made)) => node(alloc, drawing, made, tree),
        (Some(name), None) => {
            drawing.mentions.push(Mentioned {
                name,
                marks: tree.marks,
            })?;
            Ok(Target::Named(name))
        }
        (None, None) => Ok(Target::Nameless),
    }
}
