//! Whole texts.

ghost use Rattle.std.specs.Prelude.{◌≡◌, ◌-◌, ◌≤◌, length, Err, IfOk};
ghost use Rattle.dactl_base.specs.declared.refusal.Refusal.{Refusal as The_refusal};
ghost use Rattle.dactl_base.specs.declared.refusal.TextFault.TheVariants.{Refused};
ghost use Rattle.dactl_grammar.specs.Reader.{read_all};
ghost use Rattle.dactl_grammar.specs.Giving.{Gives};
ghost use Rattle.dactl_tokens.specs.Answer.{OkOrMemory, RefusedOrMemory};
ghost use Rattle.dactl_meaning.specs.declared.tree.Text.{Text as The_text};
ghost use Rattle.dactl_terminals.specs.Answer.{refusal_of};
ghost use Rattle.dactl_syntax.specs.Reading.{language_at, text_at};
ghost use Rattle.dactl_terminals.specs.Seen.{toks};
ghost use Rattle.dactl_syntax.specs.Answer.{IsTree, IsFirstFault, most_open};

use crate::modules::modules;
use dactl_base::refusal::TextFault;
use dactl_grammar::fault::{Fault, ReadError};
use dactl_meaning::tree::{Module, Text};
use dactl_terminals::faults::refusal_of;
use dactl_terminals::terminals::terminals;
use dactl_terminals::token::{Sort, Terminal, next_is, one};
use dactl_tokens::Token;
use sqlite_items::Items;
use std::alloc::Global;

/// How many brackets may be open.
const MOST_OPEN: u32 = 200;

/// Reads the Header of language 2, if it stands there, and answers the language.
#[tactic(auto, unfolding(crate::specs::Reading::language_at))]
fn language<'a>(text: &[u8], tokens: &'a [Terminal]) -> Result<(u8, &'a [Terminal]), ReadError>
    ensures { Gives (λ x. (x.0, toks text.now x.1.now)) result
        (language_at (toks text.now tokens.now)) }
{
    if next_is(tokens, Sort::Header) {
        let (_, rest) = one(text, tokens, Sort::Header)?;
        Ok((2, rest))
    } else {
        Ok((1, tokens))
    }
}

/// Reads all of the tokens: the language and the modules.
#[tactic(auto, unfolding(crate::specs::Reading::text_at))]
fn whole(alloc: Global, text: &[u8], tokens: &[Terminal]) -> Result<(u8, Items<Module>), ReadError>
    ensures { Gives (λ x. (x.0, x.1)) result
        (read_all (text_at most_open) (toks text.now tokens.now)) }
{
    let (language, rest) = language(text, tokens)?;
    let (modules, rest) = modules(alloc, text, rest, MOST_OPEN)?;
    if !rest.is_empty() {
        return Err(ReadError::Fault(Fault::Unexpected { left: rest.len() }));
    }
    Ok((language, modules))
}

/// The tree of a text, which is given with its tokens.
///
/// # Errors
///
/// `Refused` with the first fault: `Unexpected` at the first token with which the tokens so far
/// begin no text (at the text's length where the text ends too early), `TooDeep` at the first
/// bracket that makes more than 200 open. `Memory` where memory is wanting, which tells nothing of
/// the text.
pub fn parse(alloc: Global, text: &[u8], tokens: &[Token]) -> Result<Text, TextFault>
    requires short { length text.now ≤ 1048576 }
    ensures found { IfOk result (IsTree text.now tokens.now) }
    ensures only { (tree : The_text) → IsTree text.now tokens.now tree →
        OkOrMemory (λ found. found) tree result }
    ensures refused { (r : The_refusal) → result ≡ Err (Refused r) →
        IsFirstFault text.now tokens.now r }
    ensures only_refused { (r : The_refusal) → IsFirstFault text.now tokens.now r →
        RefusedOrMemory r result }
{
    let terminals = terminals(alloc, false, text, tokens)?;
    match whole(alloc, text, terminals.as_slice()) {
        Ok((language, modules)) => Ok(Text {
            language,
            modules,
            length: text.len() as u32,
        }),
        Err(ReadError::Memory) => Err(TextFault::Memory),
        Err(ReadError::Fault(fault)) => {
            let refusal = refusal_of(text, terminals.as_slice(), fault);
            Err(TextFault::Refused(refusal))
        }
    }
}
