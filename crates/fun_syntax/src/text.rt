//! Whole texts.

ghost use Rattle.std.specs.Prelude.{◌≡◌, ◌-◌, ◌≤◌, length, Err, IfOk};
ghost use Rattle.dactl_base.specs.declared.refusal.Refusal.{Refusal as The_refusal};
ghost use Rattle.dactl_base.specs.declared.refusal.TextFault.TheVariants.{Refused};
ghost use Rattle.dactl_grammar.specs.Reader.{read_all};
ghost use Rattle.dactl_grammar.specs.Giving.{Gives};
ghost use Rattle.dactl_tokens.specs.Answer.{OkOrMemory, RefusedOrMemory};
ghost use Rattle.fun_meaning.specs.declared.tree.Fun.{Fun as The_fun};
ghost use Rattle.dactl_terminals.specs.Answer.{refusal_of};
ghost use Rattle.fun_syntax.specs.Reading.{fun_at};
ghost use Rattle.dactl_terminals.specs.Seen.{toks};
ghost use Rattle.fun_syntax.specs.Answer.{AreEquations, IsFirstFault, most_open};

use crate::equations::{asked, constructors, equations};
use dactl_base::refusal::TextFault;
use dactl_grammar::fault::{Fault, ReadError};
use dactl_terminals::faults::refusal_of;
use dactl_terminals::terminals::terminals;
use dactl_terminals::token::Terminal;
use dactl_tokens::Token;
use fun_meaning::tree::Fun;
use std::alloc::Global;

/// How many brackets may be open.
const MOST_OPEN: u32 = 100;

/// Reads all of the tokens.
#[tactic(auto, unfolding(crate::specs::Reading::fun_at))]
fn whole(alloc: Global, text: &[u8], tokens: &[Terminal]) -> Result<Fun, ReadError>
    ensures { Gives (λ x. x) result (read_all (fun_at most_open) (toks text.now tokens.now)) }
{
    let (constructors, rest) = constructors(alloc, text, tokens)?;
    let (equations, rest) = equations(alloc, text, rest, MOST_OPEN)?;
    let (main, rest) = asked(alloc, text, rest, MOST_OPEN)?;
    if !rest.is_empty() {
        return Err(ReadError::Fault(Fault::Unexpected { left: rest.len() }));
    }
    Ok(Fun {
        constructors,
        equations,
        main,
    })
}

/// The equations of a text, which is given with its tokens.
///
/// # Errors
///
/// `Refused` with the first fault: `Unexpected` at the first token with which the tokens so far
/// begin no text (at the text's length where the text ends too early), `TooDeep` at the first
/// bracket that makes more than 100 open. `Memory` where memory is wanting, which tells nothing of
/// the text.
pub fn parse(alloc: Global, text: &[u8], tokens: &[Token]) -> Result<Fun, TextFault>
    requires short { length text.now ≤ 1048576 }
    ensures found { IfOk result (AreEquations text.now tokens.now) }
    ensures only { (e : The_fun) → AreEquations text.now tokens.now e →
        OkOrMemory (λ found. found) e result }
    ensures refused { (r : The_refusal) → result ≡ Err (Refused r) →
        IsFirstFault text.now tokens.now r }
    ensures only_refused { (r : The_refusal) → IsFirstFault text.now tokens.now r →
        RefusedOrMemory r result }
{
    let terminals = terminals(alloc, true, text, tokens)?;
    match whole(alloc, text, terminals.as_slice()) {
        Ok(found) => Ok(found),
        Err(ReadError::Memory) => Err(TextFault::Memory),
        Err(ReadError::Fault(fault)) => {
            let refusal = refusal_of(text, terminals.as_slice(), fault);
            Err(TextFault::Refused(refusal))
        }
    }
}
