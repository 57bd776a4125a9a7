//! The command that the words are read by.

ghost use Rattle.std.specs.Prelude.{◌≡◌, IfOk, false};
ghost use Rattle.clap.specs.Words.{app_of, rule_of};
ghost use Rattle.dactl_settings.specs.Command as spec;

use clap::{Arg, ArgAction, Command};
use std::alloc::{AllocError, Global};

// An option `--name`, which takes one text.
fn option<'a>(alloc: Global, name: &'a str) -> Arg<'a>
    ensures rule { rule_of result ≡ spec.option name.entry.now }
    ensures local { result.global ≡ false }
{
    Arg::new(alloc, name).long(name).action(ArgAction::Set)
}

// A flag `--name`.
fn flag<'a>(alloc: Global, name: &'a str) -> Arg<'a>
    ensures rule { rule_of result ≡ spec.flag name.entry.now }
    ensures local { result.global ≡ false }
{
    Arg::new(alloc, name).long(name).action(ArgAction::SetTrue)
}

/// The command, with all its options and flags.
///
/// # Errors
///
/// `AllocError` where there is not the memory for its list of options and flags.
pub fn command<'a>(alloc: Global) -> Result<Command<'a>, AllocError>
    ensures { IfOk result (λ made. app_of made ≡ spec.command) }
{
    Command::new(alloc, "dactl")
        .disable_help_flag(true)
        .arg(option(alloc, "workers"))?
        .arg(option(alloc, "budget"))?
        .arg(option(alloc, "nodes"))?
        .arg(option(alloc, "sample"))?
        .arg(flag(alloc, "trace"))?
        .arg(flag(alloc, "check"))?
        .arg(flag(alloc, "verify"))?
        .arg(flag(alloc, "resume"))?
        .arg(flag(alloc, "fun"))?
        .arg(flag(alloc, "steal"))
}
