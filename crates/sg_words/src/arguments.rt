//! The command as `clap` knows it.

ghost use Rattle.std.specs.Prelude.{◌≡◌, false, IfOk};
ghost use Rattle.clap.specs.Words.{app_of, new_rule, rule_of};
ghost use Rattle.sg_words.specs.Arguments.{bare, flag_rule, long_rule, synopsis};

use clap::{Arg, ArgAction, Command};
use std::alloc::{AllocError, Global};

/// The options by their long names, and one word that is no option.
pub fn command<'a>(alloc: Global) -> Result<Command<'a>, AllocError>
    ensures { IfOk result (λ command. app_of command ≡ synopsis) }
{
    bare(alloc)
        .arg(option(alloc, "budget"))?
        .arg(option(alloc, "cache"))?
        .arg(flag(alloc, "stats"))?
        .arg(flag(alloc, "keep-going"))?
        .arg(option(alloc, "drill"))?
        .arg(positional(alloc, "FILE"))
}

/// The command with no argument. The words have no program's name, and nothing asks for help.
fn bare<'a>(alloc: Global) -> Command<'a>
    ensures { app_of result ≡ bare }
{
    Command::new(alloc, "sgps")
        .no_binary_name(true)
        .disable_help_flag(true)
}

/// An option that takes a value.
fn option<'a>(alloc: Global, name: &'a str) -> Arg<'a>
    ensures rule { rule_of result ≡ long_rule name.entry.now }
    ensures local { result.global ≡ false }
{
    Arg::new(alloc, name).long(name)
}

/// An option that takes none.
fn flag<'a>(alloc: Global, name: &'a str) -> Arg<'a>
    ensures rule { rule_of result ≡ flag_rule name.entry.now }
    ensures local { result.global ≡ false }
{
    Arg::new(alloc, name).long(name).action(ArgAction::SetTrue)
}

/// A word that is no option.
fn positional<'a>(alloc: Global, name: &'a str) -> Arg<'a>
    ensures rule { rule_of result ≡ new_rule name.entry.now }
    ensures local { result.global ≡ false }
{
    Arg::new(alloc, name)
}
