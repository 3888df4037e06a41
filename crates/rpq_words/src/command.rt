//! The command, as `clap` reads it.

ghost use Rattle.std.specs.Prelude.{◌≡◌, IfOk, false};
ghost use Rattle.clap.specs.Simple.{app_of};
ghost use Rattle.clap.specs.Walk.{rule_of};
ghost use Rattle.rpq_words.specs.Command.{any_words, flag, one_word, option_again, option_or};
ghost use Rattle.rpq_words.specs.Command.{option_with_two, option_with_value, rpq_command};

use clap::{Arg, ArgAction, Command};
use std::alloc::{AllocError, Global};

/// The command. The only error is out of memory.
pub(crate) fn command<'a>(alloc: Global) -> Result<Command<'a>, AllocError>
    ensures { IfOk result (λ command. app_of command ≡ rpq_command) }
{
    Command::new(alloc, "rpq")
        .arg(option_or(alloc, "workers", "4"))?
        .arg(option_with_value(alloc, "history"))?
        .arg(option_with_value(alloc, "asks"))?
        .arg(option_with_value(alloc, "replies"))?
        .arg(flag(alloc, "check"))?
        .arg(option_with_value(alloc, "generate"))?
        .arg(flag(alloc, "two-way"))?
        .arg(flag(alloc, "paths"))?
        .arg(option_with_value(alloc, "joins"))?
        .arg(option_with_value(alloc, "save"))?
        .arg(option_with_value(alloc, "from"))?
        .arg(flag(alloc, "endless"))?
        .arg(option_with_two(alloc, "reader"))?
        .arg(option_again(alloc, "faults"))?
        .arg(one_word(alloc, "queries"))?
        .arg(any_words(alloc, "streams"))
}

/// An option `--NAME` with one value.
fn option_with_value<'a>(alloc: Global, name: &'a str) -> Arg<'a>
    ensures local { result.global ≡ false }
    ensures rule { rule_of result ≡ option_with_value name.entry.now }
{
    Arg::new(alloc, name).long(name).action(ArgAction::Set)
}

/// An option `--NAME` with two values, which may be given again.
fn option_with_two<'a>(alloc: Global, name: &'a str) -> Arg<'a>
    ensures local { result.global ≡ false }
    ensures rule { rule_of result ≡ option_with_two name.entry.now }
{
    Arg::new(alloc, name)
        .long(name)
        .action(ArgAction::Append)
        .num_args(2usize)
}

/// An option `--NAME` with one value, which may be given again.
fn option_again<'a>(alloc: Global, name: &'a str) -> Arg<'a>
    ensures local { result.global ≡ false }
    ensures rule { rule_of result ≡ option_again name.entry.now }
{
    Arg::new(alloc, name).long(name).action(ArgAction::Append)
}

/// An option that has the value `default` where it isn't given.
fn option_or<'a>(alloc: Global, name: &'a str, default: &'a str) -> Arg<'a>
    ensures local { result.global ≡ false }
    ensures rule { rule_of result ≡ option_or name.entry.now default.entry.now }
{
    Arg::new(alloc, name)
        .long(name)
        .action(ArgAction::Set)
        .default_value(default)
}

/// A flag `--NAME`.
fn flag<'a>(alloc: Global, name: &'a str) -> Arg<'a>
    ensures local { result.global ≡ false }
    ensures rule { rule_of result ≡ flag name.entry.now }
{
    Arg::new(alloc, name).long(name).action(ArgAction::SetTrue)
}

/// One word, which has to stand there.
fn one_word<'a>(alloc: Global, name: &'a str) -> Arg<'a>
    ensures local { result.global ≡ false }
    ensures rule { rule_of result ≡ one_word name.entry.now }
{
    Arg::new(alloc, name).action(ArgAction::Set).required(true)
}

/// Any number of words.
fn any_words<'a>(alloc: Global, name: &'a str) -> Arg<'a>
    ensures local { result.global ≡ false }
    ensures rule { rule_of result ≡ any_words name.entry.now }
{
    Arg::new(alloc, name).action(ArgAction::Append)
}
