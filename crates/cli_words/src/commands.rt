//! The commands, as `clap` reads them.

ghost use Rattle.std.specs.Prelude.{◌≡◌, false, map, IfOk};
ghost use Rattle.clap.specs.Simple.{app_of};
ghost use Rattle.clap.specs.Walk.{rule_of};
ghost use Rattle.clap.specs.declared.builder.command.Command.TheViews.{out-Command};
ghost use Rattle.cli_words.specs.Table.{row_of, table, texts};
ghost use Rattle.cli_words.specs.Words.{app_by, app_of_row, app_with, option_rule, word_rule};

use crate::table::{Form, rows};
use clap::{Arg, ArgAction, Command};
use std::alloc::{AllocError, Global};

/// A word that has to be there, in its place.
fn word<'a>(alloc: Global, name: &'a str) -> Arg<'a>
    ensures rule { rule_of result ≡ word_rule name.now }
    ensures local { result.global ≡ false }
{
    Arg::new(alloc, name).required(true).action(ArgAction::Set)
}

/// An option with one value, or with none where its value has no name. It may be there once.
fn option<'a>(alloc: Global, name: &'a str, value: &str) -> Arg<'a>
    ensures rule { rule_of result ≡ option_rule name.now value.now }
    ensures local { result.global ≡ false }
{
    let action = if value.is_empty() {
        ArgAction::SetTrue
    } else {
        ArgAction::Set
    };
    Arg::new(alloc, name).long(name).action(action)
}

/// A command of this form.
fn command<'a>(alloc: Global, form: &Form) -> Result<Command<'a>, AllocError>
    ensures app { IfOk result (λ command. app_of command ≡ app_of_row (row_of form.now)) }
    ensures local { IfOk result (λ command. (out-Command command).has_globals ≡ false) }
{
    let mut command = worded(alloc, form)?;
    for (name, value) in form.options {
        command = command.arg(option(alloc, name, value))?;
    }
    Ok(command)
}

/// A command with the words of this form, and none of its options.
fn worded<'a>(alloc: Global, form: &Form) -> Result<Command<'a>, AllocError>
    ensures app { IfOk result (λ command. app_of command
        ≡ app_by form.now.name.now (map word_rule (texts form.now.words.now))) }
    ensures local { IfOk result (λ command. (out-Command command).has_globals ≡ false) }
{
    let mut command = Command::new(alloc, form.name);
    for name in form.words {
        command = command.arg(word(alloc, name))?;
    }
    Ok(command)
}

/// The commands of the table, as one that has them.
pub(crate) fn commands<'a>(alloc: Global) -> Result<Command<'a>, AllocError>
    ensures { IfOk result (λ ledger. app_of ledger ≡ app_with table) }
{
    let mut ledger = Command::new(alloc, "ledger")
        .no_binary_name(true)
        .subcommand_required(true);
    for row in rows() {
        let command = command(alloc, &Form::of(row))?;
        ledger = ledger.subcommand(command)?;
    }
    Ok(ledger)
}
