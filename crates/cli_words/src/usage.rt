//! The usage of the program, and of each command.

ghost use Rattle.std.specs.Prelude.{map};
ghost use Rattle.std.specs.Fmt.{WritesOnOk};
ghost use Rattle.std.specs.List.{flat_map};
ghost use Rattle.cli_words.specs.Table.{pairs, row_of, row_of_tuple, texts};
ghost use Rattle.cli_words.specs.UsageText.{explanation_text, explanations_text, line_text, lines_text, named_option, option_text, word_text};

use crate::table::{Form, Row, rows_for};
use std::fmt::{self, Display, Formatter, Write};

/// The usage of the command of a name, or of all where none has it, as `{}` prints it: a line for
/// each command with its words and options, and then what each does. The last line has its end.
#[derive(Clone, Copy)]
pub struct Usage<'a> {
    pub command: &'a str,
}

impl Display for Usage<'_> {
    ghost use Rattle.std.specs.Prelude.{Some};
    ghost use Rattle.cli_words.specs.UsageText.{usage_text};

    ghost output = { λ u. Some (usage_text u.command.now) };

    fn fmt<W: Write>(&self, f: &mut Formatter<W>) -> fmt::Result {
        let rows = rows_for(self.command);
        write_lines(rows, f)?;
        write_explanations(rows, f)
    }
}

/// Writes the line of each of these commands.
fn write_lines<W: Write>(rows: &[Row], f: &mut Formatter<W>) -> fmt::Result
    ensures { WritesOnOk W.write_str_gives f.old result
        (lines_text (map row_of_tuple rows.now)) f.new }
{
    let mut lead = "usage:";
    for row in rows {
        write_line(lead, &Form::of(row), f)?;
        lead = "      ";
    }
    Ok(())
}

/// Writes the line of a command.
fn write_line<W: Write>(lead: &str, form: &Form, f: &mut Formatter<W>) -> fmt::Result
    ensures { WritesOnOk W.write_str_gives f.old result (line_text lead.now (row_of form.now)) f.new }
{
    write!(f, "{lead} ledger {}", form.name)?;
    write_words(form.words, f)?;
    write_options(form.options, f)?;
    writeln!(f, "")
}

/// Writes words that have to be there.
fn write_words<W: Write>(words: &[&str], f: &mut Formatter<W>) -> fmt::Result
    ensures { WritesOnOk W.write_str_gives f.old result (flat_map word_text (texts words.now)) f.new }
{
    for word in words {
        write!(f, " {word}")?;
    }
    Ok(())
}

/// Writes options, which may be left out.
fn write_options<W: Write>(options: &[(&str, &str)], f: &mut Formatter<W>) -> fmt::Result
    ensures { WritesOnOk W.write_str_gives f.old result (flat_map option_text (pairs options.now))
        f.new }
{
    for (name, value) in options {
        write_option(name, value, f)?;
    }
    Ok(())
}

/// Writes an option with the name of its value, if it has one.
fn write_option<W: Write>(name: &str, value: &str, f: &mut Formatter<W>) -> fmt::Result
    ensures { WritesOnOk W.write_str_gives f.old result (named_option name.now value.now) f.new }
{
    if value.is_empty() {
        write!(f, " [--{name}]")
    } else {
        write!(f, " [--{name} {value}]")
    }
}

/// Writes what each of these commands does.
fn write_explanations<W: Write>(rows: &[Row], f: &mut Formatter<W>) -> fmt::Result
    ensures { WritesOnOk W.write_str_gives f.old result
        (explanations_text (map row_of_tuple rows.now)) f.new }
{
    for row in rows {
        write_explanation(&Form::of(row), f)?;
    }
    Ok(())
}

/// Writes what a command does: behind its name, and below that.
fn write_explanation<W: Write>(form: &Form, f: &mut Formatter<W>) -> fmt::Result
    ensures { WritesOnOk W.write_str_gives f.old result (explanation_text (row_of form.now)) f.new }
{
    let mut lead = form.name;
    for line in form.does.lines() {
        writeln!(f, "  {lead:<8} {line}")?;
        lead = "";
    }
    Ok(())
}
