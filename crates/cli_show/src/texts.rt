//! Texts of lines that are printed once a store was read to its end.

ghost use Rattle.std.specs.Prelude.{◌≡◌, ◌++◌, IfErr, OnErr, OnOk, string_bytes};
ghost use Rattle.std.specs.Io.KnownBytes.{Appends};
ghost use Rattle.cli_lines.specs.Texts.{line};
ghost use Rattle.cli_lines.specs.Told.{IsBrokenOff, PrintsNothing, Tells};

use cli_lines::{Failure, Printer};
use std::alloc::AllocError;
use std::io::Write;

/// Puts a line behind a text.
pub(crate) fn push_line(text: &mut String, next: &String) -> Result<(), AllocError>
    ensures { OnOk result
        (string_bytes text.new ≡ string_bytes text.old ++ line (string_bytes next.now)) }
{
    text.push_str(next)?;
    text.push_str("\n")
}

/// Prints a text as it is.
pub(crate) fn print_text<W: Write>(text: &String, out: &mut Printer<'_, W>) -> Result<(), Failure>
    ensures tells { Tells out.old out.new result }
    ensures lost { IfErr result IsBrokenOff }
    ensures text { OnOk result (Appends out.old.bytes out.new.bytes (string_bytes text.now)) }
    ensures nothing { OnErr result (PrintsNothing out.old out.new) }
{
    write!(out, "{text}")
}
