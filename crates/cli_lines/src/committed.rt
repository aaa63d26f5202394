//! The text of a block that was committed.

ghost use Rattle.std.specs.Fmt.{WritesOnOk};
ghost use Rattle.std.specs.List.{flat_map};
ghost use Rattle.cli_lines.specs.Lines.{flag_text};

use fab_types::Flag;
use std::fmt::{self, Display, Formatter, Write};

/// What the program prints of a block that was committed, as one text with its end: the block's
/// number, and the flag of each of its transactions.
#[derive(Clone, Copy)]
pub struct CommittedText<'a> {
    pub number: usize,
    pub flags: &'a [Flag],
}

impl Display for CommittedText<'_> {
    ghost use Rattle.std.specs.Prelude.{Some};
    ghost use Rattle.cli_lines.specs.Lines.{committed_text};

    ghost output = { λ c. Some (committed_text c.number c.flags.now) };

    fn fmt<W: Write>(&self, f: &mut Formatter<W>) -> fmt::Result {
        write!(f, "committed {} flags", self.number)?;
        write_flags(self.flags, f)?;
        writeln!(f, "")
    }
}

/// Writes each flag behind a space.
fn write_flags<W: Write>(flags: &[Flag], f: &mut Formatter<W>) -> fmt::Result
    ensures { WritesOnOk W.write_str_gives f.old result (flat_map flag_text flags.now) f.new }
{
    for flag in flags {
        write!(f, " {flag}")?;
    }
    Ok(())
}
