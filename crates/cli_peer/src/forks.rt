//! When a block that an organisation says it has is told as a fork.

ghost use Rattle.std.specs.Prelude.{◌≡◌, [], IfErr, OnErr, OnOk, Option, option_map, if◌then◌else◌};
ghost use Rattle.cli_lines.specs.Told.{IsBrokenOff, Prints, PrintsNothing, Tells};
ghost use Rattle.fab_types.specs.Committed.{Committed};
ghost use Rattle.log_committer.specs.Committing.{header_hash};
ghost use Rattle.peer_answers.specs.Seen.{forked_text, has_hash};

use cli_lines::{Failure, Printer};
use std::io::Write;

/// Prints that an organisation has another block of a number, unless it is not to be told.
pub(crate) fn print_unless<W: Write>(
    untold: bool,
    org: &str,
    number: u32,
    out: &mut Printer<'_, W>,
) -> Result<(), Failure>
    ensures prints { OnOk result
        (Prints out.old out.new (if untold then [] else forked_text org.now number)) }
    ensures nothing { OnErr result (PrintsNothing out.old out.new) }
    ensures tells { Tells out.old out.new result }
    ensures lost { IfErr result IsBrokenOff }
{
    if untold {
        Ok(())
    } else {
        writeln!(out, "forked {org} {number}")
    }
}

/// Whether a block is there whose header has this hash, by the hash that its header has.
pub(crate) fn has_hash(own: Option<[u8; 32]>, hash: &[u8; 32]) -> bool
    ensures { (block : Option Committed) → own ≡ option_map (λ c. header_hash c.block) block →
        result ≡ has_hash hash.now block }
{
    match own {
        Some(own) => own == *hash,
        None => false,
    }
}
