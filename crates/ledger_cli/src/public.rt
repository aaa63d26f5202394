//! The command `public`.

ghost use Rattle.std.specs.Prelude.{◌≡◌, IfErr, OnErr, OnOk};
ghost use Rattle.std.specs.List.{flat_map};
ghost use Rattle.cli_lines.specs.Told.{Answers, Begins, IsBrokenOff, IsTextOf, Prints, PrintsPart, Tells};
ghost use Rattle.ledger_cli.specs.Keys.{Publishes, public_text};

use cli_lines::{Failure, Files, Printer, keys_in};
use ed25519::SigningKey;
use std::alloc::Global;
use std::io::Write;

/// Prints the public key of each seed in the key file of this name, in order. Refused as `keys_in`
/// is.
pub(crate) fn public<F: Files, W: Write>(
    alloc: Global,
    files: &mut F,
    name: &str,
    out: &mut Printer<'_, W>,
) -> Result<(), Failure>
    ensures tells { Tells out.old out.new result }
    ensures answers { Answers (Publishes (F.bytes files.old name.now)) out.old out.new result }
    ensures begins { Begins (IsTextOf (Publishes (F.bytes files.old name.now))) out.old out.new
        result }
    ensures kept { F.bytes files.new ≡ F.bytes files.old }
{
    let keys = keys_in(alloc, files, name)?;
    print_keys(alloc, &keys, out)
}

/// Prints the public key of each of these.
fn print_keys<W: Write>(
    alloc: Global,
    keys: &[SigningKey],
    out: &mut Printer<'_, W>,
) -> Result<(), Failure>
    ensures tells { Tells out.old out.new result }
    ensures lost { IfErr result IsBrokenOff }
    ensures prints { OnOk result (Prints out.old out.new (flat_map public_text keys.now)) }
    ensures part { OnErr result (PrintsPart out.old out.new (flat_map public_text keys.now)) }
{
    for key in keys {
        let public = hex::encode(alloc, key.public_key())?;
        writeln!(out, "public {public}")?;
    }
    Ok(())
}
