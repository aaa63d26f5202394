//! The commands `check` and `digest`.

ghost use Rattle.std.specs.Prelude.{◌≡◌, IfOk, IfErr, OnErr};
ghost use Rattle.cli_lines.specs.Told.{Answers, PrintsNothing, Tells};
ghost use Rattle.wasm_file.specs.Modules.{IsDefinedBy, NoModule};
ghost use Rattle.cli_show.specs.Modules.{Checks, Digests};

use crate::explaining::explain_module;
use cli_lines::{Failure, Files, Printer, print_line, read_explained};
use sha2::{Digest, Sha256};
use std::alloc::Global;
use std::io::Write;
use wasm_file::{ModuleRefusal, defined_functions};
use wasm_profile::Profile;

/// A module has at most 262,144 bytes. One byte more is read, so that a longer file is told apart.
const MOST_READ: u64 = 262_145;

/// Prints how many functions the module of a file defines, which is read by this profile, and how
/// many bytes it has.
///
/// Refused where the file cannot be read (703), where it is no module of the profile, or none that
/// is valid (101 to 210), and for want of memory (9).
pub fn check<F: Files, W: Write>(
    alloc: Global,
    files: &mut F,
    name: &str,
    profile: Profile,
    out: &mut Printer<'_, W>,
) -> Result<(), Failure>
    ensures tells { Tells out.old out.new result }
    ensures answers { Answers (Checks profile (F.bytes files.old name.now)) out.old out.new
        result }
    ensures nothing { OnErr result (PrintsNothing out.old out.new) }
    ensures kept { F.bytes files.new ≡ F.bytes files.old }
{
    let bytes = read_explained(alloc, files, name, MOST_READ)?;
    let functions = functions_explained(alloc, files, name, &bytes, profile)?;
    let length = bytes.len();
    writeln!(out, "valid functions={functions} bytes={length}")
}

/// Prints the SHA-256 of the module of a file, which is read by this profile: the digest by which an
/// upgrade names it.
///
/// Refused as `check` does.
pub fn digest<F: Files, W: Write>(
    alloc: Global,
    files: &mut F,
    name: &str,
    profile: Profile,
    out: &mut Printer<'_, W>,
) -> Result<(), Failure>
    ensures tells { Tells out.old out.new result }
    ensures answers { Answers (Digests profile (F.bytes files.old name.now)) out.old out.new
        result }
    ensures nothing { OnErr result (PrintsNothing out.old out.new) }
    ensures kept { F.bytes files.new ≡ F.bytes files.old }
{
    let bytes = read_explained(alloc, files, name, MOST_READ)?;
    functions_explained(alloc, files, name, &bytes, profile)?;
    let digest = hex::encode(alloc, &Sha256::digest(bytes.as_slice()))?;
    print_line(&digest, out)
}

/// How many functions the module in a file of this name defines. Says why it is refused, if it is:
/// where the bytes are none of the profile that is valid.
fn functions_explained<F: Files>(
    alloc: Global,
    files: &mut F,
    name: &str,
    bytes: &[u8],
    profile: Profile,
) -> Result<usize, ModuleRefusal>
    ensures valid { IfOk result (λ functions. IsDefinedBy profile bytes.now functions) }
    ensures refused { IfErr result (λ refusal. NoModule profile bytes.now refusal) }
    ensures kept { F.bytes files.new ≡ F.bytes files.old }
{
    let functions = defined_functions(alloc, bytes, profile);
    explain_module(alloc, files, name, bytes, profile, &functions);
    functions
}
