//! Files that are written as a whole: each is the new one to its end, or stays as it was.

ghost use Rattle.std.specs.Prelude.{◌≡◌, ◌≢◌, ◌∷◌, ◌++◌, ℕ, true, false, List, [], None, IfErr, IfOk, OnErr, OnOk, codes, string_bytes};
ghost use Rattle.cli_lines.specs.Whole.{AppendsSo};
ghost use Rattle.cli_lines.specs.Places.{ChangesOnly};
ghost use Rattle.cli_lines.specs.Told.{IsBrokenOff, IsSilent};
ghost use Rattle.cli_lines.specs.Whole.{ChangesPlaced, HoldsSo, PlacesSo, Stays, StaysPlaced, whole_names};

use crate::explaining::{Location, explain_numbered, explain_trouble};
use crate::failure::Failure;
use crate::files::{Access, FileFault, Files, Target};
use std::alloc::{AllocError, Global};
use std::io::Write;

/// What a file is to hold.
pub trait Content {
    /// What is told of it once it is written.
    type Told: Drop;

    /// What has to be so of it, so that something is said of its bytes.
    ghost IsSound: { Self → Type 0 };

    /// This is told of it, and these bytes are it.
    ghost IsText: { Self → Self.Told → List ℕ → Type 0 };

    /// Writes all of it.
    fn write<W: Write>(&self, alloc: Global, writer: &mut W) -> Result<Self::Told, Failure>
        ensures silent { IfErr result IsSilent }
        ensures lost { IfErr result IsBrokenOff }
        ensures written { IsSound self.now → IfOk result
            (λ told. AppendsSo (IsText self.now told) (W.contents writer.old)
            (W.contents writer.new)) };
}

/// Writes a file as a whole, and answers what is told of its content.
///
/// A file stays as it was until the new one is whole and on the disk, and so does one that has got
/// the name of a new one meanwhile. A device or a pipe keeps what it was given when a write fails.
pub fn write_whole<F: Files, C: Content>(
    alloc: Global,
    files: &mut F,
    target: &Target,
    content: &C,
) -> Result<C::Told, Failure>
    ensures silent { IfErr result IsSilent }
    ensures lost { IfErr result IsBrokenOff }
    ensures written { C.IsSound content.now → IfOk result
        (λ told. PlacesSo F.is_known (F.bytes files.new) target.now (C.IsText content.now told)) }
    ensures others { ChangesPlaced F.is_known target.now (F.bytes files.old) (F.bytes files.new) }
    ensures stays { OnErr result
        (StaysPlaced F.is_known target.now (F.bytes files.old) (F.bytes files.new)) }
{
    match target {
        Target::File(name) => write_beside(alloc, files, name, content, true),
        Target::NewFile(name) => write_beside(alloc, files, name, content, false),
        Target::Device(name) => write_device(alloc, files, name, content),
    }
}

/// Writes a content to a device or a pipe.
fn write_device<F: Files, C: Content>(
    alloc: Global,
    files: &mut F,
    name: &str,
    content: &C,
) -> Result<C::Told, Failure>
    ensures silent { IfErr result IsSilent }
    ensures lost { IfErr result IsBrokenOff }
    ensures written { C.IsSound content.now → IfOk result
        (λ told. (text : List ℕ) × C.IsText content.now told text) }
    ensures kept { F.bytes files.new ≡ F.bytes files.old }
{
    let Some(writer) = files.open_device(name) else {
        explain_trouble(alloc, files, name, Access::Write);
        return Err(Failure::File);
    };
    let written = write_content(alloc, writer, content);
    explain_written(alloc, files, name, &written);
    let (_, told) = written?;
    Ok(told)
}

/// Writes a file beside another, under its name with `.part` behind it, and gives it that one's
/// place. Where that fails, nothing of it stays.
fn write_beside<F: Files, C: Content>(
    alloc: Global,
    files: &mut F,
    name: &str,
    content: &C,
    is_there: bool,
) -> Result<C::Told, Failure>
    ensures silent { IfErr result IsSilent }
    ensures lost { IfErr result IsBrokenOff }
    ensures written { C.IsSound content.now → IfOk result
        (λ told. HoldsSo F.is_known (F.bytes files.new name.now) (C.IsText content.now told)) }
    ensures others { ChangesOnly F.is_known (whole_names name.now) (F.bytes files.old)
        (F.bytes files.new) }
    ensures stays { OnErr result
        ((is_there ≡ false → F.bytes files.old name.now ≡ None)
        → Stays F.is_known name.now (F.bytes files.old) (F.bytes files.new)) }
{
    let part = part_of(alloc, name)?;
    let (writer, told) = write_part(alloc, files, &part, content)?;
    name_file(alloc, files, writer, &part, name, is_there)?;
    Ok(told)
}

/// The name under which a file is written before it takes the place of the file of a name.
pub fn part_of(alloc: Global, name: &str) -> Result<String, AllocError>
    ensures { IfOk result (λ part. string_bytes part ≡ name.now ++ codes ".part") }
{
    format!(in alloc; "{name}.part")
}

/// Makes a file of a name and writes a content to it. Where that fails, nothing of it stays.
fn write_part<F: Files, C: Content>(
    alloc: Global,
    files: &mut F,
    part: &str,
    content: &C,
) -> Result<(F::Writer, C::Told), Failure>
    ensures silent { IfErr result IsSilent }
    ensures lost { IfErr result IsBrokenOff }
    ensures written { C.IsSound content.now → IfOk result
        (λ w. HoldsSo F.is_known (F.Writer.contents w.0) (C.IsText content.now w.1)) }
    ensures others { ChangesOnly F.is_known (part.now ∷ []) (F.bytes files.old)
        (F.bytes files.new) }
{
    let Some(writer) = files.create(part) else {
        explain_trouble(alloc, files, part, Access::Write);
        return Err(Failure::File);
    };
    let written = write_content(alloc, writer, content);
    explain_written(alloc, files, part, &written);
    match written {
        Ok(written) => Ok(written),
        Err(failure) => {
            files.remove(part);
            Err(failure)
        }
    }
}

/// Writes all of a content, and gives the writer back.
fn write_content<W: Write + Drop, C: Content>(
    alloc: Global,
    mut writer: W,
    content: &C,
) -> Result<(W, C::Told), Failure>
    ensures silent { IfErr result IsSilent }
    ensures lost { IfErr result IsBrokenOff }
    ensures written { C.IsSound content.now → IfOk result
        (λ w. AppendsSo (C.IsText content.now w.1) (W.contents writer) (W.contents w.0)) }
{
    let told = content.write(alloc, &mut writer)?;
    match writer.flush() {
        Ok(()) => Ok((writer, told)),
        Err(_) => Err(Failure::File),
    }
}

/// Gives a file that was written a name: that of a file that is there, or one that no file has.
/// Where that cannot be done, nothing of it stays.
fn name_file<F: Files>(
    alloc: Global,
    files: &mut F,
    writer: F::Writer,
    part: &str,
    name: &str,
    is_there: bool,
) -> Result<(), Failure>
    ensures silent { IfErr result IsSilent }
    ensures lost { IfErr result IsBrokenOff }
    ensures kept { F.is_known ≡ true → OnOk result
        (F.bytes files.new name.now ≡ F.Writer.contents writer) }
    ensures others { ChangesOnly F.is_known (part.now ∷ name.now ∷ []) (F.bytes files.old)
        (F.bytes files.new) }
    ensures stays { OnErr result
        (name.now ≢ part.now → (is_there ≡ false → F.bytes files.old name.now ≡ None)
        → Stays F.is_known name.now (F.bytes files.old) (F.bytes files.new)) }
{
    if is_there {
        replace_file(alloc, files, writer, part, name)
    } else {
        place_file(alloc, files, writer, part, name)
    }
}

/// Gives a file that was written the name of another one, whose place it takes. Where that cannot
/// be done, nothing of it stays.
fn replace_file<F: Files>(
    alloc: Global,
    files: &mut F,
    writer: F::Writer,
    part: &str,
    name: &str,
) -> Result<(), Failure>
    ensures silent { IfErr result IsSilent }
    ensures lost { IfErr result IsBrokenOff }
    ensures kept { F.is_known ≡ true → OnOk result
        (F.bytes files.new name.now ≡ F.Writer.contents writer) }
    ensures others { ChangesOnly F.is_known (part.now ∷ name.now ∷ []) (F.bytes files.old)
        (F.bytes files.new) }
    ensures stays { OnErr result
        (name.now ≢ part.now → Stays F.is_known name.now (F.bytes files.old) (F.bytes files.new)) }
{
    if files.keep(writer, part, name) {
        Ok(())
    } else {
        explain_numbered(alloc, files, &Location::file(part), NOT_RENAMED, 703);
        files.remove(part);
        Err(Failure::File)
    }
}

/// Gives a file that was written a name that no file has, in the place of an empty one that nobody
/// else has. Where that cannot be done, neither stays.
fn place_file<F: Files>(
    alloc: Global,
    files: &mut F,
    writer: F::Writer,
    part: &str,
    name: &str,
) -> Result<(), Failure>
    ensures silent { IfErr result IsSilent }
    ensures lost { IfErr result IsBrokenOff }
    ensures kept { F.is_known ≡ true → OnOk result
        (F.bytes files.new name.now ≡ F.Writer.contents writer) }
    ensures others { ChangesOnly F.is_known (part.now ∷ name.now ∷ []) (F.bytes files.old)
        (F.bytes files.new) }
    ensures stays { OnErr result
        ((name.now ≢ part.now) × (F.bytes files.old name.now ≡ None)
        → Stays F.is_known name.now (F.bytes files.old) (F.bytes files.new)) }
{
    let Some(_lock) = files.lock_new(name) else {
        explain_numbered(alloc, files, &Location::file(name), NAME_TAKEN, 703);
        files.remove(part);
        return Err(Failure::File);
    };
    match replace_file(alloc, files, writer, part, name) {
        Ok(()) => Ok(()),
        Err(failure) => {
            files.remove(name);
            Err(failure)
        }
    }
}

/// What is wrong where a file that is written does not get its name.
const NOT_RENAMED: &str =
    "it is written, and cannot get the file's name; see the disk and its folder's rights";

/// What is wrong where the name of a new file is no longer free.
const NAME_TAKEN: &str = "a file got this name meanwhile, and stays; take another name";

/// Says why a content was not written to the file of a name, if that is so.
fn explain_written<F: Files, X>(
    alloc: Global,
    files: &mut F,
    name: &str,
    written: &Result<X, Failure>,
)
    ensures kept { F.bytes files.new ≡ F.bytes files.old }
{
    if matches!(written, Err(Failure::File)) {
        explain_numbered(alloc, files, &Location::file(name), NOT_WRITTEN, 703);
    }
}

/// What is wrong where a write failed.
const NOT_WRITTEN: &str = "it was not written to its end; see whether the disk is full";

/// Says why nothing can be written under a name, if that is so.
pub fn explain_target<F: Files>(
    alloc: Global,
    files: &mut F,
    name: &str,
    found: &Result<Target, FileFault>,
)
    ensures kept { F.bytes files.new ≡ F.bytes files.old }
{
    if matches!(found, Err(FileFault::Device)) {
        explain_trouble(alloc, files, name, Access::Write);
    }
}
