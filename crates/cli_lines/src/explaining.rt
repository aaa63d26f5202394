//! Why a line on the standard output refuses something, in words on the standard error.
//!
//! A sentence changes no answer, and is not printed on the standard output. Where there is no
//! memory for it, it is left out.

ghost use Rattle.std.specs.Prelude.{◌≡◌, IfOk, IfSome, OnOk, take};
ghost use Rattle.cli_lines.specs.Told.{IsHeld};

use crate::failure::Failure;
use crate::files::{Access, FileFault, Files, read_all, read_at_most};
use crate::meanings::{failure_words, number_words};
use std::alloc::{AllocError, Global};
use std::fmt::{self, Display, Formatter, Write};

/// What the standard input is called.
pub const STANDARD_INPUT: &str = "standard input";

/// Where in what is read something is wrong.
#[derive(Clone, Copy)]
pub struct Location<'a> {
    /// The name of a file, or what stands for it.
    pub file: &'a str,
    /// A line of it, from 1.
    pub line: Option<u64>,
}

impl<'a> Location<'a> {
    /// A file as a whole.
    pub fn file(file: &'a str) -> Location<'a> {
        Location { file, line: None }
    }

    /// A line of a file, from 1.
    pub fn line(file: &'a str, line: u64) -> Location<'a> {
        Location {
            file,
            line: Some(line),
        }
    }

    /// A line of the standard input, from 1.
    pub fn input(line: u64) -> Location<'a> {
        Location::line(STANDARD_INPUT, line)
    }
}

/// `FILE`, or `FILE, line N`.
impl Display for Location<'_> {
    fn fmt<W: Write>(&self, f: &mut Formatter<W>) -> fmt::Result {
        write!(f, "{}", self.file)?;
        match self.line {
            Some(line) => write!(f, ", line {line}"),
            None => Ok(()),
        }
    }
}

/// Says what is wrong at a place, in words that end with a number.
pub fn explain<F: Files>(
    alloc: Global,
    files: &mut F,
    place: &Location<'_>,
    words: Result<String, AllocError>,
)
    ensures kept { F.bytes files.new ≡ F.bytes files.old }
{
    let sentence = match words {
        Ok(words) => format!(in alloc; "{place}: {words}"),
        Err(error) => Err(error),
    };
    if let Ok(sentence) = sentence {
        files.explain(&sentence);
    }
}

/// Says what is wrong at a place, and the number that stands on the standard output for it.
pub fn explain_numbered<F: Files>(
    alloc: Global,
    files: &mut F,
    place: &Location<'_>,
    words: &str,
    number: u16,
)
    ensures kept { F.bytes files.new ≡ F.bytes files.old }
{
    explain(alloc, files, place, format!(in alloc; "{words} ({number})"));
}

/// Says what the number on the standard output stands for, which is a refusal of what is at a place.
pub fn explain_number<F: Files>(alloc: Global, files: &mut F, place: &Location<'_>, number: u16)
    ensures kept { F.bytes files.new ≡ F.bytes files.old }
{
    explain(alloc, files, place, number_words(alloc, number));
}

/// Says why the line at a place is a bad one.
pub fn explain_bad_line<F: Files>(
    alloc: Global,
    files: &mut F,
    place: &Location<'_>,
    reason: Result<String, AllocError>,
)
    ensures kept { F.bytes files.new ≡ F.bytes files.old }
{
    let words = match reason {
        Ok(reason) => format!(in alloc; "{reason} (bad line)"),
        Err(error) => Err(error),
    };
    explain(alloc, files, place, words);
}

/// Says why a file could not be used so (703).
pub fn explain_trouble<F: Files>(alloc: Global, files: &mut F, name: &str, access: Access)
    ensures kept { F.bytes files.new ≡ F.bytes files.old }
{
    if let Ok(trouble) = files.trouble(alloc, name, access) {
        explain_numbered(alloc, files, &Location::file(name), &trouble, 703);
    }
}

/// The first bytes of a file, `most` at most. Says why it was not read, if that is so.
pub fn read_explained<F: Files>(
    alloc: Global,
    files: &mut F,
    name: &str,
    most: u64,
) -> Result<Vec<u8>, FileFault>
    ensures bytes { IfOk result
        (λ v. IfSome (F.bytes files.old name.now) (λ bytes. v.items ≡ take most bytes)) }
    ensures kept { F.bytes files.new ≡ F.bytes files.old }
    ensures input { OnOk result (F.input_bytes files.new ≡ F.input_bytes files.old) }
{
    let read = read_at_most(alloc, files, name, most);
    explain_read(alloc, files, name, &read);
    read
}

/// All the bytes of a file. Says why they were not read, if that is so.
pub fn read_all_explained<F: Files>(
    alloc: Global,
    files: &mut F,
    name: &str,
) -> Result<Vec<u8>, FileFault>
    ensures bytes { IfOk result (λ v. IsHeld (F.bytes files.old name.now) v.items) }
    ensures kept { F.bytes files.new ≡ F.bytes files.old }
    ensures input { OnOk result (F.input_bytes files.new ≡ F.input_bytes files.old) }
{
    let read = read_all(alloc, files, name);
    explain_read(alloc, files, name, &read);
    read
}

/// Says why a file was not read, if that is so, unless it is for want of memory.
pub fn explain_read<F: Files>(
    alloc: Global,
    files: &mut F,
    name: &str,
    read: &Result<Vec<u8>, FileFault>,
)
    ensures unchanged { OnOk read.now (files.new ≡ files.old) }
    ensures kept { F.bytes files.new ≡ F.bytes files.old }
{
    if matches!(read, Err(FileFault::Device)) {
        explain_trouble(alloc, files, name, Access::Read);
    }
}

/// Says at a place why a task failed, for want of memory, by a simulation or by seats. Of another
/// failure more is said where it is found, and nothing here.
pub fn explain_failure<F: Files>(
    alloc: Global,
    files: &mut F,
    place: &Location<'_>,
    failure: &Failure,
)
    ensures kept { F.bytes files.new ≡ F.bytes files.old }
{
    if let Some(words) = failure_words(alloc, failure) {
        explain(alloc, files, place, words);
    }
}
