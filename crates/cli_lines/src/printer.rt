//! Where lines are printed.

ghost use Rattle.std.specs.Prelude.{◌≡◌, ◌<◌, true, false, IfErr, IfOk, IfSome, OnOk, OnErr};
ghost use Rattle.std.specs.Io.KnownBytes.{Appends, Keeps};
ghost use Rattle.cli_lines.specs.Told.{IsBrokenOff, Prints, PrintsNothing, Says, Tells, Told, nothing_told};

use crate::failure::Failure;
use std::alloc::Global;
use std::fmt::Display;
use std::io::{self, BufWriter, ErrorKind, Write};
use std::marker::Model;

/// A writer on which texts are printed, behind a buffer. It keeps how many were, whether one could
/// not be, and whether one may wait in the buffer. Contracts see this, the bytes that were printed,
/// behind those that the writer held, and those that the writer holds, where they are known.
#[derive(Drop)]
pub struct Printer<'w, W: Write> {
    out: BufWriter<&'w mut W>,
    printed: u64,
    has_failed: bool,
    /// Whether texts were printed since all was handed on.
    waits: bool,
}

impl<'w, W: Write> Model for Printer<'w, W> {
    ghost use Rattle.std.specs.Io.Buffered.{writer_contents, writer_inner};
    ghost use Rattle.cli_lines.specs.Told.{Told};

    ghost Value = { Told };

    ghost view = { λ p.
        record {
          printed = p.printed;
          failed = p.has_failed;
          waits = p.waits;
          bytes = writer_contents (λ w. W.contents w.now) p.out;
          handed = W.contents (writer_inner p.out).now;
        } };
}

impl<'w, W: Write> Printer<'w, W> {
    /// Nothing was printed yet.
    pub fn new(alloc: Global, out: &'w mut W) -> io::Result<Printer<'w, W>>
        ensures { IfOk result (λ p. p ≡ nothing_told (W.contents out.old)) }
    {
        Ok(Printer {
            out: BufWriter::new(alloc, out)?,
            printed: 0,
            has_failed: false,
            waits: false,
        })
    }

    /// Prints a text, by `write!` and `writeln!`. Refused where the writer refuses it, and behind
    /// 2^64 - 1 texts.
    pub fn write_fmt<D: Display + Drop>(&mut self, text: D) -> Result<(), Failure>
        ensures tells { Tells self.old self.new result }
        ensures printed { OnOk result (self.old.printed < self.new.printed) }
        ensures text { OnOk result
            (IfSome (D.output text) (Appends self.old.bytes self.new.bytes)) }
        ensures prints { OnOk result (IfSome (D.output text) (Prints self.old self.new)) }
        ensures waits { OnOk result (self.new.waits ≡ true) }
        ensures failed { OnErr result (self.new.failed ≡ true) }
        ensures nothing { OnErr result (PrintsNothing self.old self.new) }
        ensures lost { IfErr result IsBrokenOff }
    {
        let Some(printed) = self.printed.checked_add(1) else {
            self.has_failed = true;
            return Err(Failure::Output);
        };
        self.waits = true;
        match self.out.write_fmt(text) {
            Ok(()) => {
                self.printed = printed;
                Ok(())
            }
            Err(error) => {
                self.has_failed = true;
                Err(reason(&error))
            }
        }
    }

    /// Hands on what was printed: then the writer holds all of it. Refused where the writer refuses
    /// it.
    pub fn flush(&mut self) -> Result<(), Failure>
        ensures tells { Tells self.old self.new result }
        ensures printed { self.new.printed ≡ self.old.printed }
        ensures bytes { Keeps self.old.bytes self.new.bytes }
        ensures handed { OnOk result (Keeps self.new.bytes self.new.handed) }
        ensures handed_on { OnOk result (self.new.waits ≡ false) }
        ensures failed { OnErr result (self.new.failed ≡ true) }
        ensures nothing { OnErr result (PrintsNothing self.old self.new) }
        ensures lost { IfErr result IsBrokenOff }
    {
        match self.out.flush() {
            Ok(()) => {
                self.waits = false;
                Ok(())
            }
            Err(error) => {
                self.has_failed = true;
                Err(reason(&error))
            }
        }
    }
}

/// Why a text could not be printed.
fn reason(error: &io::Error) -> Failure
    ensures says { (before after : Told) → after.failed ≡ true → Says before after result }
    ensures lost { IsBrokenOff result }
{
    if error.kind() == ErrorKind::OutOfMemory {
        Failure::Memory
    } else {
        Failure::Output
    }
}
