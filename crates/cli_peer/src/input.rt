//! The lines of the standard input, as they come.

ghost use Rattle.std.specs.Prelude.{◌≡◌, ◌==◌, IfErr, IfOk, option_map};
ghost use Rattle.std.specs.List.{position};
ghost use Rattle.cli_lines.specs.Told.{IsBrokenOff, IsSilent};
ghost use Rattle.cli_peer.specs.Input.{IsEnded, IsNext, IsTaken, is_at_hand};

use cli_lines::{Failure, Files, Location, STANDARD_INPUT, explain_numbered};
use std::alloc::{AllocError, Global};
use std::io::{BufRead, BufReader, Read};
use std::marker::Model;
use std::mem;

/// So many bytes are asked for at a time.
const CAPACITY: usize = 65_536;

/// What is wrong where it fails.
const NOT_READ: &str = "it cannot be read to its end";

/// A reader of lines. Contracts see the line that was read last, the bytes behind it, where they
/// are known, and those of them that were read with it.
#[derive(Drop)]
pub(crate) struct InputLines<R: Read> {
    input: BufReader<R>,
    line: Vec<u8>,
}

impl<R: Read> Model for InputLines<R> {
    ghost use Rattle.std.specs.Io.Buffered.{reader_buffer, reader_remaining};
    ghost use Rattle.cli_peer.specs.Input.{Input};

    ghost Value = { Input };

    ghost view = { λ lines.
        record {
          last = lines.line.items;
          left = reader_remaining R.remaining lines.input;
          ahead = reader_buffer lines.input;
        } };
}

impl<R: Read + Drop> InputLines<R> {
    /// The lines of an input, from where it was read to.
    pub fn new(alloc: Global, input: R) -> Result<InputLines<R>, Failure>
        ensures whole { IfOk result (λ lines. lines.left ≡ R.remaining input) }
        ensures silent { IfErr result IsSilent }
        ensures lost { IfErr result IsBrokenOff }
    {
        Ok(InputLines {
            input: BufReader::with_capacity(alloc, CAPACITY, input)?,
            line: Vec::new(alloc),
        })
    }

    /// Reads the next line. Answers whether there is one: a line is read with its end.
    fn read_next(&mut self) -> Result<bool, Failure>
        ensures next { IfOk result (λ there. IsNext there self.old self.new) }
        ensures silent { IfErr result IsSilent }
        ensures lost { IfErr result IsBrokenOff }
    {
        self.line.clear();
        self.input.read_until(b'\n', &mut self.line)?;
        Ok(take_end(&mut self.line))
    }

    /// The same. Says why the input was not read, if it was not.
    pub(crate) fn read_explained<F: Files>(
        &mut self,
        alloc: Global,
        files: &mut F,
    ) -> Result<bool, Failure>
        ensures next { IfOk result (λ there. IsNext there self.old self.new) }
        ensures silent { IfErr result IsSilent }
        ensures lost { IfErr result IsBrokenOff }
        ensures kept { F.bytes files.new ≡ F.bytes files.old }
    {
        let next = self.read_next();
        if let Err(Failure::File) = &next {
            explain_numbered(alloc, files, &Location::file(STANDARD_INPUT), NOT_READ, 703);
        }
        next
    }

    /// Takes the line that was read last, without its end.
    pub(crate) fn take_last(&mut self, alloc: Global) -> Vec<u8>
        ensures line { result.items ≡ self.old.last }
        ensures left { self.new.left ≡ self.old.left }
        ensures ahead { self.new.ahead ≡ self.old.ahead }
    {
        mem::replace(&mut self.line, Vec::new(alloc))
    }

    /// Takes the next line, without its end, if it was read with the last one. It waits for nothing.
    pub(crate) fn take_at_hand(&mut self, alloc: Global) -> Result<Option<Vec<u8>>, AllocError>
        ensures { IfOk result
            (λ l. IsTaken (option_map (λ v. v.items) l) self.old self.new) }
    {
        let buffer = self.input.buffer();
        let Some(length) = first_end(buffer) else {
            return Ok(None);
        };
        let line = buffer[..length].to_vec(alloc)?;
        self.input.consume(length + 1);
        Ok(Some(line))
    }

    /// Whether a further line was read with the last one.
    pub(crate) fn is_at_hand(&self) -> bool
        ensures { result ≡ is_at_hand self.now }
    {
        self.input.buffer().contains(&b'\n')
    }
}

/// How many bytes stand before the first end of a line, if these bytes have one.
fn first_end(bytes: &[u8]) -> Option<usize>
    ensures { result ≡ position (λ b. b == 10) bytes.now }
{
    bytes.iter().position(|byte| *byte == b'\n')
}

/// Takes the end off a line. Answers whether it has one.
fn take_end(line: &mut Vec<u8>) -> bool
    ensures { IsEnded result line.old.items line.new.items }
{
    matches!(line.pop(), Some(b'\n'))
}
