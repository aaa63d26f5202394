//! The lines of a file of events.

ghost use Rattle.std.specs.Prelude.{◌≡◌, ◌≤◌, ◌<◌, IfErr, IfOk, get_or, length};
ghost use Rattle.cli_lines.specs.Told.{IsBrokenOff, IsSilent};
ghost use Rattle.cli_session.specs.Reading.{IsCut, IsNext, IsPiece, NoEnd};

use cli_lines::Failure;
use std::alloc::Global;
use std::io::{self, BufRead, ErrorKind};

/// How many bytes a line has at most, its end not counted: twice the hex of 524,288 bytes, the most
/// that an envelope can have, which leaves room for the fields around it.
const LONGEST_LINE: usize = 2_097_152;

/// What a file of events has next.
#[derive(Drop)]
pub(crate) enum Next {
    /// A line, without its end.
    Line(Vec<u8>),
    /// A line of more bytes than a line may have. It is not read to its end.
    TooLong,
    /// The end of the file.
    End,
}

/// What became of a line by the bytes that were at hand.
#[derive(Clone, Copy)]
enum Piece {
    /// They all are its own, and more may follow.
    More,
    /// It ended.
    Ended,
    /// There were none: the file has ended.
    NoneLeft,
}

/// How bytes at hand are divided.
#[derive(Clone, Copy)]
struct Cut {
    /// How many are the line's.
    text: usize,
    /// How many are these and the line's end.
    taken: usize,
    piece: Piece,
}

/// Reads the next line of a file of events.
///
/// It reads no further than what is at hand of the line, so that a pipe's lines are done as they
/// come.
pub(crate) fn next_line<B: BufRead>(alloc: Global, lines: &mut B) -> Result<Next, Failure>
    ensures silent { IfErr result IsSilent }
    ensures lost { IfErr result IsBrokenOff }
    ensures next { IfOk result (λ n. IsNext n (B.remaining lines.old) (B.remaining lines.new)) }
{
    let mut line = Vec::new(alloc);
    for _ in 0..usize::MAX {
        let piece = append_piece(lines, &mut line)?;
        if line.len() > LONGEST_LINE {
            return Ok(Next::TooLong);
        }
        match piece {
            Piece::More => {}
            Piece::Ended => return Ok(Next::Line(line)),
            Piece::NoneLeft if line.is_empty() => return Ok(Next::End),
            Piece::NoneLeft => return Ok(Next::Line(line)),
        }
    }
    // So many pieces no line has.
    Err(Failure::File)
}

/// Appends what is at hand of a line, without its end.
fn append_piece<B: BufRead>(lines: &mut B, line: &mut Vec<u8>) -> io::Result<Piece>
    ensures piece { IfOk result
        (λ p. IsPiece p (B.remaining lines.old) (B.remaining lines.new) line.old.items
        line.new.items) }
{
    let available = match lines.fill_buf() {
        Ok(available) => available,
        Err(error) => {
            return if error.kind() == ErrorKind::Interrupted {
                Ok(Piece::More)
            } else {
                Err(error)
            };
        }
    };
    let cut = cut_of(available);
    line.extend_from_slice(&available[..cut.text])?;
    lines.consume(cut.taken);
    Ok(cut.piece)
}

/// How bytes at hand are divided.
fn cut_of(available: &[u8]) -> Cut
    ensures within { (result.text ≤ length available.now) × (result.taken ≤ length available.now) }
    ensures cut { IsCut result.piece available.now result.text result.taken }
{
    let text = count_before_end(available);
    if text < available.len() {
        Cut {
            text,
            taken: text + 1,
            piece: Piece::Ended,
        }
    } else if text > 0 {
        Cut {
            text,
            taken: text,
            piece: Piece::More,
        }
    } else {
        Cut {
            text: 0,
            taken: 0,
            piece: Piece::NoneLeft,
        }
    }
}

/// How many bytes stand before the first end of a line: all, where there is none.
fn count_before_end(bytes: &[u8]) -> usize
    ensures within { result ≤ length bytes.now }
    ensures before { NoEnd bytes.now result }
    ensures end { result < length bytes.now → get_or bytes.now result 0 ≡ 10 }
{
    let mut count = 0;
    while count < bytes.len() {
        if bytes[count] == b'\n' {
            return count;
        }
        count += 1;
    }
    count
}
