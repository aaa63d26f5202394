//! Grammars of bytes, put together from parts, and what it means to read one.
//!
//! A *spelling* says, for a value, which lists of bytes spell it: a relation, written as a format's
//! document writes its grammar, one part after another (`specs/Spelling.antt`). A *reading
//! function* gives the value at the front of a list of bytes and the bytes after it, or nothing
//! (`specs/Reading.antt`). That a reading function *reads* a spelling (`specs/Reads.antt`) says
//! both ways that they fit: what it gives is spelled at the front, and each spelled value is given,
//! whatever follows. So no two values are spelled by the beginnings of one list of bytes.
//!
//! The laws of `specs/Laws` prove this for a whole from its parts, so that a crate that reads
//! a format proves a line or two for each of its items. There is no code here but one law, and
//! nothing of any one format.
#![tactic(auto)]

ghost use Rattle.grammar.specs.Spelling.{IsByte};
ghost use Rattle.grammar.specs.Reading.{byte_at};
ghost use Rattle.grammar.specs.Reads.{Reads, SpellsOnce};

/// Each byte spells itself, and is read so.
pub fn bytes()
    ensures reads { Reads IsByte byte_at }
    ensures once { SpellsOnce IsByte }
{}
