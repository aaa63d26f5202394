//! Places of instructions.

use std::fmt::{self, Display, Formatter, Write};

/// The place of an instruction in a module.
#[derive(Clone, Copy, Debug, PartialEq, Eq)]
pub struct Position {
    /// The index of the function among the defined ones.
    pub function: u32,
    /// How many instructions of the body stand before it as the text is read, those inside blocks
    /// included; `end` and `else` are none.
    pub instruction: u32,
}

impl Display for Position {
    ghost use Rattle.std.specs.Prelude.{◌++◌, Some, codes};
    ghost use Rattle.std.specs.Fmt.{decimal};

    ghost output = { λ p. Some (decimal p.function ++ codes ":" ++ decimal p.instruction) };

    fn fmt<W: Write>(&self, f: &mut Formatter<W>) -> fmt::Result {
        write!(f, "{}:{}", self.function, self.instruction)
    }
}
