//! Traps (Core 1.0, section 4.2.2).

ghost use Rattle.std.specs.Prelude.{◌≡◌};
ghost use Rattle.wasm_ast.specs.Traps.{trap_number};

/// Why a run was cut off, with the number that stands for it.
#[derive(Clone, Copy, Debug, PartialEq, Eq)]
pub enum Trap {
    Unreachable = 1,
    DivideByZero = 2,
    IntegerOverflow = 3,
    OutOfBounds = 4,
    UndefinedElement = 5,
    UninitializedElement = 6,
    IndirectCallType = 7,
    CallDepth = 8,
}

impl Trap {
    /// The number of the trap, 1 to 8.
    pub fn number(self) -> u8
        ensures { result ≡ trap_number self }
    {
        self as u8
    }
}
