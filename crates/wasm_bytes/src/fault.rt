//! Why an item could not be read.

ghost use Rattle.std.specs.Prelude.{◌≡◌};
ghost use Rattle.wasm_bytes.specs.FaultNumbers.{number_of};

/// What is wrong.
#[derive(Clone, Copy, Debug, Drop, PartialEq, Eq)]
pub enum FaultKind {
    /// The bytes end inside the item.
    EndedEarly,
    /// The number is too long, or its unused bits are wrong.
    BadNumber,
    /// The name is not UTF-8.
    NotUtf8,
}

impl FaultKind {
    /// The number of the fault: 103, 104 or 109.
    pub fn number(self) -> u16
        ensures { result ≡ number_of self }
    {
        match self {
            FaultKind::EndedEarly => 103,
            FaultKind::BadNumber => 104,
            FaultKind::NotUtf8 => 109,
        }
    }
}

/// What is wrong, and where.
#[derive(Clone, Copy, Debug, Drop, PartialEq, Eq)]
pub struct ByteFault {
    /// What is wrong.
    pub kind: FaultKind,
    /// The offset in bytes: of the end, where the bytes ended early, and else of the item's first
    /// byte.
    pub offset: usize,
}
