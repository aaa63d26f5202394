//! How a store ends.

ghost use Rattle.std.specs.Prelude.{◌≡◌};
ghost use Rattle.block_store.specs.End.{end_number};

use std::fmt::{self, Display, Formatter, Write};

/// What stands behind the whole records of a store.
#[derive(Clone, Copy, Debug, Drop, PartialEq, Eq)]
pub enum End {
    /// Nothing: the store is whole.
    Clean,
    /// A record that is not all there, and shows no damage.
    Torn,
    /// A damaged record, by its number from 1 on.
    Damaged(u32),
    /// The device failed before the end was seen.
    DeviceFailed,
}

impl End {
    /// The number by which a refusal names the end: 701 where it is torn, 702 where it is damaged
    /// and 703 where the device failed. A clean end has none.
    pub fn number(self) -> Option<u16>
        ensures { result ≡ end_number self }
    {
        match self {
            End::Clean => None,
            End::Torn => Some(701),
            End::Damaged(_) => Some(702),
            End::DeviceFailed => Some(703),
        }
    }
}

/// `clean`, `701`, `702 block 4` or `703`.
impl Display for End {
    ghost use Rattle.std.specs.Prelude.{Some};
    ghost use Rattle.block_store.specs.End.{end_text};

    ghost output = { λ e. Some (end_text e) };

    fn fmt<W: Write>(&self, f: &mut Formatter<W>) -> fmt::Result {
        match self {
            End::Clean => write!(f, "clean"),
            End::Torn => write!(f, "701"),
            End::Damaged(number) => write!(f, "702 block {number}"),
            End::DeviceFailed => write!(f, "703"),
        }
    }
}
