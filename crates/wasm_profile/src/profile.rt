//! A profile and its number.

ghost use Rattle.std.specs.Prelude.{◌≡◌};
ghost use Rattle.wasm_profile.specs.Numbers.{number_of, profile_of};

use std::fmt::{self, Display, Formatter, Write};

/// Which instructions a module may have.
#[derive(Clone, Copy, PartialEq, Eq, Debug)]
pub enum Profile {
    /// Profile 1: WebAssembly Core 1.0 cut to integers.
    Core1,
    /// Profile 2: profile 1 and the five sign-extension operators of Core 2.0.
    SignExtension,
}

impl Profile {
    /// The profile of this number. None unless it is 1 or 2.
    pub fn of_number(number: u8) -> Option<Profile>
        ensures { result ≡ profile_of number }
    {
        match number {
            1 => Some(Profile::Core1),
            2 => Some(Profile::SignExtension),
            _ => None,
        }
    }

    /// The number, 1 or 2.
    pub fn number(self) -> u8
        ensures { result ≡ number_of self }
    {
        match self {
            Profile::Core1 => 1,
            Profile::SignExtension => 2,
        }
    }
}

/// The number.
impl Display for Profile {
    ghost use Rattle.std.specs.Prelude.{Some};
    ghost use Rattle.std.specs.Fmt.{decimal};

    ghost output = { λ p. Some (decimal (number_of p)) };

    fn fmt<W: Write>(&self, f: &mut Formatter<W>) -> fmt::Result {
        write!(f, "{}", self.number())
    }
}
