//! Why a definition cannot be used.

ghost use Rattle.std.specs.Prelude.{◌≡◌};
ghost use Rattle.endorsement_policy.specs.Faults.{definition_number};

use std::error::Error;
use std::fmt::{self, Display, Formatter, Write};

/// Why a definition cannot be used.
#[derive(Clone, Copy, Debug, Drop, PartialEq, Eq)]
pub enum DefinitionFault {
    /// No module of its digest and profile is installed.
    NotInstalled = 406,
    /// Its text is no policy.
    BadPolicy = 407,
}

impl DefinitionFault {
    /// The number of the fault: 406 or 407.
    pub fn number(self) -> u16
        ensures { result ≡ definition_number self }
    {
        self as u16
    }
}

impl Display for DefinitionFault {
    ghost use Rattle.std.specs.Prelude.{◌++◌, Some, codes};
    ghost use Rattle.std.specs.Fmt.{decimal};

    ghost output = { λ f. Some (codes "refused " ++ decimal (definition_number f)) };

    fn fmt<W: Write>(&self, f: &mut Formatter<W>) -> fmt::Result {
        write!(f, "refused {}", self.number())
    }
}

impl Error for DefinitionFault {}
