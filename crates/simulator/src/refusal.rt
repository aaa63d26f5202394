//! Why a proposal gives no payload.

ghost use Rattle.std.specs.Prelude.{◌≡◌};
ghost use Rattle.simulator.specs.RefusalNumber.{refusal_number};

use endorsement_policy::DefinitionFault;
use std::alloc::AllocError;
use std::error::Error;
use std::fmt::{self, Display, Formatter, Write};
use wasm_ast::Trap;

/// Why a proposal gives no payload.
#[derive(Clone, Copy, Debug, PartialEq, Eq)]
pub enum SimRefusal {
    /// The chaincode that is called has no definition that can be used.
    UnknownChaincode,
    /// The module of an upgrade's definition is not installed; or that of an open definition, to
    /// which an upgrade is or under which a call falls, is not at hand.
    NotInstalled,
    /// The policy of an upgrade's definition is refused.
    BadPolicy,
    /// The membership of an amendment is not the next, or cannot be used.
    BadMembership,
    /// The execution was cut off, after it had used this fuel.
    Trapped { kind: Trap, used: u64 },
    /// The execution had less fuel than the next cost.
    Spent,
    /// The execution returned this status, which is not 0.
    Status(u32),
    /// Something that the payload read is not as it was. A simulation never answers it; a recheck
    /// on a newer state does.
    Stale,
    /// Want of memory.
    Memory,
}

impl SimRefusal {
    /// The number by which the program names the refusal: 401 to 408, or 9 for want of memory.
    pub fn number(self) -> u16
        ensures { result ≡ refusal_number self }
    {
        match self {
            SimRefusal::UnknownChaincode => 401,
            SimRefusal::Trapped { .. } => 402,
            SimRefusal::Spent => 403,
            SimRefusal::Status(_) => 404,
            SimRefusal::Stale => 405,
            SimRefusal::NotInstalled => 406,
            SimRefusal::BadPolicy => 407,
            SimRefusal::BadMembership => 408,
            SimRefusal::Memory => 9,
        }
    }
}

/// A status is written as a signed number (two's complement).
impl Display for SimRefusal {
    ghost use Rattle.std.specs.Prelude.{Some};
    ghost use Rattle.simulator.specs.RefusalNumber.{refusal_text};

    ghost output = { λ r. Some (refusal_text r) };

    fn fmt<W: Write>(&self, f: &mut Formatter<W>) -> fmt::Result {
        match self {
            SimRefusal::Trapped { kind, .. } => write!(f, "refused 402 trap {}", kind.number()),
            SimRefusal::Status(status) => {
                let status = (*status).cast_signed();
                write!(f, "refused 404 status {status}")
            }
            refusal => write!(f, "refused {}", refusal.number()),
        }
    }
}

impl Error for SimRefusal {}

impl From<AllocError> for SimRefusal {
    ghost use Rattle.std.specs.Prelude.{◌≡◌};
    ghost use Rattle.simulator.specs.declared.refusal.SimRefusal.TheVariants as refusal;

    ghost from_gives = { λ _ r. r ≡ refusal.Memory };

    fn from(_error: AllocError) -> Self {
        SimRefusal::Memory
    }
}

impl From<DefinitionFault> for SimRefusal {
    ghost use Rattle.std.specs.Prelude.{◌≡◌};
    ghost use Rattle.simulator.specs.Success.{unusable};

    ghost from_gives = { λ e r. r ≡ unusable e };

    fn from(fault: DefinitionFault) -> Self {
        match fault {
            DefinitionFault::NotInstalled => SimRefusal::NotInstalled,
            DefinitionFault::BadPolicy => SimRefusal::BadPolicy,
        }
    }
}
