//! A module, from the bytes of its file.

ghost use Rattle.std.specs.Prelude.{◌≡◌, IfOk, IfErr};
ghost use Rattle.wasm_decode.specs.ModuleSpelling.{IsModule};
ghost use Rattle.wasm_typing.specs.ModuleRules.{IsValid};
ghost use Rattle.wasm_file.specs.Modules.{NoModule, IsDefinedBy};
ghost use Rattle.wasm_file.specs.declared.module.ModuleRefusal.TheVariants.{Memory};

use std::alloc::{AllocError, AllocFailed, Global};
use std::error::Error;
use std::fmt::{self, Display, Formatter, Write};
use wasm_decode::{DecodeFault, FaultKind, decode_as};
use wasm_profile::Profile;
use wasm_validate::{ValidModule, ValidateFault, validate};

/// Why bytes give no valid module of a profile.
#[derive(Clone, Copy, Debug, PartialEq, Eq)]
pub enum ModuleRefusal {
    /// Want of memory.
    Memory,
    /// The bytes spell no module of the profile: what is wrong first, and the offset of it.
    Malformed(FaultKind, usize),
    /// The module is not valid.
    Invalid(ValidateFault),
}

impl Display for ModuleRefusal {
    ghost use Rattle.std.specs.Prelude.{Some};
    ghost use Rattle.wasm_file.specs.Texts.{refusal_text};

    ghost output = { λ r. Some (refusal_text r) };

    fn fmt<W: Write>(&self, f: &mut Formatter<W>) -> fmt::Result {
        match self {
            ModuleRefusal::Memory => write!(f, "refused 9"),
            ModuleRefusal::Malformed(kind, offset) => {
                write!(f, "refused {} at {offset}", kind.number())
            },
            ModuleRefusal::Invalid(fault) => write!(f, "refused {}", fault.number()),
        }
    }
}

impl Error for ModuleRefusal {}

impl From<AllocError> for ModuleRefusal {
    ghost from_gives = { λ _ r. r ≡ Memory };

    fn from(_refused: AllocError) -> ModuleRefusal {
        ModuleRefusal::Memory
    }
}

impl<T: Drop> From<AllocFailed<T>> for ModuleRefusal {
    ghost from_gives = { λ _ r. r ≡ Memory };

    fn from(_refused: AllocFailed<T>) -> ModuleRefusal {
        ModuleRefusal::Memory
    }
}

impl From<DecodeFault> for ModuleRefusal {
    ghost use Rattle.wasm_file.specs.Modules.{decode_refusal};

    ghost from_gives = { λ e r. r ≡ decode_refusal e };

    fn from(fault: DecodeFault) -> ModuleRefusal {
        match fault {
            DecodeFault::Memory => ModuleRefusal::Memory,
            DecodeFault::Malformed(kind, offset) => ModuleRefusal::Malformed(kind, offset),
        }
    }
}

impl From<ValidateFault> for ModuleRefusal {
    ghost use Rattle.wasm_file.specs.Modules.{IsOfRule};

    ghost from_gives = { IsOfRule };

    fn from(fault: ValidateFault) -> ModuleRefusal {
        match fault {
            ValidateFault::Memory => ModuleRefusal::Memory,
            fault => ModuleRefusal::Invalid(fault),
        }
    }
}

/// The valid module of a profile that the bytes spell.
///
/// Refused where they spell none of the profile, where it is not valid, and for want of memory.
pub fn valid_module(
    alloc: Global,
    bytes: &[u8],
    profile: Profile,
) -> Result<ValidModule, ModuleRefusal>
    ensures ok { IfOk result (λ v. IsModule profile v bytes.now × IsValid v) }
    ensures refused { IfErr result (λ r. NoModule profile bytes.now r) }
{
    let module = decode_as(alloc, bytes, profile)?;
    Ok(validate(alloc, module)?)
}

/// How many functions the valid module of a profile that the bytes spell defines. Imports are not
/// among them.
///
/// Refused where the bytes spell no module of the profile, where the module is not valid, and for
/// want of memory.
pub fn defined_functions(
    alloc: Global,
    bytes: &[u8],
    profile: Profile,
) -> Result<usize, ModuleRefusal>
    ensures ok { IfOk result (λ n. IsDefinedBy profile bytes.now n) }
    ensures refused { IfErr result (λ r. NoModule profile bytes.now r) }
{
    let module = valid_module(alloc, bytes, profile)?;
    Ok(module.module().functions.len())
}
