//! The host of chaincode: what the functions that it imports answer, and what they record.
//!
//! `specs/HostStep.antt` has the meaning of each call, as a step on the memory and on what was
//! recorded, over a plain state and what the execution is given. `Recorder` does these steps over any
//! `View` of a state, and gives at the end what a payload is made of. `specs/Executing.antt` says
//! what the execution of a module comes to, and `reads_alone` that it depends only on what it read.
//!
//! Reads look at the state alone, also after the same run wrote the key. Writes are recorded, and
//! change nothing that a run sees.
#![tactic(auto)]

ghost use Rattle.std.specs.Prelude.{◌≡◌, ℕ};
ghost use Rattle.wasm_ast.specs.declared.module.Module.{Module};
ghost use Rattle.wasm_typing.specs.ModuleRules.{IsValid};
ghost use Rattle.ledger_model.specs.Views.{Versioned, values_of};
ghost use Rattle.host_api.specs.Given.{Given};
ghost use Rattle.host_api.specs.HostStep.{host_step};
ghost use Rattle.host_api.specs.Executing.{ReadsAlone, outcome};

mod given;
mod keyed;
mod memory;
mod plain_map;
mod ranges;
mod recorder;
mod refusal;
mod view;

pub use given::Given;
pub use plain_map::PlainMap;
pub use recorder::{Parts, Recorder};
pub use view::{View, look_up};

/// The execution of a valid module depends only on what it read: what it saw is so, and on each
/// state where that is so it comes to the same.
pub fn reads_alone()
    ensures { (wasm : Module) (fuel : ℕ) (given : Given) → IsValid wasm →
        ReadsAlone wasm fuel given }
{}

/// Views whose states have the same values answer and record alike, whatever their versions: in
/// each call (`step`) and over a whole execution (`execution`).
pub fn equal_views()
    ensures step { (a b : Versioned) → values_of a ≡ values_of b → (given : Given) →
        host_step (values_of a) given ≡ host_step (values_of b) given }
    ensures execution { (a b : Versioned) → values_of a ≡ values_of b →
        (wasm : Module) (fuel : ℕ) (given : Given) →
        outcome wasm fuel given (values_of a) ≡ outcome wasm fuel given (values_of b) }
{}
