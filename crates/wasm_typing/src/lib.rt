//! The typing of WebAssembly modules (Core 1.0, chapter 3), cut to the integer profile of Regtuma.
//!
//! `check_module` tests whether a module is valid, and answers what a run looks up in it by name,
//! or a `ValidateFault` with the number of a rule that the module breaks. `wasm_validate` stands
//! above, with the type that keeps the fact.
//!
//! - `specs/Typing.antt` has the typing rules of code, and `specs/ModuleRules.antt` what makes a
//!   module valid. `specs/Broken.antt` says which rule each fault says is broken.
//! - The check is one pass over the tree with one stack of operands and one of labels for each
//!   function (Core 1.0, appendix A.3). Rules are tested by section in ascending order, and the
//!   first that is broken is answered.
#![tactic(auto)]

mod accesses;
mod code;
mod exports;
mod fault;
mod globals;
mod host_calls;
mod imports;
mod labels;
mod limits;
mod numbers;
mod operands;
mod plain;
mod scope;
mod sections;
mod segments;
mod shapes;
mod variables;

pub use fault::ValidateFault;
pub use host_calls::{call_named, is_type_of_call};
pub use sections::{Resolved, check_module};
