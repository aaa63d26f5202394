//! Validation of WebAssembly modules (Core 1.0, chapter 3), cut to the integer profile of Regtuma.
//!
//! `validate` takes a module in and gives it back as a `ValidModule`, whose type keeps the fact
//! that the module is valid, or answers a `ValidateFault` with the number of a rule that the module
//! breaks.
//!
//! `validate` accepts only valid modules, and but for want of memory it refuses only modules that
//! are not valid. The rules and their test are of `wasm_typing`, whose fault is handed on.
//!
//! What a run would otherwise search for by name, the calls of the imports and the index of
//! `invoke`, a `ValidModule` keeps, and the flat code of its functions (`wasm_translate`).
#![tactic(auto)]

mod valid;

pub use valid::{ValidModule, validate};
pub use wasm_ast::arity;
pub use wasm_typing::{ValidateFault, is_type_of_call};
