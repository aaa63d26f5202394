//! The reduction of WebAssembly code (Core 1.0, chapter 4), cut to the integer profile of Regtuma,
//! and that the meaning by which chaincode runs is the reduction's.
//!
//! - `specs/Reduction.antt` writes the small steps of the standard: on nested labels and frames,
//!   one instruction at a time, its cost taken first. It shares tables and operators with the
//!   meaning of `wasm_meaning`, and none of its recursion.
//! - The laws say that the meaning of code is some number of these steps, within any labels and
//!   frames; that a valid module's `invoke` ends as the meaning says, as a run of `interp` does,
//!   never stuck, and in one way.
//! - [`Stepper`] takes one reduction at a time, and [`run_by_reduction`] takes them to the end.
//!
//! A stepper's configuration is kept by its labels and frames, the innermost last, each with the
//! values before it and the instructions after it (`specs/View.antt`). Each of its parts is proved
//! for every configuration, so none asks for typed code: where an operand is missing the flow is
//! `Stuck`, which no run of a valid module comes to.
#![tactic(auto)]

mod configuration;
mod laws;
mod memory;
mod names;
mod operands;
mod parts;
mod runs;
mod stepper;
mod values;
mod variables;

pub use laws::{ends_as_meant, ends_as_run, ends_once, never_stuck, within_labels_and_frames};
pub use runs::run_by_reduction;
pub use stepper::Stepper;
