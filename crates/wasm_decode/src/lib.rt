//! Modules of WebAssembly, read from their bytes (WebAssembly Core 1.0, chapter 5).
//!
//! [`decode_as`] gives the module of a profile that the bytes spell (`specs/ModuleSpelling.antt`),
//! within the profile's limits, or refuses with the kind and the offset of the first fault. On a
//! fault in the bytes they spell no module of the profile; and by one profile, bytes spell at most
//! one module ([`one_module`]). [`decode`] reads by profile 1.
//!
//! Reading goes once from left to right. No byte is copied but into the module, no list is copied,
//! and the recursion is as deep as blocks may nest.
//!
//! Each opcode and type byte is a row of a table (`specs/Tables.antt`, `specs/Opcodes.antt` and
//! `Operators` of `wasm_operators`), so that a further one is a row there and an arm of a `match`
//! here. The profiles differ by the rows of the sign extensions, which profile 2 has and profile 1
//! has not.
#![tactic(auto)]

mod code;
mod external;
mod fault;
mod functions;
mod item;
pub mod limits;
mod reader;
mod sections;
mod types;

pub use fault::{DecodeFault, FaultKind};
pub use reader::{decode, decode_as, one_module};
