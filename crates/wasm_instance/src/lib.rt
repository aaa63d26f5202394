//! Instances of WebAssembly modules (Core 1.0, section 4.2.5): what code may change outside its
//! frame.
//!
//! An `Instance` holds the memory and the globals of a module, and the table that indirect calls go
//! by. `Instance::new` makes the fresh one, from which each invocation starts. A `Memory` lays out
//! only its front; the zeros behind it are nowhere written. Loads and stores test once that they
//! lie within the front, and take no memory of the machine; a growth of the memory does. Contracts
//! see an instance as a `State`, and say what each call gives in the words of the meaning
//! (`specs/Accesses.antt`). Nothing is tested here that validation has shown.
//!
//! [`host_cost`] and [`grow_cost`] are what a call of the host and a growth of the memory cost, and
//! [`same_func_type`] is what an indirect call tests.
#![tactic(auto)]

mod access;
mod cost;
mod fresh;
mod instance;
mod memory;
mod types;

pub use cost::{grow_cost, host_cost};
pub use instance::Instance;
pub use memory::Memory;
pub use types::same_func_type;
