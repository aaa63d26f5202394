//! Why bytes give no valid module, in one sentence for those who wrote the module.
//!
//! The sentence says where the fault is, and what it is by the program's table of numbers. It is
//! made by functions that look at the bytes once more, beside the exact readers, whose answer they
//! take as given: in bytes that spell no module they go to the offset of the fault, and of a module
//! that is not valid they ask the exact readers again, for less and less of it.
#![tactic(auto)]

mod cut;
mod items;
mod operators;
mod place;
mod reader;
mod reason;
mod search;
mod section;

pub use reason::module_reason;
