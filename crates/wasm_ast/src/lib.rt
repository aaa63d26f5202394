//! WebAssembly modules as trees (Core 1.0, chapter 2), cut to the integer profile of Regtuma.
//!
//! In memory an instruction is one flat enum of at most 16 bytes, whose children are boxed.
//! Contracts see a body as `Code` (`specs/Code.antt`): a tree in which each constructor holds what
//! follows, with plain instructions grouped by shape as an `Op`. So the module in a clause is the
//! module of every definition (spelling, typing, meaning), and modules are compared by value.
#![tactic(auto)]

mod body;
mod functions;
mod host_call;
mod module;
mod name;
mod operators;
mod position;
mod trap;
mod types;

pub use body::{Block, Body, BranchTable, Conditional, Instr, MemoryArgument};
pub use functions::{Functions, Parameters};
pub use host_call::{HostAnswer, HostCall, arity};
pub use module::{
    DataSegment, ElementSegment, Export, ExternalKind, Func, Global, Import, ImportKind, Module,
};
pub use name::Name;
pub use operators::{BinaryOp, CompareOp, ConvertOp, LoadOp, StoreOp, UnaryOp};
pub use position::Position;
pub use trap::Trap;
pub use types::{BlockType, FuncType, GlobalType, Limits, ValueType};
