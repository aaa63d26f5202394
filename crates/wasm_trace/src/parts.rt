//! The parts of a configuration.

use wasm_ast::{Block, BlockType, Func, FuncType, Instr, Trap, ValueType};

/// A word with its type.
#[derive(Clone, Copy)]
pub(crate) enum Value {
    I32(u32),
    I64(u64),
}

/// What stands before the instructions that are left.
#[derive(Clone, Copy)]
pub(crate) enum Front<'m> {
    Nothing,
    /// A branch that another instruction became.
    Branch(u32),
    /// The `local.set` that a `local.tee` became.
    Set(u32),
    /// The block that an invocation puts round a body.
    Body(BlockType, &'m [Instr]),
    /// A loop that a branch came to.
    Again(&'m Block),
    /// A call of a function of the module, with its type.
    Invoke(&'m FuncType, &'m Func),
    Trap(Trap),
}

/// A label or a frame, with the values before it and the instructions after it.
#[derive(Drop)]
pub(crate) enum Level<'m> {
    Block(BlockType, Vec<Value>, &'m [Instr]),
    Loop(&'m Block, Vec<Value>, &'m [Instr]),
    /// With the locals of the frame outside.
    Frame(BlockType, Vec<Value>, Vec<Value>, &'m [Instr]),
}

/// What an instruction becomes.
#[derive(Clone, Copy)]
pub(crate) enum Turn<'m> {
    /// This, before what follows it.
    On(Front<'m>),
    Spent,
    Stuck,
}

/// What an instruction does.
#[derive(Clone, Copy)]
pub(crate) enum Act<'m> {
    /// It becomes another, within its label.
    Become(Turn<'m>),
    /// It enters a block that leaves this, with this body.
    Enter(BlockType, &'m [Instr]),
    /// It enters a loop.
    Repeat(&'m Block),
    /// A branch out of so many labels and to the next.
    Branch(u32),
    Return,
}

/// What one reduction of the whole is.
#[derive(Clone, Copy)]
pub(crate) enum Flow {
    Continue,
    /// The whole is one value, this word.
    Returned(u32),
    Trapped(Trap),
    Spent,
    /// Never, where the module is valid.
    Stuck,
}
