//! Hosts: what a module imports.

ghost use Rattle.std.specs.Prelude.{◌≡◌, length, IfOk};
ghost use Rattle.wasm_typing.specs.HostCalls.{arity};
ghost use Rattle.wasm_meaning.specs.Values.{Answering};

use std::alloc::AllocError;
use wasm_ast::{HostAnswer, HostCall};
use wasm_instance::Memory;

/// What a module imports. A host answers calls and records what they were.
///
/// Its answers depend on the call, the arguments, the memory and the records so far alone:
/// `answers` is that function, and no call changes it. After want of memory a host is only to be
/// dropped.
pub trait Host {
    // What is recorded.
    ghost Records: { Type 0 };
    // What a host has recorded so far.
    ghost records: { Self → Self.Records };
    // What it answers.
    ghost answers: { Self → Answering Self.Records };
    // What else it was opened with.
    ghost Context: { Type 0 };
    // What it was opened with, which no call changes.
    ghost context: { Self → Self.Context };

    /// One call, with its arguments in order and the memory, which it may write.
    ///
    /// `AllocError` where there is no room for what is recorded.
    fn call(
        &mut self,
        which: HostCall,
        args: &[u32],
        memory: &mut Memory,
    ) -> Result<HostAnswer, AllocError>
        requires { length args.now ≡ arity which }
        ensures answer { IfOk result
            (λ a. Self.answers self.old which args.now memory.old (Self.records self.old)
            ≡ record { answer = a; memory = memory.new; records = Self.records self.new }) }
        ensures stays { IfOk result (λ _. Self.answers self.new ≡ Self.answers self.old) }
        ensures keeps { IfOk result (λ _. Self.context self.new ≡ Self.context self.old) };
}
