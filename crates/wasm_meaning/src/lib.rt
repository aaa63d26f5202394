//! What WebAssembly code means (Core 1.0, chapter 4), cut to the integer profile of Regtuma, and
//! the laws of that meaning.
//!
//! Nothing here runs. The definitions are in `specs/`, and the interpreter is proved against them.
//! Each function below is a law: its body is empty, and its contract is the fact that is proved.
//! Contracts above cite the same facts as the lemmas of `specs/Laws`.
//!
//! # The definitions, in reading order
//!
//! - `Values.antt`: values, and where instructions lead (sections 4.2.1, 4.2.2); the world outside
//!   a frame, which is the memory, the globals and what the host has recorded; a host, as a
//!   function of the call, its arguments, the memory and the records alone; a program, as what code
//!   may call.
//! - `Memory.antt`: the bytes that loads read and stores write, and how a memory grows (4.2.8,
//!   4.4.4).
//! - `Meaning.antt`: what code does, by recursion on its tree: `leaf` for plain instructions
//!   (sections 4.4.1 to 4.4.5), `tree` for lists and blocks (4.4.6), `call_function`, `call_host`
//!   and `call_entry` for calls (4.4.7). A loop and a call go on by `again`, the meaning with less
//!   fuel.
//! - `Program.antt`: a module as a program, its fresh table, globals and memory (4.5.4), and
//!   `invocation`: what its `invoke` does with a host, its records and fuel (4.5.5).
//! - `Fuel.antt`, `Executed.antt`, `Fine.antt`, `Following.antt`: the words in which the laws are
//!   said.
//!
//! # Costs
//!
//! An instruction costs 1, and `end` and `else` cost nothing. A branch to a loop executes `loop`
//! again, which pays again. A call of the host costs 64 more, and `range_state` with a limit of 1
//! to 64 a further 64 for each entry that the limit allows. `memory.grow` by up to 16 pages costs
//! 64 more for each. An indirect call costs what the call costs, and 1 where it traps before. The
//! invocation itself costs nothing.
//!
//! The cost is taken before any effect and before any trap. With less fuel left than the cost, the
//! run ends as `Spent` and the instruction has no effect. A host call and `memory.grow` pay their 1
//! first and the rest once their operands are known. These two payments are as good as one: `Spent`
//! carries no fuel, and nothing has an effect between them.
//!
//! # Memory
//!
//! A memory grows to its declared greatest size, and to 16 pages at most. `memory.grow` answers the
//! old size, or -1 where the new one would be above that, and nothing else makes it fail. An access
//! is at the operand plus the offset, as an unbounded sum, and traps where some byte of it lies
//! past the end.
//!
//! # Indirect calls
//!
//! An indirect call is tested in this order: the table has no such entry (`UndefinedElement`), the
//! entry has no function (`UninitializedElement`), its function is of another type
//! (`IndirectCallType`), and the depth.
//!
//! # Depth
//!
//! `invoke` has depth 1. A call of a module's function from depth 64 is the trap `CallDepth`. Calls
//! of the host have no depth.
#![tactic(auto)]

ghost use Rattle.std.specs.Prelude.{◌≡◌, ◌≢◌, ◌≤◌, ◌+◌, ℕ, List};
ghost use Rattle.wasm_ast.specs.declared.module.Module.{Module};
ghost use Rattle.wasm_ast.specs.Code.{Code};
ghost use Rattle.wasm_typing.specs.Typing.{Context};
ghost use Rattle.wasm_typing.specs.ModuleRules.{IsValid};
ghost use Rattle.wasm_meaning.specs.Values.{Val, World, Stuck, Answering, Program};
ghost use Rattle.wasm_meaning.specs.Meaning.{tree, meaning};
ghost use Rattle.wasm_meaning.specs.Program.{invocation};
ghost use Rattle.wasm_meaning.specs.Fuel.{fuel_left};
ghost use Rattle.wasm_meaning.specs.Executed.{executed, executed_by};
ghost use Rattle.wasm_meaning.specs.Fine.{IsEnding, IsTypedProgram, IsSound};
ghost use Rattle.wasm_meaning.specs.Following.{Ends, Follows};

/// What code does is one level of its tree, over the same meaning of what is inside. The bound on
/// loops and calls by which the meaning is defined has gone.
pub fn one_level<R>()
    ensures { (p : Program R) (depth : ℕ) (code : Code) (fuel : ℕ) (stack locals : List Val)
        (world : World R) →
        meaning p depth code fuel stack locals world
        ≡ tree p (meaning p) depth code fuel stack locals world }
{}

/// Neither code nor `invoke` leaves more fuel than it was given.
pub fn within_fuel<R>()
    ensures code { (p : Program R) (depth : ℕ) (code : Code) (fuel : ℕ) (stack locals : List Val)
        (world : World R) →
        fuel_left (meaning p depth code fuel stack locals world) ≤ fuel }
    ensures invocation { (m : Module) (host : Answering R) (records : R) (fuel : ℕ) →
        fuel_left (invocation m host records fuel) ≤ fuel }
{}

/// No more instructions are executed than fuel is used: each pays at least 1 before anything else.
pub fn instructions_within_fuel<R>()
    ensures code { (p : Program R) (depth : ℕ) (code : Code) (fuel : ℕ) (stack locals : List Val)
        (world : World R) →
        executed p depth code fuel stack locals world +
        fuel_left (meaning p depth code fuel stack locals world)
        ≤ fuel }
    ensures invocation { (m : Module) (host : Answering R) (records : R) (fuel : ℕ) →
        executed_by m host records fuel + fuel_left (invocation m host records fuel) ≤ fuel }
{}

/// Code that is typed, on operands, locals and globals of its types, leads to operands, locals and
/// globals of the types that the rules say, whatever the host answers. The context says what the
/// module of the program has.
pub fn typed_is_fine<R>()
    ensures { (c : Context) (p : Program R) → IsTypedProgram c p → IsSound c (meaning p) }
{}

/// `invoke` of a valid module is never stuck, whatever the host answers. It ends with one i32, a
/// trap or its fuel spent.
pub fn never_stuck<R>()
    ensures moves { (m : Module) (host : Answering R) (records : R) (fuel : ℕ) → IsValid m →
        invocation m host records fuel ≢ Stuck }
    ensures ends { (m : Module) (host : Answering R) (records : R) (fuel : ℕ) → IsValid m →
        IsEnding (invocation m host records fuel) }
{}

/// A fact of what a host has recorded.
pub trait Fact {
    ghost Records: { Type 0 };

    ghost holds: { Records → Type 0 };
}

/// An execution follows the answers along it, and nothing else of its host. `Follows` says that
/// where the fact holds after a call, it held before it and the two hosts answer that call alike.
/// So where it holds at the end, the executions on the two hosts are the same.
pub fn follows_host<F: Fact>()
    ensures { (m : Module) (h g : Answering F.Records) → Follows h g F.holds →
        (records : F.Records) (fuel : ℕ) → Ends F.holds (invocation m h records fuel) →
        invocation m h records fuel ≡ invocation m g records fuel }
{}
