//! Configurations: what is left to do of a run, in nested labels and frames.

ghost use Rattle.std.specs.Prelude.{◌≡◌, ◌≤◌, ◌++◌, ◌∷◌, [], ℕ, List, None, option_map, length, IfOk, OnOk};
ghost use Rattle.wasm_meaning.specs.Values.{value, zeros};
ghost use Rattle.wasm_trace.specs.Context.{frames};
ghost use Rattle.wasm_trace.specs.Names.{next_name, text_of};
ghost use Rattle.wasm_trace.specs.View.{seq_of, layers, layer_of, stack_of, vals, val_of, Within, IsFree, IsGoing, Spends, flow_of, EndsIn, Ended, Broken, Left, Trapping, Invoked, Acted, Became, Kept, BlockEntered, LoopEntered, arity_of};
ghost use Rattle.wasm_trace.specs.declared.parts.Front.TheVariants as front;
ghost use Rattle.wasm_ast.specs.View.{code_of};

use crate::names::Mnemonic;
use crate::parts::{Act, Flow, Front, Level, Turn, Value};
use interp::Host;
use std::alloc::{AllocError, Global};
use std::mem;
use wasm_ast::{Block, BlockType, Func, FuncType, Instr, Trap, ValueType};
use wasm_instance::Instance;

mod calls;
mod execution;
mod start;

/// The greatest depth of calls. `invoke` has depth 1.
const GREATEST_DEPTH: usize = 64;

/// A configuration: what is left to do of a run, in nested labels and frames.
#[derive(Drop)]
pub(crate) struct Configuration<'m> {
    alloc: Global,
    pub(crate) fuel: u64,
    // The labels and frames that are entered, the innermost last.
    levels: Vec<Level<'m>>,
    // Of the innermost frame.
    locals: Vec<Value>,
    // The values before the next instruction, within the innermost label or frame, the last on top.
    stack: Vec<Value>,
    front: Front<'m>,
    // The instructions that are left within it.
    code: &'m [Instr],
    globals: Vec<Value>,
    instance: Instance,
}

impl<'m> Configuration<'m> {
    /// The name of what costs fuel in the next reduction. None, if nothing does.
    pub(crate) fn next_name(&self) -> Option<Mnemonic>
        ensures names { option_map text_of result ≡ next_name (seq_of self.now) }
        ensures free { result ≡ None → IsFree self.now.front self.now.code.now }
    {
        match self.front {
            Front::Nothing => match self.code.first() {
                None => None,
                Some(instr) => Some(Mnemonic::of(instr)),
            },
            Front::Again(_) => Some(Mnemonic::of_loop()),
            _ => None,
        }
    }

    /// The end of the instructions in a label or a frame, or of the whole.
    pub(crate) fn end<H: Host>(&mut self) -> Result<Flow, AllocError>
        requires { self.old.front ≡ front.Nothing }
        ensures goes { IfOk result (λ r. Ended H.Records self.old self.new r) }
        ensures fuel { self.new.fuel ≡ self.old.fuel }
        ensures kept { Within self.old self.new }
    {
        match self.levels.pop() {
            None => Ok(result_of(&self.stack)),
            Some(level) => match level {
                Level::Block(_, before, after) => {
                    put_back(&mut self.stack, before)?;
                    self.code = after;
                    Ok(Flow::Continue)
                }
                Level::Loop(_, before, after) => {
                    put_back(&mut self.stack, before)?;
                    self.code = after;
                    Ok(Flow::Continue)
                }
                Level::Frame(result, locals, before, after) => {
                    if self.stack.len() != count(result) {
                        return Ok(Flow::Stuck);
                    }
                    put_back(&mut self.stack, before)?;
                    self.locals = locals;
                    self.code = after;
                    Ok(Flow::Continue)
                }
            },
        }
    }

    /// Into a block.
    pub(crate) fn enter_block<H: Host>(
        &mut self,
        leaves: BlockType,
        body: &'m [Instr],
    ) -> Result<(), AllocError>
        ensures goes { OnOk result
            (BlockEntered H.Records leaves (code_of body.now) self.old self.new) }
        ensures fuel { self.new.fuel ≡ self.old.fuel }
        ensures kept { Within self.old self.new }
    {
        let before = mem::replace(&mut self.stack, Vec::new(self.alloc));
        self.levels.push(Level::Block(leaves, before, self.code))?;
        self.front = Front::Nothing;
        self.code = body;
        Ok(())
    }

    /// Into a loop.
    pub(crate) fn enter_loop<H: Host>(&mut self, block: &'m Block) -> Result<(), AllocError>
        ensures goes { OnOk result
            (LoopEntered H.Records block.now.result block.now.body self.old self.new) }
        ensures kept { Within self.old self.new }
    {
        let before = mem::replace(&mut self.stack, Vec::new(self.alloc));
        self.levels.push(Level::Loop(block, before, self.code))?;
        self.front = Front::Nothing;
        self.code = block.body.items();
        Ok(())
    }

    /// A branch out of `k` labels and to the next.
    pub(crate) fn branch<H: Host>(&mut self, k: u32) -> Result<Flow, AllocError>
        ensures goes { IfOk result (λ r. Broken H.Records k self.old self.new r) }
        ensures going { IfOk result IsGoing }
        ensures fuel { self.new.fuel ≡ self.old.fuel }
        ensures kept { Within self.old self.new }
    {
        for _i in 0..k {
            match self.levels.pop() {
                None => return Ok(Flow::Stuck),
                Some(level) => {
                    if let Level::Frame(_, _, _, _) = level {
                        return Ok(Flow::Stuck);
                    }
                }
            }
        }
        match self.levels.pop() {
            None => Ok(Flow::Stuck),
            Some(level) => match level {
                Level::Frame(_, _, _, _) => Ok(Flow::Stuck),
                Level::Block(leaves, before, after) => {
                    if !keep(&mut self.stack, leaves, before)? {
                        return Ok(Flow::Stuck);
                    }
                    self.front = Front::Nothing;
                    self.code = after;
                    Ok(Flow::Continue)
                }
                Level::Loop(block, before, after) => {
                    self.stack = before;
                    self.front = Front::Again(block);
                    self.code = after;
                    Ok(Flow::Continue)
                }
            },
        }
    }

    /// A return from the innermost frame.
    pub(crate) fn leave<H: Host>(&mut self) -> Result<Flow, AllocError>
        ensures goes { IfOk result (λ r. Left H.Records self.old self.new r) }
        ensures going { IfOk result IsGoing }
        ensures kept { Within self.old self.new }
    {
        while let Some(level) = self.levels.pop() {
            if let Level::Frame(leaves, locals, before, after) = level {
                if !keep(&mut self.stack, leaves, before)? {
                    return Ok(Flow::Stuck);
                }
                self.locals = locals;
                self.front = Front::Nothing;
                self.code = after;
                return Ok(Flow::Continue);
            }
        }
        Ok(Flow::Stuck)
    }

    /// A call of a function of the module: a frame round its body.
    pub(crate) fn invoke<H: Host>(
        &mut self,
        function_type: &'m FuncType,
        function: &'m Func,
    ) -> Result<Flow, AllocError>
        ensures goes { IfOk result
            (λ r. Invoked H.Records function_type.now function.now self.old self.new r) }
        ensures going { IfOk result IsGoing }
        ensures fuel { self.new.fuel ≡ self.old.fuel }
        ensures kept { Within self.old self.new }
    {
        let count = function_type.params.len();
        if self.stack.len() < count {
            return Ok(Flow::Stuck);
        }
        let lower = self.stack.len() - count;
        if frames(&self.levels) >= GREATEST_DEPTH {
            self.stack.truncate(lower);
            self.front = Front::Trap(Trap::CallDepth);
            return Ok(Flow::Continue);
        }
        let mut locals = Vec::new(self.alloc);
        locals.extend_from_slice(&self.stack[lower..])?;
        add_zeros(&mut locals, function.locals.as_slice())?;
        self.stack.truncate(lower);
        let before = mem::replace(&mut self.stack, Vec::new(self.alloc));
        let outer = mem::replace(&mut self.locals, locals);
        self.levels.push(Level::Frame(function_type.result, outer, before, self.code))?;
        self.front = Front::Body(function_type.result, function.body.items());
        self.code = &[];
        Ok(Flow::Continue)
    }

    /// A trap takes the place of what stands round it.
    pub(crate) fn trap<H: Host>(&mut self, why: Trap) -> Flow
        requires { self.old.front ≡ front.Trap why }
        ensures goes { Trapping H.Records why self.old self.new result }
        ensures fuel { self.new.fuel ≡ self.old.fuel }
        ensures kept { Within self.old self.new }
    {
        if !self.stack.is_empty() {
            self.stack.clear();
            self.code = &[];
            return Flow::Continue;
        }
        if !self.code.is_empty() {
            self.code = &[];
            return Flow::Continue;
        }
        match self.levels.pop() {
            None => Flow::Trapped(why),
            Some(level) => match level {
                Level::Block(_, before, after) => {
                    self.stack = before;
                    self.code = after;
                    Flow::Continue
                }
                Level::Loop(_, before, after) => {
                    self.stack = before;
                    self.code = after;
                    Flow::Continue
                }
                Level::Frame(_, locals, before, after) => {
                    self.locals = locals;
                    self.stack = before;
                    self.code = after;
                    Flow::Continue
                }
            },
        }
    }

    /// What an instruction did.
    pub(crate) fn act<H: Host>(&mut self, act: Act<'m>) -> Result<Flow, AllocError>
        ensures goes { IfOk result (λ r. Acted H.Records act.entry self.old self.new r) }
        ensures spends { IfOk result (λ r. Spends act.entry r) }
        ensures kept { Within self.old self.new }
    {
        match act {
            Act::Become(turn) => Ok(self.turn::<H>(turn)),
            Act::Enter(leaves, body) => {
                self.enter_block::<H>(leaves, body)?;
                Ok(Flow::Continue)
            }
            Act::Repeat(block) => {
                self.enter_loop::<H>(block)?;
                Ok(Flow::Continue)
            }
            Act::Branch(k) => self.branch::<H>(k),
            Act::Return => self.leave::<H>(),
        }
    }

    /// What an instruction became.
    pub(crate) fn turn<H: Host>(&mut self, turn: Turn<'m>) -> Flow
        ensures goes { Became H.Records turn.entry self.old self.new result }
        ensures flow { result ≡ flow_of turn.entry }
        ensures fuel { self.new.fuel ≡ self.old.fuel }
        ensures kept { Within self.old self.new }
    {
        match turn {
            Turn::On(front) => {
                self.front = front;
                Flow::Continue
            }
            Turn::Spent => Flow::Spent,
            Turn::Stuck => Flow::Stuck,
        }
    }
}

/// The end of the whole, where these values alone are left.
fn result_of(stack: &[Value]) -> Flow
    ensures { EndsIn (stack_of stack.now) result }
{
    if stack.len() != 1 {
        return Flow::Stuck;
    }
    match stack[0] {
        Value::I32(word) => Flow::Returned(word),
        Value::I64(_) => Flow::Stuck,
    }
}

/// Puts these values in place of a stack, and the results from its top on them. Whether they were
/// there.
fn keep(stack: &mut Vec<Value>, leaves: BlockType, before: Vec<Value>) -> Result<bool, AllocError>
    ensures { IfOk result
        (λ there. Kept leaves stack.old.items before.items there stack.new.items) }
{
    match leaves {
        None => {
            *stack = before;
            Ok(true)
        }
        Some(_) => match stack.pop() {
            None => Ok(false),
            Some(value) => {
                *stack = before;
                stack.push(value)?;
                Ok(true)
            }
        },
    }
}

/// How many of these are frames.
fn frames(levels: &[Level]) -> usize
    ensures { result ≡ frames (layers levels.now) }
{
    let mut count = 0;
    for i in 0..levels.len() {
        count += one_if_frame(&levels[i]);
    }
    count
}

fn one_if_frame(level: &Level) -> usize
    ensures value { result ≡ frames (layer_of level.now ∷ []) }
    ensures small { result ≤ 1 }
{
    match level {
        Level::Frame(_, _, _, _) => 1,
        Level::Block(_, _, _) => 0,
        Level::Loop(_, _, _) => 0,
    }
}

fn zero(value_type: ValueType) -> Value
    ensures { val_of result ≡ value value_type 0 }
{
    match value_type {
        ValueType::I32 => Value::I32(0),
        ValueType::I64 => Value::I64(0),
    }
}

/// Adds locals that are 0.
fn add_zeros(locals: &mut Vec<Value>, types: &[ValueType]) -> Result<(), AllocError>
    ensures { OnOk result (vals locals.new.items ≡ vals locals.old.items ++ zeros types.now) }
{
    for value_type in types {
        locals.push(zero(*value_type))?;
    }
    Ok(())
}

/// How many values a block leaves.
fn count(leaves: BlockType) -> usize
    ensures { result ≡ arity_of leaves }
{
    match leaves {
        None => 0,
        Some(_) => 1,
    }
}

/// Puts values before those of a stack.
fn put_back(stack: &mut Vec<Value>, before: Vec<Value>) -> Result<(), AllocError>
    ensures { OnOk result (stack.new.items ≡ before.items ++ stack.old.items) }
{
    let mut joined = before;
    joined.extend_from_slice(stack)?;
    *stack = joined;
    Ok(())
}
