//! One reduction.

ghost use Rattle.std.specs.Prelude.{◌≡◌, [], IfOk};
ghost use Rattle.wasm_meaning.specs.Program.{program_of};
ghost use Rattle.wasm_trace.specs.View.{Linked, Stands, Does, IsFree, Jumps, NoEnd, Reduced, Repeated, Rests, Within};
ghost use Rattle.wasm_trace.specs.Plain.{Becomes};
ghost use Rattle.wasm_trace.specs.declared.parts.Front.TheVariants as front;
ghost use Rattle.wasm_trace.specs.declared.parts.Act.TheVariants as act;
ghost use Rattle.wasm_trace.specs.declared.parts.Turn.TheVariants as turn;

use super::Configuration;
use crate::memory::{load, memory_grow, memory_size, store};
use crate::operands::either;
use crate::parts::{Act, Flow, Front, Turn};
use crate::values::on_values;
use crate::variables::{get_global, get_local, set_global, set_local};
use interp::Host;
use std::alloc::AllocError;
use wasm_ast::{Block, Instr};
use wasm_validate::ValidModule;

impl<'m> Configuration<'m> {
    /// One reduction of the whole, or why there is none.
    pub(crate) fn reduce<H: Host>(
        &mut self,
        valid: &'m ValidModule,
        host: &mut H,
    ) -> Result<Flow, AllocError>
        requires { Linked valid.now self.old }
        ensures goes { IfOk result
            (λ r. Reduced (program_of valid.now (H.answers host.old)) self.old self.new
            (H.records host.old) (H.records host.new) r) }
        ensures rests { IfOk result
            (λ r. Rests self.old self.new (H.records host.old) (H.records host.new) r) }
        ensures free { IsFree self.old.front self.old.code.now → self.new.fuel ≡ self.old.fuel }
        ensures kept { Within self.old self.new }
        ensures stays { IfOk result (λ _. H.answers host.new ≡ H.answers host.old) }
        ensures keeps { IfOk result (λ _. H.context host.new ≡ H.context host.old) }
    {
        match self.front {
            Front::Nothing => self.next(valid, host),
            Front::Branch(k) => self.branch::<H>(k),
            Front::Set(k) => {
                let turn = set_local::<H>(&mut self.stack, &mut self.locals, k);
                Ok(self.turn::<H>(turn))
            }
            Front::Body(leaves, body) => {
                self.enter_block::<H>(leaves, body)?;
                Ok(Flow::Continue)
            }
            Front::Again(block) => self.again::<H>(block),
            Front::Invoke(function_type, function) => self.invoke::<H>(function_type, function),
            Front::Trap(why) => Ok(self.trap::<H>(why)),
        }
    }

    /// A loop that a branch came to, which costs 1 again.
    fn again<H: Host>(&mut self, block: &'m Block) -> Result<Flow, AllocError>
        ensures goes { IfOk result
            (λ r. Repeated H.Records block.now.result block.now.body self.old self.new r) }
        ensures spends { IfOk result NoEnd }
        ensures kept { Within self.old self.new }
    {
        if self.fuel == 0 {
            return Ok(Flow::Spent);
        }
        self.fuel -= 1;
        self.enter_loop::<H>(block)?;
        Ok(Flow::Continue)
    }

    /// The next of the instructions that are left, its cost of 1 taken first, or their end.
    fn next<H: Host>(&mut self, valid: &'m ValidModule, host: &mut H) -> Result<Flow, AllocError>
        requires linked { Linked valid.now self.old }
        requires nothing { self.old.front ≡ front.Nothing }
        ensures goes { IfOk result
            (λ r. Reduced (program_of valid.now (H.answers host.old)) self.old self.new
            (H.records host.old) (H.records host.new) r) }
        ensures rests { IfOk result
            (λ r. Rests self.old self.new (H.records host.old) (H.records host.new) r) }
        ensures free { self.old.code.now ≡ [] → self.new.fuel ≡ self.old.fuel }
        ensures kept { Within self.old self.new }
        ensures stays { IfOk result (λ _. H.answers host.new ≡ H.answers host.old) }
        ensures keeps { IfOk result (λ _. H.context host.new ≡ H.context host.old) }
    {
        match self.code.split_first() {
            None => self.end::<H>(),
            Some((first, rest)) => {
                if self.fuel == 0 {
                    return Ok(Flow::Spent);
                }
                self.fuel -= 1;
                self.code = rest;
                let act = self.execute(first, valid, host)?;
                self.act::<H>(act)
            }
        }
    }

    /// What an instruction does whose cost of 1 is taken.
    fn execute<H: Host>(
        &mut self,
        instr: &'m Instr,
        valid: &'m ValidModule,
        host: &mut H,
    ) -> Result<Act<'m>, AllocError>
        requires { Linked valid.now self.old }
        ensures does { IfOk result
            (λ a. Does (program_of valid.now (H.answers host.old)) instr.now self.old self.new
            (H.records host.old) (H.records host.new) a) }
        ensures jumps { IfOk result
            (λ a. Jumps self.old self.new (H.records host.old) (H.records host.new) a) }
        ensures spent { IfOk result
            (λ a. a ≡ act.Become turn.Spent → H.records host.new ≡ H.records host.old) }
        ensures stands { Stands self.old self.new }
        ensures kept { Within self.old self.new }
        ensures stays { IfOk result (λ _. H.answers host.new ≡ H.answers host.old) }
        ensures keeps { IfOk result (λ _. H.context host.new ≡ H.context host.old) }
    {
        match instr {
            Instr::Block(block) => Ok(Act::Enter(block.result, block.body.items())),
            Instr::Loop(block) => Ok(Act::Repeat(block)),
            Instr::If(conditional) => Ok(either::<H>(&mut self.stack, conditional)),
            Instr::Br(k) => Ok(Act::Branch(*k)),
            Instr::Return => Ok(Act::Return),
            _ => Ok(Act::Become(self.operate(instr, valid, host)?)),
        }
    }

    /// What an instruction becomes that is no block, branch or return.
    fn operate<H: Host>(
        &mut self,
        instr: &Instr,
        valid: &'m ValidModule,
        host: &mut H,
    ) -> Result<Turn<'m>, AllocError>
        requires linked { Linked valid.now self.old }
        requires becomes { Becomes instr.now }
        ensures does { IfOk result
            (λ t. Does (program_of valid.now (H.answers host.old)) instr.now self.old self.new
            (H.records host.old) (H.records host.new) (act.Become t)) }
        ensures spent { IfOk result
            (λ t. t ≡ turn.Spent → H.records host.new ≡ H.records host.old) }
        ensures stands { Stands self.old self.new }
        ensures kept { Within self.old self.new }
        ensures stays { IfOk result (λ _. H.answers host.new ≡ H.answers host.old) }
        ensures keeps { IfOk result (λ _. H.context host.new ≡ H.context host.old) }
    {
        match instr {
            Instr::Call(index) => self.call(*index, valid, host),
            Instr::CallIndirect(index) => self.call_indirect(*index, valid, host),
            Instr::LocalGet(k) => get_local::<H>(&mut self.stack, &self.locals, *k),
            Instr::LocalSet(k) => Ok(set_local::<H>(&mut self.stack, &mut self.locals, *k)),
            Instr::GlobalGet(k) => get_global::<H>(&mut self.stack, &self.globals, *k),
            Instr::GlobalSet(k) => Ok(set_global::<H>(&mut self.stack, &mut self.globals, *k)),
            Instr::Load(operator, place) => {
                load::<H>(&mut self.stack, &self.instance, *operator, *place)
            }
            Instr::Store(operator, place) => {
                Ok(store::<H>(&mut self.stack, &mut self.instance, *operator, *place))
            }
            Instr::MemorySize => memory_size::<H>(&mut self.stack, &self.instance),
            Instr::MemoryGrow => {
                memory_grow::<H>(&mut self.fuel, &mut self.stack, &mut self.instance)
            }
            _ => on_values::<H>(&mut self.stack, instr),
        }
    }
}
