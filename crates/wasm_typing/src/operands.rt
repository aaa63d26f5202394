//! The types of the operands of a function's body.

ghost use Rattle.std.specs.Prelude.{◌≡◌, ◌≤◌, ◌++◌, [], reverse, length, IfOk, IfErr, Some};
ghost use Rattle.wasm_typing.specs.Operands.{Frames, push, pop, pop_as, push_result, pop_result, pop_all, finish, no_operands, from_here};
ghost use Rattle.wasm_typing.specs.Marks.{mark_of};
ghost use Rattle.wasm_typing.specs.Refused.{Refused};

use crate::fault::ValidateFault;
use std::alloc::Global;
use std::marker::Model;
use wasm_ast::{BlockType, ValueType};

/// The operands of the block that is checked, above those of the blocks round it.
#[derive(Drop)]
pub struct OperandStack {
    // The top is last; None is an operand of an unknown type.
    types: Vec<Option<ValueType>>,
    // How many lie below the block.
    height: usize,
    // Whether the rest of the block cannot be reached.
    is_unreachable: bool,
}

/// What is kept of the operands round a block while it is checked.
#[derive(Clone, Copy)]
pub struct Outer {
    height: usize,
    is_unreachable: bool,
}

impl Model for OperandStack {
    ghost use Rattle.std.specs.Prelude.{◌≤◌, reverse, take, drop, length};
    ghost use Rattle.wasm_typing.specs.Operands.{Frames};

    ghost Value = { Frames };

    ghost view = { λ s.
        record {
          here = record {
            types = reverse (drop s.height s.types.items);
            unreachable = s.is_unreachable;
          };
          lower = reverse (take s.height s.types.items);
        } };

    ghost invariant = { λ s. s.height ≤ length s.types.items };
}

impl OperandStack {
    /// No operand, in reachable code.
    pub fn new(alloc: Global) -> OperandStack
        ensures here { result.here ≡ no_operands }
        ensures lower { result.lower ≡ [] }
    {
        OperandStack {
            types: Vec::new(alloc),
            height: 0,
            is_unreachable: false,
        }
    }

    /// Begins a block, which has no operand yet.
    pub fn enter(&mut self) -> Outer
        ensures here { self.new.here ≡ no_operands }
        ensures lower { self.new.lower ≡ self.old.here.types ++ self.old.lower }
        ensures outer { result ≡ mark_of self.old }
    {
        let outer = Outer {
            height: self.height,
            is_unreachable: self.is_unreachable,
        };
        self.height = self.types.len();
        self.is_unreachable = false;
        outer
    }

    /// Ends a block: what is left of it is taken off, and the operands round it are there again.
    pub fn exit(&mut self, outer: Outer)
        requires { outer.height ≤ length self.old.lower }
        ensures { (s : Frames) → outer ≡ mark_of s → self.old.lower ≡ s.here.types ++ s.lower →
            self.new ≡ s }
    {
        self.types.truncate(self.height);
        self.height = outer.height;
        self.is_unreachable = outer.is_unreachable;
    }

    /// Puts an operand on top.
    pub fn push(&mut self, operand: Option<ValueType>) -> Result<(), ValidateFault>
        ensures ok { IfOk result (λ _. self.new.here ≡ push operand self.old.here) }
        ensures lower { IfOk result (λ _. self.new.lower ≡ self.old.lower) }
        ensures refused { IfErr result (λ e. e ≡ ValidateFault.Memory) }
    {
        self.types.push(operand)?;
        Ok(())
    }

    /// Takes the top operand off. In code that cannot be reached there is always one, of an unknown
    /// type.
    pub fn pop(&mut self) -> Result<Option<ValueType>, ValidateFault>
        ensures ok { IfOk result (λ o. pop self.old.here ≡ Some (o, self.new.here)) }
        ensures lower { IfOk result (λ _. self.new.lower ≡ self.old.lower) }
        ensures refused { IfErr result (λ e. Refused e ⊥ (pop self.old.here)) }
    {
        if self.types.len() > self.height {
            Ok(self.types.pop().unwrap())
        } else if self.is_unreachable {
            Ok(None)
        } else {
            Err(ValidateFault::TypeMismatch)
        }
    }

    /// Takes the top operand off, which has a type.
    pub fn pop_as(&mut self, expected: ValueType) -> Result<(), ValidateFault>
        ensures ok { IfOk result (λ _. pop_as expected self.old.here ≡ Some self.new.here) }
        ensures lower { IfOk result (λ _. self.new.lower ≡ self.old.lower) }
        ensures refused { IfErr result (λ e. Refused e ⊥ (pop_as expected self.old.here)) }
    {
        match self.pop()? {
            Some(found) if found != expected => Err(ValidateFault::TypeMismatch),
            _ => Ok(()),
        }
    }

    /// Puts on top what a block leaves.
    pub fn push_result(&mut self, left: BlockType) -> Result<(), ValidateFault>
        ensures ok { IfOk result (λ _. self.new.here ≡ push_result left self.old.here) }
        ensures lower { IfOk result (λ _. self.new.lower ≡ self.old.lower) }
        ensures refused { IfErr result (λ e. e ≡ ValidateFault.Memory) }
    {
        match left {
            None => Ok(()),
            Some(value_type) => self.push(Some(value_type)),
        }
    }

    /// Takes off what a block leaves.
    pub fn pop_result(&mut self, left: BlockType) -> Result<(), ValidateFault>
        ensures ok { IfOk result (λ _. pop_result left self.old.here ≡ Some self.new.here) }
        ensures lower { IfOk result (λ _. self.new.lower ≡ self.old.lower) }
        ensures refused { IfErr result (λ e. Refused e ⊥ (pop_result left self.old.here)) }
    {
        match left {
            None => Ok(()),
            Some(value_type) => self.pop_as(value_type),
        }
    }

    /// Takes off the arguments of a call, of which the last is on top.
    pub fn pop_arguments(&mut self, params: &[ValueType]) -> Result<(), ValidateFault>
        ensures ok { IfOk result
            (λ _. pop_all (reverse params.now) self.old.here ≡ Some self.new.here) }
        ensures lower { IfOk result (λ _. self.new.lower ≡ self.old.lower) }
        ensures refused { IfErr result
            (λ e. Refused e ⊥ (pop_all (reverse params.now) self.old.here)) }
    {
        let mut left = params.len();
        while left > 0 {
            left -= 1;
            self.pop_as(params[left])?;
        }
        Ok(())
    }

    /// The end of a body: what it leaves, and nothing below.
    pub fn finish(&mut self, left: BlockType) -> Result<(), ValidateFault>
        ensures ok { IfOk result (λ _. finish left self.old.here ≡ Some self.new.here) }
        ensures lower { IfOk result (λ _. self.new.lower ≡ self.old.lower) }
        ensures refused { IfErr result (λ e. Refused e ⊥ (finish left self.old.here)) }
    {
        self.pop_result(left)?;
        if self.types.len() > self.height {
            return Err(ValidateFault::TypeMismatch);
        }
        Ok(())
    }

    /// An unconditional branch: the rest of the block cannot be reached.
    pub fn leave(&mut self)
        ensures here { self.new.here ≡ from_here }
        ensures lower { self.new.lower ≡ self.old.lower }
    {
        self.types.truncate(self.height);
        self.is_unreachable = true;
    }
}
