//! The functions that a module defines, and what bounds them.
//!
//! The bounds are wider than the limits of the profile, and narrow enough that places in code that
//! is made of a module are numbers of 32 bits.

ghost use Rattle.std.specs.Prelude.{◌≡◌, ◌↔◌, ◌<◌, ◌^◌, IsTrue, [], length};
ghost use Rattle.wasm_ast.specs.Sizes.{AreSmall};

use crate::module::Func;
use crate::types::ValueType;
use seq::Seq;
use std::alloc::Global;
use std::marker::Model;

/// The types of a function's parameters, in order: fewer than 2^30.
#[derive(Debug, Drop)]
pub struct Parameters {
    types: Seq<ValueType>,
}

impl Model for Parameters {
    ghost use Rattle.std.specs.Prelude.{◌<◌, ◌^◌, List, length};
    ghost use Rattle.wasm_ast.specs.declared.types.ValueType.{ValueType};

    ghost Value = { List ValueType };

    ghost view = { λ p. p.types };

    ghost invariant = { λ p. length p.types < 2 ^ 30 };
}

impl Parameters {
    /// Parameters of these types.
    pub fn new(types: Seq<ValueType>) -> Self
        requires { length types < 2 ^ 30 }
        ensures { result ≡ types }
    {
        Parameters { types }
    }

    /// The types.
    pub fn as_slice(&self) -> &[ValueType]
        ensures { result.now ≡ self.now }
    {
        self.types.as_slice()
    }

    /// How many parameters there are.
    pub fn len(&self) -> usize
        ensures exact { result ≡ length self.now }
        ensures small { result < 2 ^ 30 }
    {
        self.types.len()
    }

    /// Whether there are none.
    pub fn is_empty(&self) -> bool
        ensures { IsTrue result ↔ (self.now ≡ []) }
    {
        self.types.is_empty()
    }
}

/// The functions that a module defines, in order.
///
/// Each has fewer than 65,536 instructions and fewer than 2^30 locals beyond its parameters, and
/// together they have fewer than 2^30 instructions and labels of branches.
#[derive(Debug, Drop)]
pub struct Functions {
    items: Seq<Func>,
}

impl Model for Functions {
    ghost use Rattle.std.specs.Prelude.{List};
    ghost use Rattle.std.specs.Coded.{coded_list};
    ghost use Rattle.wasm_ast.specs.declared.module.Func.{Func};
    ghost use Rattle.wasm_ast.specs.contracts.module.Func as declared;
    ghost use Rattle.wasm_ast.specs.Sizes.{AreSmall};

    ghost Value = { List Func };

    ghost coded = { coded_list declared.the_row.coded };

    ghost view = { λ f. f.items };

    ghost invariant = { λ f. AreSmall f.items };
}

impl Functions {
    /// No functions. It takes no memory.
    pub fn empty(alloc: Global) -> Self
        ensures { result ≡ [] }
    {
        Functions {
            items: Seq::empty(alloc),
        }
    }

    /// These functions.
    pub fn new(items: Seq<Func>) -> Self
        requires { AreSmall items }
        ensures { result ≡ items }
    {
        Functions { items }
    }

    /// The functions as a slice.
    pub fn as_slice(&self) -> &[Func]
        ensures same { result.now ≡ self.now }
        ensures small { AreSmall self.now }
    {
        self.items.as_slice()
    }

    /// How many functions there are.
    pub fn len(&self) -> usize
        ensures { result ≡ length self.now }
    {
        self.items.len()
    }
}
