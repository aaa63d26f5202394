//! What a function's body may refer to, its labels aside.

ghost use Rattle.wasm_typing.specs.Indices.{AreTypes};

use wasm_ast::{BlockType, FuncType, Global, GlobalType, Limits, ValueType};

/// What a function's body may refer to, its labels aside.
#[derive(Clone, Copy)]
pub struct Scope<'a> {
    /// The types of the module.
    pub types: &'a [FuncType],
    /// The index of the type of each function, the imported ones first.
    pub functions: &'a [u32],
    pub tables: &'a [Limits],
    pub memories: &'a [Limits],
    pub globals: &'a [Global],
    /// The types of the parameters and of the other locals.
    pub locals: &'a [ValueType],
    /// What the function returns.
    pub result: BlockType,
    ghost known: { AreTypes functions.now types.now },
}

impl<'a> Scope<'a> {
    ghost use Rattle.std.specs.Prelude.{◌≡◌, Some, None, MatchOption, map};
    ghost use Rattle.wasm_typing.specs.Typing.{at};
    ghost use Rattle.wasm_typing.specs.ModuleRules.{type_at};
    ghost use Rattle.wasm_ast.specs.declared.module.Global.{Global};

    /// The type of a function.
    pub fn type_of(&self, function: u32) -> Option<&'a FuncType>
        ensures { let found = at (map (type_at self.now.types.now) self.now.functions.now) function
            in MatchOption result (found ≡ None) (λ t. found ≡ Some t.now) }
    {
        let Some(type_index) = self.functions.get(function as usize) else {
            return None;
        };
        Some(&self.types[*type_index as usize])
    }

    /// The type at an index.
    pub fn type_at_index(&self, index: u32) -> Option<&'a FuncType>
        ensures { let found = at self.now.types.now index
            in MatchOption result (found ≡ None) (λ t. found ≡ Some t.now) }
    {
        self.types.get(index as usize)
    }

    /// The type of a local.
    pub fn type_of_local(&self, local: u32) -> Option<ValueType>
        ensures { result ≡ at self.now.locals.now local }
    {
        self.locals.get(local as usize).copied()
    }

    /// The table, if there is one.
    pub fn table(&self) -> Option<Limits>
        ensures { result ≡ at self.now.tables.now 0 }
    {
        self.tables.first().copied()
    }

    /// The memory, if there is one.
    pub fn memory(&self) -> Option<Limits>
        ensures { result ≡ at self.now.memories.now 0 }
    {
        self.memories.first().copied()
    }

    /// The type of a global.
    pub fn type_of_global(&self, global: u32) -> Option<GlobalType>
        ensures { result ≡ at (map (λ (g : Global). g.global_type) self.now.globals.now) global }
    {
        match self.globals.get(global as usize) {
            None => None,
            Some(found) => Some(found.global_type),
        }
    }
}
