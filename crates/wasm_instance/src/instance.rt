//! Instances, and what code asks of them.

ghost use Rattle.std.specs.Prelude.{◌≡◌, ◌<◌, ◌+◌, length, slice_get, slice_set, IfOk, OnOk, OnErr};
ghost use Rattle.std.specs.Borrow.{sem};
ghost use Rattle.wasm_ast.specs.Access.{store_width};
ghost use Rattle.wasm_typing.specs.ModuleRules.{IsValid};
ghost use Rattle.wasm_meaning.specs.Memory.{size_word};
ghost use Rattle.wasm_instance.specs.Accesses.{in_bounds, load_at, after_store, grow_word, after_grow, function_at};
ghost use Rattle.wasm_instance.specs.State.{fresh};
ghost use Rattle.wasm_instance.specs.Lending.{LendsMemory};

use crate::access::PAGE;
use crate::fresh::{fresh_globals, fresh_memory, fresh_table, most_pages};
use crate::memory::Memory;
use std::alloc::{AllocError, Global};
use std::marker::Model;
use wasm_ast::{LoadOp, Module, StoreOp, Trap};

/// What the code of a module may change outside its frame, its memory and its globals, and the
/// table that its indirect calls go by.
///
/// A word of 32 bits stands in 64 as a number below 2^32.
#[derive(Debug, Drop)]
pub struct Instance {
    memory: Memory,
    globals: Vec<u64>,
    // The function of each entry that has one.
    table: Vec<Option<u32>>,
    // How large the memory may grow, in pages.
    most_pages: u32,
}

impl Model for Instance {
    ghost use Rattle.wasm_instance.specs.State.{State};

    ghost Value = { State };

    ghost view = { λ i.
        record {
          memory = i.memory;
          globals = i.globals.items;
          table = i.table.items;
          most_pages = i.most_pages;
        } };
}

impl Instance {
    /// The fresh instance of a valid module (Core 1.0, section 4.5.4).
    ///
    /// Its memory has its least size, zeros but for the data segments; its globals have the words
    /// of their initializers; its table has its least size, with no functions but for those of the
    /// element segments. The memory may grow to its greatest size, and to 16 pages at most.
    ///
    /// `AllocError` where there is no room for it.
    pub fn new(alloc: Global, module: &Module) -> Result<Instance, AllocError>
        requires { IsValid «module».now }
        ensures { IfOk result (λ i. i ≡ fresh «module».now) }
    {
        Ok(Instance {
            memory: fresh_memory(alloc, module)?,
            globals: fresh_globals(alloc, module)?,
            table: fresh_table(alloc, module)?,
            most_pages: most_pages(module),
        })
    }

    /// The word that a load gives at an address plus an offset (Core 1.0, section 4.4.4).
    ///
    /// # Errors
    ///
    /// `OutOfBounds` where the bytes that it reads do not all lie within the memory. The sum is
    /// unbounded: it does not wrap at 2^32.
    #[inline(always)]
    pub fn load(&self, op: LoadOp, address: u32, offset: u32) -> Result<u64, Trap>
        ensures { result ≡ load_at op self.now.memory (address + offset) }
    {
        self.memory.load(op, address as usize + offset as usize)
    }

    /// Stores the low bytes of a word at an address plus an offset (Core 1.0, section 4.4.4).
    ///
    /// # Errors
    ///
    /// `OutOfBounds` where the bytes that it writes would not all lie within the memory, which
    /// then stays as it was. The sum is unbounded: it does not wrap at 2^32.
    #[inline(always)]
    pub fn store(&mut self, op: StoreOp, address: u32, offset: u32, word: u64) -> Result<(), Trap>
        ensures answer { result ≡ in_bounds self.old.memory (address + offset) (store_width op) tt }
        ensures stored { self.new
            ≡ record self.old { memory = after_store op self.old.memory (address + offset) word } }
    {
        self.memory
            .store(op, address as usize + offset as usize, word)
    }

    /// The size of the memory in pages of 65,536 bytes, modulo 2^32 (Core 1.0, section 4.4.4).
    #[inline(always)]
    pub fn size(&self) -> u32
        ensures { result ≡ size_word self.now.memory }
    {
        (self.memory.len() / PAGE % (1 << 32)) as u32
    }

    /// Makes the memory longer by pages of zeros where it may have so many, and gives its old size
    /// in pages; else gives the word -1, and nothing changes (Core 1.0, section 4.4.4).
    ///
    /// `AllocError` where there is no room for the pages: nothing changes then either.
    #[inline(always)]
    pub fn grow(&mut self, count: u32) -> Result<u32, AllocError>
        ensures word { IfOk result (λ word. word ≡ grow_word self.old count) }
        ensures grown { OnOk result (self.new ≡ after_grow self.old count) }
        ensures refused { OnErr result (self.new ≡ self.old) }
    {
        let pages = self.memory.len() / PAGE;
        if (self.most_pages as usize) < pages + count as usize {
            return Ok(u32::MAX);
        }
        let size = self.size();
        self.memory.grow(PAGE * count as usize)?;
        Ok(size)
    }

    /// The word of a global.
    #[inline(always)]
    pub fn global(&self, index: u32) -> u64
        requires { index < length self.now.globals }
        ensures { slice_get self.now.globals index ≡ Some result }
    {
        self.globals[index as usize]
    }

    /// Gives a global another word.
    #[inline(always)]
    pub fn set_global(&mut self, index: u32, word: u64)
        requires { index < length self.old.globals }
        ensures { self.new ≡ record self.old { globals = slice_set self.old.globals index word } }
    {
        self.globals[index as usize] = word;
    }

    /// The index of the function that an entry of the table has (Core 1.0, section 4.4.5).
    ///
    /// # Errors
    ///
    /// `UndefinedElement` past the end of the table, `UninitializedElement` at an entry without a
    /// function.
    #[inline(always)]
    pub fn entry(&self, index: u32) -> Result<u32, Trap>
        ensures { result ≡ function_at (slice_get self.now.table index) }
    {
        match self.table.get(index as usize) {
            None => Err(Trap::UndefinedElement),
            Some(None) => Err(Trap::UninitializedElement),
            Some(Some(function)) => Ok(*function),
        }
    }

    /// The memory, to be written in place.
    #[inline(always)]
    pub fn memory_mut(&mut self) -> &mut Memory
        ensures* writes_back { sem 𝓛 (LendsMemory self.entry result) }
        ensures value { result.now ≡ self.old.memory }
    {
        &mut self.memory
    }
}
