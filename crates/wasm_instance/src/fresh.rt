//! How an instance begins (Core 1.0, section 4.5.4).

ghost use Rattle.std.specs.Prelude.{◌≡◌, ◌<◌, ◌≤◌, ◌+◌, length, map, IfOk};
ghost use Rattle.wasm_typing.specs.ModuleRules.{IsValid};
ghost use Rattle.wasm_meaning.specs.Program.{initial, first_limits, with_segments, with_functions, with_elements, fresh_global, fresh_memory, fresh_table, most_pages};
ghost use Rattle.wasm_instance.specs.Segments.{IsConstant, AreData, AreElements};
ghost use Rattle.wasm_instance.specs.State.{words_of};

use crate::access::PAGE;
use crate::memory::Memory;
use std::alloc::{AllocError, Global as Allocation};
use wasm_ast::{Body, DataSegment, ElementSegment, Global, Instr, Limits, Module};

// The greatest number of pages that a memory may have, whatever it declares.
const MOST_PAGES: u32 = 16;

/// The memory of a fresh instance of a valid module.
pub fn fresh_memory(alloc: Allocation, module: &Module) -> Result<Memory, AllocError>
    requires { IsValid «module».now }
    ensures { IfOk result (λ memory. memory ≡ fresh_memory «module».now) }
{
    let size = PAGE * first_limits(module.memories.as_slice()).least as usize;
    let mut memory = Memory::new(alloc, size)?;
    write_segments(&mut memory, module.data.as_slice());
    Ok(memory)
}

/// The words of its globals, in order.
pub fn fresh_globals(alloc: Allocation, module: &Module) -> Result<Vec<u64>, AllocError>
    requires { IsValid «module».now }
    ensures { IfOk result
        (λ words. words.items ≡ words_of (map fresh_global «module».now.globals)) }
{
    let globals = module.globals.as_slice();
    let mut words = Vec::new(alloc);
    for global in globals {
        words.push(constant(&global.initializer))?;
    }
    Ok(words)
}

/// Its table, with the index of the function of each entry that has one.
pub fn fresh_table(alloc: Allocation, module: &Module) -> Result<Vec<Option<u32>>, AllocError>
    requires { IsValid «module».now }
    ensures { IfOk result (λ table. table.items ≡ fresh_table «module».now) }
{
    let mut table = Vec::new(alloc);
    table.resize(first_limits(module.tables.as_slice()).least as usize, None)?;
    set_elements(&mut table, module.elements.as_slice());
    Ok(table)
}

/// How large its memory may grow, in pages.
pub fn most_pages(module: &Module) -> u32
    ensures { result ≡ most_pages «module».now }
{
    match first_limits(module.memories.as_slice()).greatest {
        None => MOST_PAGES,
        Some(pages) => pages.min(MOST_PAGES),
    }
}

// The limits of the memory or of the table, of which there is at most one.
fn first_limits(limits: &[Limits]) -> Limits
    ensures { result ≡ first_limits limits.now }
{
    match limits.first() {
        None => Limits {
            least: 0,
            greatest: Some(0),
        },
        Some(first) => *first,
    }
}

// Writes data segments in order.
fn write_segments(memory: &mut Memory, segments: &[DataSegment])
    requires { AreData segments.now (length memory.old) }
    ensures { memory.new ≡ with_segments memory.old segments.now }
{
    for segment in segments {
        memory.write(constant(&segment.offset) as usize, segment.bytes.as_slice());
    }
}

// Sets the functions of element segments in order.
fn set_elements(table: &mut [Option<u32>], segments: &[ElementSegment])
    requires { AreElements segments.now (length table.old) }
    ensures { table.new ≡ with_elements table.old segments.now }
{
    for segment in segments {
        set_functions(
            table,
            constant(&segment.offset) as usize,
            segment.functions.as_slice(),
        );
    }
}

// Sets functions from an entry on.
fn set_functions(table: &mut [Option<u32>], at: usize, functions: &[u32])
    requires { at + length functions.now ≤ length table.old }
    ensures { table.new ≡ with_functions table.old at functions.now }
{
    for i in 0..functions.len() {
        table[at + i] = Some(functions[i]);
    }
}

// The word of an expression that is one constant.
fn constant(expression: &Body) -> u64
    requires { IsConstant expression.now }
    ensures { result ≡ initial expression.now }
{
    match expression.items().first() {
        Some(Instr::I32Const(word)) => u64::from(*word),
        Some(Instr::I64Const(word)) => *word,
        _ => unreachable!(),
    }
}
