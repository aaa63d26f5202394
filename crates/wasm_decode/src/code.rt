//! Expressions and their instructions (WebAssembly Core 1.0, section 5.4).

ghost use Rattle.std.specs.Prelude.{◌≡◌, ◌+◌, ◌^◌, ◌<◌, ◌≤◌, ◌⊎◌, OnOk, IfOk, ℕ, List, [], ◌∷◌, Option, Some, None, slice_get};
ghost use Rattle.grammar.specs.Table.{row_at, row_byte_at};
ghost use Rattle.grammar.specs.Reading.{byte_at};
ghost use Rattle.wasm_ast.specs.View.{code_of};
ghost use Rattle.wasm_decode.specs.Parses.{Parses};
ghost use Rattle.wasm_decode.specs.Faults.{HasByte, IsFaultOf, IsFloatOpcode, IsReserved, Tells, TellsBy};
ghost use Rattle.wasm_decode.specs.declared.fault.FaultKind.TheVariants as faults;
ghost use Rattle.wasm_decode.specs.Opcodes.{opcodes};
ghost use Rattle.wasm_operators.specs.Operators.{load_rows, store_rows, operator_rows};
ghost use Rattle.wasm_bytes.specs.Place.{offset_of};
ghost use Rattle.wasm_decode.specs.OpReading.{reserved_at, reserved_index_at, argument_at, branch_table_at, other_at, plain_at};
ghost use Rattle.wasm_decode.specs.CodeReading.{block_at, conditional_at, step_at, body_at, below, closed_at, expression_at};

use crate::fault::{DecodeFault, FaultKind, refuse};
use crate::item::{list, unsigned};
use crate::limits::{MOST_INSTRUCTIONS, MOST_LABELS, MOST_NESTING};
use crate::types::block_type;
use std::alloc::Global;
use wasm_ast::{Block, Body, BranchTable, Conditional, Instr, MemoryArgument};
use wasm_bytes::Cursor;
use wasm_operators::{load, operator, store};
use wasm_profile::Profile;

/// What ends a body: `end`, or `else` after the first body of an `if`.
const END: u8 = 0x0b;

const ELSE: u8 = 0x05;

/// An opcode, and where it stands.
#[derive(Clone, Copy)]
struct Opcode {
    byte: u8,
    offset: usize,
}

fn next_opcode(cursor: &mut Cursor<'_>) -> Result<Opcode, DecodeFault>
    ensures read { Parses (λ o. o.byte) result cursor.new (byte_at cursor.old.rest) }
    ensures tells { Tells result cursor.old cursor.new }
    ensures here { IfOk result (λ o. slice_get cursor.old.whole o.offset ≡ Some o.byte) }
    ensures behind { IfOk result (λ o. offset_of cursor.new ≡ o.offset + 1) }
{
    let offset = cursor.offset();
    let byte = cursor.byte()?;
    Ok(Opcode { byte, offset })
}

#[tactic(auto, unfolding(crate::specs::OpReading::branch_table_at))]
fn branch_table(
    alloc: Global,
    cursor: &mut Cursor<'_>,
    profile: Profile,
) -> Result<BranchTable, DecodeFault>
    ensures read { Parses (λ t. (t.labels, t.default)) result cursor.new
        (branch_table_at cursor.old.rest) }
    ensures tells { TellsBy profile result cursor.old cursor.new }
{
    let labels = list::<u32>(alloc, cursor, profile, MOST_LABELS)?;
    let default = unsigned(cursor)?;
    Ok(BranchTable { labels, default })
}

/// A byte that has to be 0.
#[tactic(auto, unfolding(crate::specs::OpReading::reserved_at))]
fn reserved(cursor: &mut Cursor<'_>) -> Result<(), DecodeFault>
    requires { IsReserved cursor.old.whole (offset_of cursor.old) }
    ensures read { Parses (λ u. u) result cursor.new (reserved_at cursor.old.rest) }
    ensures tells { Tells result cursor.old cursor.new }
{
    let offset = cursor.offset();
    if cursor.byte()? != 0 {
        return refuse(FaultKind::Opcode, offset);
    }
    Ok(())
}

/// The index of a type, and a byte that has to be 0.
#[tactic(auto, unfolding(crate::specs::OpReading::reserved_index_at))]
fn reserved_index(cursor: &mut Cursor<'_>) -> Result<u32, DecodeFault>
    requires { (start : ℕ) × HasByte (λ o. o ≡ 0x11) cursor.old.whole start
        × (offset_of cursor.old ≡ start + 1) }
    ensures read { Parses (λ n. n) result cursor.new (reserved_index_at cursor.old.rest) }
    ensures tells { Tells result cursor.old cursor.new }
{
    let index = cursor.u32_leb()?;
    reserved(cursor)?;
    Ok(index)
}

/// Where a load or a store accesses the memory.
#[tactic(auto, unfolding(crate::specs::OpReading::argument_at))]
fn memory_argument(cursor: &mut Cursor<'_>) -> Result<MemoryArgument, DecodeFault>
    ensures read { Parses (λ a. a) result cursor.new (argument_at cursor.old.rest) }
    ensures tells { Tells result cursor.old cursor.new }
{
    let align = unsigned(cursor)?;
    let offset = unsigned(cursor)?;
    Ok(MemoryArgument { align, offset })
}

/// The fault of an opcode that is not of the profile: those of floats are told apart.
fn opcode_fault(opcode: u8, profile: Profile) -> FaultKind
    requires { row_at (opcodes profile) opcode ≡ None }
    ensures stands { IsFaultOf profile opcode result }
    ensures float { IsFloatOpcode opcode → result ≡ faults.Float }
    ensures other { ¬ IsFloatOpcode opcode → result ≡ faults.Opcode }
{
    match opcode {
        0x2a | 0x2b | 0x38 | 0x39 | 0x43 | 0x44 | 0x5b..=0x66 => FaultKind::Float,
        0x8b..=0xa6 | 0xa8..=0xab | 0xae..=0xbf => FaultKind::Float,
        _ => FaultKind::Opcode,
    }
}

/// An instruction with no instruction inside that is no operator, load or store, after its opcode.
#[tactic(auto, unfolding(crate::specs::OpReading::other_at, crate::specs::Opcodes::other_rows))]
fn other(
    alloc: Global,
    cursor: &mut Cursor<'_>,
    profile: Profile,
    opcode: Opcode,
) -> Result<Instr, DecodeFault>
    requires here { slice_get cursor.old.whole opcode.offset ≡ Some opcode.byte }
    requires behind { offset_of cursor.old ≡ opcode.offset + 1 }
    requires operator { row_at (operator_rows profile) opcode.byte ≡ None }
    requires load { row_at load_rows opcode.byte ≡ None }
    requires store { row_at store_rows opcode.byte ≡ None }
    ensures read { Parses (λ i. code_of (i ∷ [])) result cursor.new
        (other_at opcode.byte cursor.old.rest) }
    ensures tells { TellsBy profile result cursor.old cursor.new }
{
    Ok(match opcode.byte {
        0x00 => Instr::Unreachable,
        0x01 => Instr::Nop,
        0x0c => Instr::Br(unsigned(cursor)?),
        0x0d => Instr::BrIf(unsigned(cursor)?),
        0x0e => Instr::BrTable(Box::new(alloc, branch_table(alloc, cursor, profile)?)?),
        0x0f => Instr::Return,
        0x10 => Instr::Call(unsigned(cursor)?),
        0x11 => Instr::CallIndirect(reserved_index(cursor)?),
        0x1a => Instr::Drop,
        0x1b => Instr::Select,
        0x20 => Instr::LocalGet(unsigned(cursor)?),
        0x21 => Instr::LocalSet(unsigned(cursor)?),
        0x22 => Instr::LocalTee(unsigned(cursor)?),
        0x23 => Instr::GlobalGet(unsigned(cursor)?),
        0x24 => Instr::GlobalSet(unsigned(cursor)?),
        0x3f => {
            reserved(cursor)?;
            Instr::MemorySize
        }
        0x40 => {
            reserved(cursor)?;
            Instr::MemoryGrow
        }
        0x41 => Instr::I32Const(cursor.i32_leb()?.cast_unsigned()),
        0x42 => Instr::I64Const(cursor.i64_leb()?.cast_unsigned()),
        _ => return refuse(opcode_fault(opcode.byte, profile), opcode.offset),
    })
}

/// An instruction with no instruction inside, after its opcode.
#[tactic(auto, unfolding(crate::specs::OpReading::plain_at))]
fn plain(
    alloc: Global,
    cursor: &mut Cursor<'_>,
    profile: Profile,
    opcode: Opcode,
) -> Result<Instr, DecodeFault>
    requires here { slice_get cursor.old.whole opcode.offset ≡ Some opcode.byte }
    requires behind { offset_of cursor.old ≡ opcode.offset + 1 }
    ensures read { Parses (λ i. code_of (i ∷ [])) result cursor.new
        (plain_at profile opcode.byte cursor.old.rest) }
    ensures tells { TellsBy profile result cursor.old cursor.new }
{
    if let Some(instruction) = operator(opcode.byte, profile) {
        return Ok(instruction);
    }
    if let Some(load) = load(opcode.byte) {
        return Ok(Instr::Load(load, memory_argument(cursor)?));
    }
    if let Some(store) = store(opcode.byte) {
        return Ok(Instr::Store(store, memory_argument(cursor)?));
    }
    other(alloc, cursor, profile, opcode)
}

/// Where instructions stand: by which profile they are read, and how deep blocks may nest in them.
#[derive(Clone, Copy)]
struct Level {
    profile: Profile,
    nesting: u32,
}

/// The body of a `block` or a `loop`, in which blocks may nest one level less.
#[cycle(code)]
#[tactic(auto, unfolding(crate::specs::CodeReading::block_at))]
fn block(
    alloc: Global,
    cursor: &mut Cursor<'_>,
    level: Level,
    opcode: Opcode,
    left: &mut u32,
) -> Result<Box<Block>, DecodeFault>
    requires here { slice_get cursor.old.whole opcode.offset ≡ Some opcode.byte }
    requires opens { (0x02 ≤ opcode.byte) × (opcode.byte ≤ 0x04) }
    ensures read { Parses
        (λ b. record { result = b.value.result; body = b.value.body; left = left.new }) result
        cursor.new (block_at (below level.profile level.nesting) left.old cursor.old.rest) }
    ensures tells { TellsBy level.profile result cursor.old cursor.new }
    ensures fewer { OnOk result (left.new ≤ left.old) }
{
    if level.nesting == 0 {
        return refuse(FaultKind::Limit, opcode.offset);
    }
    let inner = Level {
        nesting: level.nesting - 1,
        ..level
    };
    let result = block_type(cursor)?;
    let body = closed(alloc, cursor, inner, left)?;
    Ok(Box::new(alloc, Block { result, body })?)
}

/// The bodies of an `if`, in which blocks may nest one level less.
#[cycle(code)]
#[tactic(auto, unfolding(crate::specs::CodeReading::conditional_at))]
fn conditional(
    alloc: Global,
    cursor: &mut Cursor<'_>,
    level: Level,
    opcode: Opcode,
    left: &mut u32,
) -> Result<Conditional, DecodeFault>
    requires here { slice_get cursor.old.whole opcode.offset ≡ Some opcode.byte }
    requires opens { (0x02 ≤ opcode.byte) × (opcode.byte ≤ 0x04) }
    ensures read { Parses
        (λ c. record { result = c.result; yes = c.yes; no = c.no; left = left.new }) result
        cursor.new (conditional_at (below level.profile level.nesting) left.old cursor.old.rest) }
    ensures tells { TellsBy level.profile result cursor.old cursor.new }
    ensures fewer { OnOk result (left.new ≤ left.old) }
{
    if level.nesting == 0 {
        return refuse(FaultKind::Limit, opcode.offset);
    }
    let inner = Level {
        nesting: level.nesting - 1,
        ..level
    };
    let result = block_type(cursor)?;
    let (yes, last) = instructions(alloc, cursor, inner, left)?;
    if last.byte == END {
        let no = Body::new(Vec::new(alloc));
        return Ok(Conditional { result, yes, no });
    }
    let no = closed(alloc, cursor, inner, left)?;
    Ok(Conditional { result, yes, no })
}

/// An instruction after its opcode.
#[cycle(code)]
#[tactic(auto, unfolding(crate::specs::CodeReading::step_at))]
fn instruction(
    alloc: Global,
    cursor: &mut Cursor<'_>,
    level: Level,
    opcode: Opcode,
    left: &mut u32,
) -> Result<Instr, DecodeFault>
    requires here { slice_get cursor.old.whole opcode.offset ≡ Some opcode.byte }
    requires behind { offset_of cursor.old ≡ opcode.offset + 1 }
    ensures read { Parses (λ i. record { code = code_of (i ∷ []); left = left.new }) result
        cursor.new
        (step_at level.profile (below level.profile level.nesting) opcode.byte left.old
        cursor.old.rest) }
    ensures tells { TellsBy level.profile result cursor.old cursor.new }
    ensures fewer { OnOk result (left.new ≤ left.old) }
{
    match opcode.byte {
        0x02 => Ok(Instr::Block(block(alloc, cursor, level, opcode, left)?)),
        0x03 => Ok(Instr::Loop(block(alloc, cursor, level, opcode, left)?)),
        0x04 => {
            let conditional = conditional(alloc, cursor, level, opcode, left)?;
            Ok(Instr::If(Box::new(alloc, conditional)?))
        }
        _ => plain(alloc, cursor, level.profile, opcode),
    }
}

/// Instructions, and the opcode that ends them. Each takes one off what is left.
#[cycle(code)]
fn instructions(
    alloc: Global,
    cursor: &mut Cursor<'_>,
    level: Level,
    left: &mut u32,
) -> Result<(Body, Opcode), DecodeFault>
    ensures read { Parses (λ x. record { code = x.0; last = x.1.byte; left = left.new }) result
        cursor.new (body_at level.profile level.nesting left.old cursor.old.rest) }
    ensures tells { TellsBy level.profile result cursor.old cursor.new }
    ensures here { IfOk result (λ x. slice_get cursor.old.whole x.1.offset ≡ Some x.1.byte) }
    ensures last { IfOk result (λ x. (x.1.byte ≡ 0x05) ⊎ (x.1.byte ≡ 0x0b)) }
    ensures fewer { OnOk result (left.new ≤ left.old) }
{
    let mut items = Vec::new(alloc);
    'items: loop {
        let opcode = next_opcode(cursor)?;
        if opcode.byte == END || opcode.byte == ELSE {
            return Ok((Body::new(items), opcode));
        }
        if *left == 0 {
            return refuse(FaultKind::Limit, opcode.offset);
        }
        *left -= 1;
        items.push(instruction(alloc, cursor, level, opcode, left)?)?;
    }
}

/// Instructions, and the `end` after them.
#[cycle(code)]
#[tactic(auto, unfolding(crate::specs::CodeReading::closed_at))]
fn closed(
    alloc: Global,
    cursor: &mut Cursor<'_>,
    level: Level,
    left: &mut u32,
) -> Result<Body, DecodeFault>
    ensures read { Parses (λ b. record { code = b; left = left.new }) result cursor.new
        (closed_at (body_at level.profile level.nesting) left.old cursor.old.rest) }
    ensures tells { TellsBy level.profile result cursor.old cursor.new }
    ensures fewer { OnOk result (left.new ≤ left.old) }
{
    let (body, last) = instructions(alloc, cursor, level, left)?;
    if last.byte != END {
        return refuse(FaultKind::Opcode, last.offset);
    }
    Ok(body)
}

/// An expression within the limits.
#[tactic(auto, unfolding(crate::specs::CodeReading::expression_at))]
pub(crate) fn expression(
    alloc: Global,
    cursor: &mut Cursor<'_>,
    profile: Profile,
) -> Result<Body, DecodeFault>
    ensures read { Parses (λ b. b) result cursor.new (expression_at profile cursor.old.rest) }
    ensures tells { TellsBy profile result cursor.old cursor.new }
{
    let level = Level {
        profile,
        nesting: MOST_NESTING,
    };
    let mut left = MOST_INSTRUCTIONS;
    closed(alloc, cursor, level, &mut left)
}
