//! Types (WebAssembly Core 1.0, section 5.3).

ghost use Rattle.std.specs.Prelude.{◌≡◌, ◌^◌, ℕ, List, Option, Some, slice_get};
ghost use Rattle.grammar.specs.Table.{row_at, row_byte_at};
ghost use Rattle.wasm_bytes.specs.Reading.{u32_at};
ghost use Rattle.wasm_profile.specs.declared.profile.Profile.{Profile};
ghost use Rattle.wasm_decode.specs.Parses.{Parses};
ghost use Rattle.wasm_decode.specs.Faults.{IsFaultOf, IsFloatType, Tells};
ghost use Rattle.wasm_decode.specs.declared.fault.FaultKind.TheVariants as faults;
ghost use Rattle.wasm_decode.specs.Tables.{value_type_rows, block_type_rows, flag_rows};
ghost use Rattle.wasm_decode.specs.TypeReading.{value_type_at, result_at, func_type_at, limits_at, table_type_at, memory_type_at, global_type_at};

use crate::fault::{DecodeFault, FaultKind, refuse};
use crate::item::{Item, list, number, unsigned};
use crate::limits::{MOST_ENTRIES, MOST_PAGES, MOST_PARAMETERS};
use std::alloc::Global;
use wasm_ast::{BlockType, FuncType, GlobalType, Limits, Parameters, ValueType};
use wasm_bytes::Cursor;
use wasm_profile::Profile;

fn value_type_of(byte: u8) -> Option<ValueType>
    ensures { result ≡ row_at value_type_rows byte }
{
    match byte {
        0x7f => Some(ValueType::I32),
        0x7e => Some(ValueType::I64),
        _ => None,
    }
}

/// The fault of a byte that stands for no type: f32 and f64 are told apart.
fn type_fault(byte: u8) -> FaultKind
    ensures stands { (profile : Profile) → IsFaultOf profile byte result }
    ensures float { IsFloatType byte → result ≡ faults.Float }
    ensures other { ¬ IsFloatType byte → result ≡ faults.TypeByte }
{
    match byte {
        0x7c | 0x7d => FaultKind::Float,
        _ => FaultKind::TypeByte,
    }
}

/// A value type.
pub(crate) fn value_type(cursor: &mut Cursor<'_>) -> Result<ValueType, DecodeFault>
    ensures read { Parses (λ x. x) result cursor.new (value_type_at cursor.old.rest) }
    ensures tells { Tells result cursor.old cursor.new }
{
    let offset = cursor.offset();
    let byte = cursor.byte()?;
    match value_type_of(byte) {
        Some(value_type) => Ok(value_type),
        None => refuse(type_fault(byte), offset),
    }
}

impl Item for ValueType {
    type Value = ValueType;

    ghost reads = { λ _. value_type_at };

    fn read(
        _alloc: Global,
        cursor: &mut Cursor<'_>,
        _profile: Profile,
    ) -> Result<ValueType, DecodeFault> {
        value_type(cursor)
    }
}

fn block_type_of(byte: u8) -> Option<BlockType>
    ensures { result ≡ row_at block_type_rows byte }
{
    match byte {
        0x40 => Some(None),
        0x7f => Some(Some(ValueType::I32)),
        0x7e => Some(Some(ValueType::I64)),
        _ => None,
    }
}

/// What a block leaves.
pub(crate) fn block_type(cursor: &mut Cursor<'_>) -> Result<BlockType, DecodeFault>
    ensures read { Parses (λ x. x) result cursor.new (row_byte_at block_type_rows cursor.old.rest) }
    ensures tells { Tells result cursor.old cursor.new }
{
    let offset = cursor.offset();
    let byte = cursor.byte()?;
    match block_type_of(byte) {
        Some(block_type) => Ok(block_type),
        None => refuse(type_fault(byte), offset),
    }
}

/// At most one type.
#[tactic(auto, unfolding(crate::specs::TypeReading::result_at))]
fn result_type(cursor: &mut Cursor<'_>) -> Result<Option<ValueType>, DecodeFault>
    ensures read { Parses (λ x. x) result cursor.new (result_at cursor.old.rest) }
    ensures tells { Tells result cursor.old cursor.new }
{
    let count = number(cursor, 1)?;
    if count == 0 {
        return Ok(None);
    }
    Ok(Some(value_type(cursor)?))
}

impl Item for FuncType {
    type Value = FuncType;

    ghost reads = { λ _. func_type_at };

    #[tactic(auto, using(crate::proofs::Weights::parameters_few), unfolding(crate::specs::TypeReading::func_type_at))]
    fn read(
        alloc: Global,
        cursor: &mut Cursor<'_>,
        profile: Profile,
    ) -> Result<FuncType, DecodeFault> {
        let offset = cursor.offset();
        if cursor.byte()? != 0x60 {
            return refuse(FaultKind::TypeByte, offset);
        }
        let params = Parameters::new(list::<ValueType>(alloc, cursor, profile, MOST_PARAMETERS)?);
        let result = result_type(cursor)?;
        Ok(FuncType { params, result })
    }
}

fn flag_of(byte: u8) -> Option<bool>
    ensures { result ≡ row_at flag_rows byte }
{
    match byte {
        0 => Some(false),
        1 => Some(true),
        _ => None,
    }
}

/// A byte that says whether something is there.
fn flag(cursor: &mut Cursor<'_>) -> Result<bool, DecodeFault>
    ensures read { Parses (λ x. x) result cursor.new (row_byte_at flag_rows cursor.old.rest) }
    ensures tells { Tells result cursor.old cursor.new }
{
    let offset = cursor.offset();
    match flag_of(cursor.byte()?) {
        Some(flag) => Ok(flag),
        None => refuse(FaultKind::TypeByte, offset),
    }
}

/// Limits of which the least is at most so large.
#[tactic(auto, unfolding(crate::specs::TypeReading::limits_at))]
fn limits(cursor: &mut Cursor<'_>, most: u32) -> Result<Limits, DecodeFault>
    ensures read { Parses (λ x. x) result cursor.new (limits_at most cursor.old.rest) }
    ensures tells { Tells result cursor.old cursor.new }
{
    let has_greatest = flag(cursor)?;
    let least = number(cursor, most)?;
    if !has_greatest {
        return Ok(Limits {
            least,
            greatest: None,
        });
    }
    let greatest = Some(unsigned(cursor)?);
    Ok(Limits { least, greatest })
}

/// The limits of a table of functions.
#[tactic(auto, unfolding(crate::specs::TypeReading::table_type_at))]
pub(crate) fn table_type(cursor: &mut Cursor<'_>) -> Result<Limits, DecodeFault>
    ensures read { Parses (λ x. x) result cursor.new (table_type_at cursor.old.rest) }
    ensures tells { Tells result cursor.old cursor.new }
{
    let offset = cursor.offset();
    if cursor.byte()? != 0x70 {
        return refuse(FaultKind::TypeByte, offset);
    }
    limits(cursor, MOST_ENTRIES)
}

/// The limits of a memory.
#[tactic(auto, unfolding(crate::specs::TypeReading::memory_type_at))]
pub(crate) fn memory_type(cursor: &mut Cursor<'_>) -> Result<Limits, DecodeFault>
    ensures read { Parses (λ x. x) result cursor.new (memory_type_at cursor.old.rest) }
    ensures tells { Tells result cursor.old cursor.new }
{
    limits(cursor, MOST_PAGES)
}

/// The type of a table, as an item.
pub(crate) enum TableType {}

impl Item for TableType {
    type Value = Limits;

    ghost reads = { λ _. table_type_at };

    fn read(
        _alloc: Global,
        cursor: &mut Cursor<'_>,
        _profile: Profile,
    ) -> Result<Limits, DecodeFault> {
        table_type(cursor)
    }
}

/// The type of a memory, as an item.
pub(crate) enum MemoryType {}

impl Item for MemoryType {
    type Value = Limits;

    ghost reads = { λ _. memory_type_at };

    fn read(
        _alloc: Global,
        cursor: &mut Cursor<'_>,
        _profile: Profile,
    ) -> Result<Limits, DecodeFault> {
        memory_type(cursor)
    }
}

/// The type of a global.
#[tactic(auto, unfolding(crate::specs::TypeReading::global_type_at))]
pub(crate) fn global_type(cursor: &mut Cursor<'_>) -> Result<GlobalType, DecodeFault>
    ensures read { Parses (λ x. x) result cursor.new (global_type_at cursor.old.rest) }
    ensures tells { Tells result cursor.old cursor.new }
{
    let value_type = value_type(cursor)?;
    let is_variable = flag(cursor)?;
    Ok(GlobalType {
        value_type,
        is_variable,
    })
}
