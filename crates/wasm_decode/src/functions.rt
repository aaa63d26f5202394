//! Globals, the code of functions, and segments (WebAssembly Core 1.0, sections 5.5.9 and 5.5.12 to
//! 5.5.14).

ghost use Rattle.std.specs.Prelude.{◌≡◌, ◌^◌, ◌-◌, ◌≤◌, ◌++◌, ℕ, List, Option, Some, IfOk, replicate, length};
ghost use Rattle.wasm_decode.specs.Parses.{Parses};
ghost use Rattle.wasm_decode.specs.Faults.{Tells, TellsBy};
ghost use Rattle.wasm_decode.specs.FunctionReading.{groups_at, locals_at, code_parts_at, code_at, codes_at, functions_at, global_at, element_at, data_at};

use crate::code::expression;
use crate::fault::{DecodeFault, FaultKind, refuse};
use crate::item::{Item, list, number, unsigned};
use crate::limits::{MODULE_BYTES, MOST_ENTRIES, MOST_FUNCTIONS, MOST_LOCALS};
use crate::types::{global_type, value_type};
use seq::Seq;
use std::alloc::{AllocError, Global};
use wasm_ast::{DataSegment, ElementSegment, Func, Functions, ValueType};
use wasm_bytes::Cursor;
use wasm_profile::Profile;

fn push_locals(
    locals: &mut Vec<ValueType>,
    count: u32,
    value_type: ValueType,
) -> Result<(), AllocError>
    ensures { IfOk result (λ _. locals.new.items ≡ locals.old.items ++ replicate count value_type) }
{
    for _ in 0..count {
        locals.push(value_type)?;
    }
    Ok(())
}

/// So many groups of locals, each of a count and a type.
fn groups(alloc: Global, cursor: &mut Cursor<'_>, count: u32) -> Result<Seq<ValueType>, DecodeFault>
    ensures read { Parses (λ x. x) result cursor.new (groups_at MOST_LOCALS count cursor.old.rest) }
    ensures tells { Tells result cursor.old cursor.new }
{
    let mut locals = Vec::new(alloc);
    let mut room = MOST_LOCALS;
    for _ in 0..count {
        let count = number(cursor, room)?;
        let value_type = value_type(cursor)?;
        push_locals(&mut locals, count, value_type)?;
        room -= count;
    }
    Ok(Seq::new(locals))
}

/// The declared locals of a function.
#[tactic(auto, unfolding(crate::specs::FunctionReading::locals_at))]
fn locals(alloc: Global, cursor: &mut Cursor<'_>) -> Result<Seq<ValueType>, DecodeFault>
    ensures read { Parses (λ x. x) result cursor.new (locals_at cursor.old.rest) }
    ensures tells { Tells result cursor.old cursor.new }
{
    let count = unsigned(cursor)?;
    groups(alloc, cursor, count)
}

fn code_parts(
    alloc: Global,
    cursor: &mut Cursor<'_>,
    profile: Profile,
    type_index: u32,
) -> Result<Func, DecodeFault>
    ensures read { Parses (λ x. x) result cursor.new (code_parts_at profile type_index cursor.old.rest) }
    ensures tells { TellsBy profile result cursor.old cursor.new }
{
    let locals = locals(alloc, cursor)?;
    let body = expression(alloc, cursor, profile)?;
    Ok(Func {
        type_index,
        locals,
        body,
    })
}

/// The function of a type, by its code.
#[tactic(auto, unfolding(crate::specs::FunctionReading::code_at, grammar::specs::Reading::measured_at))]
fn code(
    alloc: Global,
    cursor: &mut Cursor<'_>,
    profile: Profile,
    type_index: u32,
) -> Result<Func, DecodeFault>
    ensures read { Parses (λ x. x) result cursor.new (code_at profile type_index cursor.old.rest) }
    ensures tells { TellsBy profile result cursor.old cursor.new }
{
    let offset = cursor.offset();
    let size = cursor.u32_leb()?;
    let Some(mut content) = cursor.split(size) else {
        return refuse(FaultKind::Length, offset);
    };
    let function = code_parts(alloc, &mut content, profile, type_index)?;
    if !content.is_at_end() {
        return refuse(FaultKind::Length, offset);
    }
    Ok(function)
}

/// The functions of these types, by their code.
fn codes(
    alloc: Global,
    cursor: &mut Cursor<'_>,
    profile: Profile,
    type_indices: &[u32],
) -> Result<Seq<Func>, DecodeFault>
    ensures read { Parses (λ x. x) result cursor.new (codes_at profile type_indices.now cursor.old.rest) }
    ensures tells { TellsBy profile result cursor.old cursor.new }
{
    let mut functions = Vec::new(alloc);
    for type_index in type_indices {
        functions.push(code(alloc, cursor, profile, *type_index)?)?;
    }
    Ok(Seq::new(functions))
}

/// The defined functions, of which the types are given.
#[tactic(auto, unfolding(crate::specs::FunctionReading::functions_at))]
pub(crate) fn functions(
    alloc: Global,
    cursor: &mut Cursor<'_>,
    profile: Profile,
    type_indices: &[u32],
) -> Result<Functions, DecodeFault>
    requires { length cursor.old.rest ≤ MODULE_BYTES }
    ensures read { Parses (λ x. x) result cursor.new
        (functions_at profile type_indices.now cursor.old.rest) }
    ensures tells { TellsBy profile result cursor.old cursor.new }
{
    let offset = cursor.offset();
    let count = number(cursor, MOST_FUNCTIONS)?;
    if count as usize != type_indices.len() {
        return refuse(FaultKind::CountsDiffer, offset);
    }
    Ok(Functions::new(codes(alloc, cursor, profile, type_indices)?))
}

impl Item for wasm_ast::Global {
    type Value = wasm_ast::Global;

    ghost reads = { global_at };

    #[tactic(auto, unfolding(crate::specs::FunctionReading::global_at))]
    fn read(
        alloc: Global,
        cursor: &mut Cursor<'_>,
        profile: Profile,
    ) -> Result<wasm_ast::Global, DecodeFault> {
        let global_type = global_type(cursor)?;
        let initializer = expression(alloc, cursor, profile)?;
        Ok(wasm_ast::Global {
            global_type,
            initializer,
        })
    }
}

impl Item for ElementSegment {
    type Value = ElementSegment;

    ghost reads = { element_at };

    #[tactic(auto, unfolding(crate::specs::FunctionReading::element_at))]
    fn read(
        alloc: Global,
        cursor: &mut Cursor<'_>,
        profile: Profile,
    ) -> Result<ElementSegment, DecodeFault> {
        let table = unsigned(cursor)?;
        let offset = expression(alloc, cursor, profile)?;
        let functions = list::<u32>(alloc, cursor, profile, MOST_ENTRIES)?;
        Ok(ElementSegment {
            table,
            offset,
            functions,
        })
    }
}

impl Item for DataSegment {
    type Value = DataSegment;

    ghost reads = { data_at };

    #[tactic(auto, unfolding(crate::specs::FunctionReading::data_at))]
    fn read(
        alloc: Global,
        cursor: &mut Cursor<'_>,
        profile: Profile,
    ) -> Result<DataSegment, DecodeFault> {
        let memory = unsigned(cursor)?;
        let offset = expression(alloc, cursor, profile)?;
        let bytes = list::<u8>(alloc, cursor, profile, u32::MAX)?;
        Ok(DataSegment {
            memory,
            offset,
            bytes,
        })
    }
}
