//! Sections (WebAssembly Core 1.0, section 5.5.2).

ghost use Rattle.std.specs.Prelude.{◌≡◌, ◌<◌, ◌≤◌, ℕ, List, Option, Some, None, IfOk, OnOk, length, slice_get};
ghost use Rattle.grammar.specs.Reading.{whole_at};
ghost use Rattle.grammar.specs.Table.{row_at};
ghost use Rattle.wasm_bytes.specs.Place.{offset_of};
ghost use Rattle.wasm_bytes.specs.Reading.{list_at, sized_at};
ghost use Rattle.wasm_profile.specs.declared.profile.Profile.{Profile};
ghost use Rattle.wasm_decode.specs.Parses.{Parses, Makes};
ghost use Rattle.wasm_decode.specs.Faults.{ComesBehind, PassesSized, Tells, TellsBy};
ghost use Rattle.wasm_decode.specs.declared.fault.FaultKind.TheVariants as faults;
ghost use Rattle.wasm_decode.specs.declared.sections.Kind.TheVariants as kinds;
ghost use Rattle.wasm_decode.specs.SectionReading.{section_rows, custom_at, fill_at, section_at, sections_at};

use crate::fault::{DecodeFault, FaultKind, refuse};
use crate::functions::functions;
use crate::item::{Item, list};
use crate::limits::{MODULE_BYTES, MOST_FUNCTIONS, MOST_PARTS, MOST_TYPES};
use crate::types::{MemoryType, TableType};
use seq::Seq;
use std::alloc::Global;
use wasm_ast::{
    DataSegment, ElementSegment, Export, FuncType, Global as ModuleGlobal, Import, Module,
};
use wasm_bytes::Cursor;
use wasm_profile::Profile;

/// What a section holds.
#[derive(Clone, Copy)]
pub(crate) enum Kind {
    Types,
    Imports,
    TypeIndices,
    Tables,
    Memories,
    Globals,
    Exports,
    Elements,
    Functions,
    Data,
}

/// What was read so far: the module, and the types of its functions, whose code comes later.
#[derive(Drop)]
pub(crate) struct Parts {
    pub(crate) type_indices: Seq<u32>,
    pub(crate) module: Module,
}

fn section_kind(id: u8) -> Option<Kind>
    ensures { result ≡ row_at section_rows id }
{
    match id {
        1 => Some(Kind::Types),
        2 => Some(Kind::Imports),
        3 => Some(Kind::TypeIndices),
        4 => Some(Kind::Tables),
        5 => Some(Kind::Memories),
        6 => Some(Kind::Globals),
        7 => Some(Kind::Exports),
        9 => Some(Kind::Elements),
        10 => Some(Kind::Functions),
        11 => Some(Kind::Data),
        _ => None,
    }
}

/// The fault of a section that may not stand here.
fn order_fault(last: u8, id: u8) -> FaultKind
    ensures start { (id ≡ 8) × (last < 8) → result ≡ faults.StartSection }
    ensures other { ¬ ((id ≡ 8) × (last < 8)) → result ≡ faults.SectionOrder }
{
    if id == 8 && last < 8 {
        FaultKind::StartSection
    } else {
        FaultKind::SectionOrder
    }
}

/// At most so many items, in place of those that were there.
fn refill<T: Item>(
    alloc: Global,
    cursor: &mut Cursor<'_>,
    profile: Profile,
    most: u32,
    items: &mut Seq<T::Value>,
) -> Result<(), DecodeFault>
    ensures read { Parses (λ _. items.new) result cursor.new
        (list_at most (T.reads profile) cursor.old.rest) }
    ensures tells { TellsBy profile result cursor.old cursor.new }
{
    *items = list::<T>(alloc, cursor, profile, most)?;
    Ok(())
}

/// At most [`MOST_PARTS`] items, in place of those that were there.
fn refill_part<T: Item>(
    alloc: Global,
    cursor: &mut Cursor<'_>,
    profile: Profile,
    items: &mut Seq<T::Value>,
) -> Result<(), DecodeFault>
    ensures read { Parses (λ _. items.new) result cursor.new
        (list_at MOST_PARTS (T.reads profile) cursor.old.rest) }
    ensures tells { TellsBy profile result cursor.old cursor.new }
{
    refill::<T>(alloc, cursor, profile, MOST_PARTS, items)
}

/// The functions whose types were read, in place of those that were there.
fn refill_functions(
    alloc: Global,
    cursor: &mut Cursor<'_>,
    profile: Profile,
    parts: &mut Parts,
) -> Result<(), DecodeFault>
    requires { length cursor.old.rest ≤ MODULE_BYTES }
    ensures read { Parses (λ _. parts.new) result cursor.new
        (fill_at profile kinds.Functions parts.old cursor.old.rest) }
    ensures tells { TellsBy profile result cursor.old cursor.new }
{
    parts.module.functions = functions(alloc, cursor, profile, parts.type_indices.as_slice())?;
    Ok(())
}

/// The part of the module that a section holds.
fn fill(
    alloc: Global,
    cursor: &mut Cursor<'_>,
    profile: Profile,
    kind: Kind,
    parts: &mut Parts,
) -> Result<(), DecodeFault>
    requires { length cursor.old.rest ≤ MODULE_BYTES }
    ensures read { Parses (λ _. parts.new) result cursor.new
        (fill_at profile kind parts.old cursor.old.rest) }
    ensures tells { TellsBy profile result cursor.old cursor.new }
{
    match kind {
        Kind::Types => {
            refill::<FuncType>(alloc, cursor, profile, MOST_TYPES, &mut parts.module.types)
        }
        Kind::Imports => refill_part::<Import>(alloc, cursor, profile, &mut parts.module.imports),
        Kind::TypeIndices => {
            refill::<u32>(
                alloc,
                cursor,
                profile,
                MOST_FUNCTIONS,
                &mut parts.type_indices,
            )
        }
        Kind::Tables => refill_part::<TableType>(alloc, cursor, profile, &mut parts.module.tables),
        Kind::Memories => {
            refill_part::<MemoryType>(alloc, cursor, profile, &mut parts.module.memories)
        }
        Kind::Globals => {
            refill_part::<ModuleGlobal>(alloc, cursor, profile, &mut parts.module.globals)
        }
        Kind::Exports => refill_part::<Export>(alloc, cursor, profile, &mut parts.module.exports),
        Kind::Elements => {
            refill_part::<ElementSegment>(alloc, cursor, profile, &mut parts.module.elements)
        }
        Kind::Functions => refill_functions(alloc, cursor, profile, parts),
        Kind::Data => refill_part::<DataSegment>(alloc, cursor, profile, &mut parts.module.data),
    }
}

/// A custom section after its id: a name, and any bytes.
#[tactic(auto, unfolding(grammar::specs::Reading::measured_at))]
fn custom(cursor: &mut Cursor<'_>) -> Result<(), DecodeFault>
    ensures read { Parses (λ u. u) result cursor.new (sized_at custom_at cursor.old.rest) }
    ensures tells { Tells result cursor.old cursor.new }
    ensures sized { IfOk result (λ _. PassesSized cursor.old cursor.new) }
    ensures shorter { OnOk result (length cursor.new.rest < length cursor.old.rest) }
{
    let offset = cursor.offset();
    let size = cursor.u32_leb()?;
    let Some(mut content) = cursor.split(size) else {
        return refuse(FaultKind::Length, offset);
    };
    content.name()?;
    Ok(())
}

/// A section of a kind, after its id.
#[tactic(auto, unfolding(grammar::specs::Reading::measured_at))]
fn known(
    alloc: Global,
    cursor: &mut Cursor<'_>,
    profile: Profile,
    kind: Kind,
    parts: &mut Parts,
) -> Result<(), DecodeFault>
    requires { length cursor.old.rest ≤ MODULE_BYTES }
    ensures read { Parses (λ _. parts.new) result cursor.new
        (sized_at (whole_at (fill_at profile kind parts.old)) cursor.old.rest) }
    ensures tells { TellsBy profile result cursor.old cursor.new }
    ensures sized { IfOk result (λ _. PassesSized cursor.old cursor.new) }
    ensures shorter { OnOk result (length cursor.new.rest < length cursor.old.rest) }
{
    let offset = cursor.offset();
    let size = cursor.u32_leb()?;
    let Some(mut content) = cursor.split(size) else {
        return refuse(FaultKind::Length, offset);
    };
    fill(alloc, &mut content, profile, kind, parts)?;
    if !content.is_at_end() {
        return refuse(FaultKind::Length, offset);
    }
    Ok(())
}

/// A section, and the id after which the next has to come.
#[tactic(auto, unfolding(crate::specs::SectionReading::section_at))]
fn section(
    alloc: Global,
    cursor: &mut Cursor<'_>,
    profile: Profile,
    last: u8,
    parts: &mut Parts,
) -> Result<u8, DecodeFault>
    requires few { length cursor.old.rest ≤ MODULE_BYTES }
    requires behind { ComesBehind last cursor.old.whole (offset_of cursor.old) }
    ensures read { Parses (λ id. (id, parts.new)) result cursor.new
        (section_at profile last parts.old cursor.old.rest) }
    ensures tells { TellsBy profile result cursor.old cursor.new }
    ensures behind { IfOk result (λ id. ComesBehind id cursor.new.whole (offset_of cursor.new)) }
    ensures shorter { OnOk result (length cursor.new.rest < length cursor.old.rest) }
{
    let offset = cursor.offset();
    let id = cursor.byte()?;
    if id == 0 {
        custom(cursor)?;
        return Ok(last);
    }
    let Some(kind) = section_kind(id) else {
        return refuse(order_fault(last, id), offset);
    };
    if id <= last {
        return refuse(FaultKind::SectionOrder, offset);
    }
    known(alloc, cursor, profile, kind, parts)?;
    Ok(id)
}

/// Sections up to the end.
pub(crate) fn sections(
    alloc: Global,
    cursor: &mut Cursor<'_>,
    profile: Profile,
    parts: &mut Parts,
) -> Result<(), DecodeFault>
    requires few { length cursor.old.rest ≤ MODULE_BYTES }
    requires start { offset_of cursor.old ≡ 8 }
    ensures read { Makes (λ _. parts.new) result
        (sections_at profile (length cursor.old.rest) 0 parts.old cursor.old.rest) }
    ensures tells { TellsBy profile result cursor.old cursor.new }
{
    let mut last = 0;
    'sections: while !cursor.is_at_end() {
        last = section(alloc, cursor, profile, last, parts)?;
    }
    Ok(())
}
