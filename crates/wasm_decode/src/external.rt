//! Imports and exports (WebAssembly Core 1.0, sections 5.5.5 and 5.5.10).

ghost use Rattle.std.specs.Prelude.{◌≡◌, ◌^◌, ℕ, List, Option, Some};
ghost use Rattle.grammar.specs.Table.{row_at, row_byte_at};
ghost use Rattle.wasm_bytes.specs.Reading.{u32_at, name_at};
ghost use Rattle.wasm_decode.specs.Parses.{Parses};
ghost use Rattle.wasm_decode.specs.Faults.{Tells};
ghost use Rattle.wasm_decode.specs.Tables.{external_kind_rows};
ghost use Rattle.wasm_decode.specs.ExternalReading.{import_after, import_at, export_at};

use crate::fault::{DecodeFault, FaultKind, refuse};
use crate::item::{Item, unsigned};
use crate::types::{global_type, memory_type, table_type};
use std::alloc::Global;
use wasm_ast::{Export, ExternalKind, Import, ImportKind, Name};
use wasm_bytes::Cursor;
use wasm_profile::Profile;

fn name(alloc: Global, cursor: &mut Cursor<'_>) -> Result<Name, DecodeFault>
    ensures read { Parses (λ x. x) result cursor.new (name_at cursor.old.rest) }
    ensures tells { Tells result cursor.old cursor.new }
{
    let text = cursor.name()?;
    Ok(Name::new(String::from_str(alloc, text)?))
}

fn external_kind_of(byte: u8) -> Option<ExternalKind>
    ensures { result ≡ row_at external_kind_rows byte }
{
    match byte {
        0 => Some(ExternalKind::Function),
        1 => Some(ExternalKind::Table),
        2 => Some(ExternalKind::Memory),
        3 => Some(ExternalKind::Global),
        _ => None,
    }
}

fn external_kind(cursor: &mut Cursor<'_>) -> Result<ExternalKind, DecodeFault>
    ensures read { Parses (λ x. x) result cursor.new
        (row_byte_at external_kind_rows cursor.old.rest) }
    ensures tells { Tells result cursor.old cursor.new }
{
    let offset = cursor.offset();
    match external_kind_of(cursor.byte()?) {
        Some(kind) => Ok(kind),
        None => refuse(FaultKind::TypeByte, offset),
    }
}

fn import_kind(cursor: &mut Cursor<'_>, kind: ExternalKind) -> Result<ImportKind, DecodeFault>
    ensures read { Parses (λ x. x) result cursor.new (import_after kind cursor.old.rest) }
    ensures tells { Tells result cursor.old cursor.new }
{
    Ok(match kind {
        ExternalKind::Function => ImportKind::Function(unsigned(cursor)?),
        ExternalKind::Table => ImportKind::Table(table_type(cursor)?),
        ExternalKind::Memory => ImportKind::Memory(memory_type(cursor)?),
        ExternalKind::Global => ImportKind::Global(global_type(cursor)?),
    })
}

impl Item for Import {
    type Value = Import;

    ghost reads = { λ _. import_at };

    #[tactic(auto, unfolding(crate::specs::ExternalReading::import_at))]
    fn read(
        alloc: Global,
        cursor: &mut Cursor<'_>,
        _profile: Profile,
    ) -> Result<Import, DecodeFault> {
        let module = name(alloc, cursor)?;
        let name = name(alloc, cursor)?;
        let external = external_kind(cursor)?;
        let kind = import_kind(cursor, external)?;
        Ok(Import { module, name, kind })
    }
}

impl Item for Export {
    type Value = Export;

    ghost reads = { λ _. export_at };

    #[tactic(auto, unfolding(crate::specs::ExternalReading::export_at))]
    fn read(
        alloc: Global,
        cursor: &mut Cursor<'_>,
        _profile: Profile,
    ) -> Result<Export, DecodeFault> {
        let name = name(alloc, cursor)?;
        let kind = external_kind(cursor)?;
        let index = unsigned(cursor)?;
        Ok(Export { name, kind, index })
    }
}
