//! A module from its bytes (WebAssembly Core 1.0, section 5.5.15).

ghost use Rattle.std.specs.Prelude.{◌≡◌, ◌<◌, ◌≤◌, ◌-◌, ℕ, List, Option, Some, IfOk, IfErr, OnOk, length, drop};
ghost use Rattle.grammar.specs.Reading.{text_at};
ghost use Rattle.wasm_ast.specs.declared.module.Module.{Module};
ghost use Rattle.wasm_profile.specs.declared.profile.Profile.{Profile};
ghost use Rattle.wasm_profile.specs.declared.profile.Profile.TheVariants.{Core1};
ghost use Rattle.wasm_decode.specs.Parses.{Parses, Makes};
ghost use Rattle.wasm_decode.specs.Faults.{Says, Tells};
ghost use Rattle.wasm_bytes.specs.Place.{offset_of};
ghost use Rattle.wasm_decode.specs.ModuleReading.{module_at};
ghost use Rattle.wasm_decode.specs.PartsOf.{no_parts};
ghost use Rattle.wasm_decode.specs.ModuleSpelling.{IsModule};

use crate::fault::{DecodeFault, FaultKind, refuse};
use crate::limits::MODULE_BYTES;
use crate::sections::{Parts, sections};
use seq::Seq;
use std::alloc::Global;
use wasm_ast::{Functions, Module};
use wasm_bytes::Cursor;
use wasm_profile::Profile;

/// What each module begins with: four bytes by which it is known, and the version.
const HEADER: [u8; 8] = [0x00, 0x61, 0x73, 0x6d, 0x01, 0x00, 0x00, 0x00];

fn header(cursor: &mut Cursor<'_>) -> Result<(), DecodeFault>
    requires { offset_of cursor.old ≡ 0 }
    ensures read { Parses (λ u. u) result cursor.new (text_at HEADER cursor.old.rest) }
    ensures tells { Tells result cursor.old cursor.new }
    ensures behind { OnOk result (offset_of cursor.new ≡ 8) }
{
    for expected in &HEADER {
        let offset = cursor.offset();
        if cursor.byte()? != *expected {
            let is_magic = offset < 4;
            return refuse(
                if is_magic {
                    FaultKind::Magic
                } else {
                    FaultKind::Version
                },
                offset,
            );
        }
    }
    Ok(())
}

fn nothing(alloc: Global) -> Parts
    ensures { result ≡ no_parts }
{
    Parts {
        type_indices: Seq::empty(alloc),
        module: Module {
            types: Seq::empty(alloc),
            imports: Seq::empty(alloc),
            functions: Functions::empty(alloc),
            tables: Seq::empty(alloc),
            memories: Seq::empty(alloc),
            globals: Seq::empty(alloc),
            exports: Seq::empty(alloc),
            elements: Seq::empty(alloc),
            data: Seq::empty(alloc),
        },
    }
}

/// The parts of a module from all of its bytes, where there are none yet.
#[tactic(auto, unfolding(crate::specs::ModuleReading::module_at))]
fn read_parts(
    alloc: Global,
    bytes: &[u8],
    profile: Profile,
    parts: &mut Parts,
) -> Result<(), DecodeFault>
    requires { parts.old ≡ no_parts }
    ensures read { Makes (λ _. parts.new.«module») result (module_at profile bytes.now) }
    ensures tells { IfErr result (λ e. Says profile e (length bytes.now) bytes.now) }
{
    if bytes.len() > MODULE_BYTES {
        return refuse(FaultKind::Limit, MODULE_BYTES);
    }
    let mut cursor = Cursor::new(bytes);
    header(&mut cursor)?;
    sections(alloc, &mut cursor, profile, parts)?;
    if parts.type_indices.len() != parts.module.functions.len() {
        return refuse(FaultKind::CountsDiffer, bytes.len());
    }
    Ok(())
}

fn module(alloc: Global, bytes: &[u8], profile: Profile) -> Result<Module, DecodeFault>
    ensures read { Makes (λ m. m) result (module_at profile bytes.now) }
    ensures tells { IfErr result (λ e. Says profile e (length bytes.now) bytes.now) }
{
    let mut parts = nothing(alloc);
    read_parts(alloc, bytes, profile, &mut parts)?;
    Ok(parts.module)
}

/// The module that the bytes spell, read by profile 1.
///
/// It is refused with the kind and the offset of the first fault where they spell no module of the
/// profile within its limits, and as [`DecodeFault::Memory`] where a growth of memory was refused.
pub fn decode(alloc: Global, bytes: &[u8]) -> Result<Module, DecodeFault>
    // What is given is spelled by the bytes.
    ensures found { IfOk result (λ m. IsModule Core1 m bytes.now) }
    // What is spelled is given, unless memory runs out.
    ensures only { (m : Module) → IsModule Core1 m bytes.now → Makes (λ x. x) result (Some m) }
    // What a fault says of its offset is true of the bytes.
    ensures fault { IfErr result (λ e. Says Core1 e (length bytes.now) bytes.now) }
{
    decode_as(alloc, bytes, Profile::Core1)
}

/// The module of a profile that the bytes spell.
///
/// It is refused with the kind and the offset of the first fault where they spell no module of the
/// profile within its limits, and as [`DecodeFault::Memory`] where a growth of memory was refused.
pub fn decode_as(alloc: Global, bytes: &[u8], profile: Profile) -> Result<Module, DecodeFault>
    // What is given is spelled by the bytes.
    ensures found { IfOk result (λ m. IsModule profile m bytes.now) }
    // What is spelled is given, unless memory runs out.
    ensures only { (m : Module) → IsModule profile m bytes.now → Makes (λ x. x) result (Some m) }
    // What a fault says of its offset is true of the bytes.
    ensures fault { IfErr result (λ e. Says profile e (length bytes.now) bytes.now) }
{
    module(alloc, bytes, profile)
}

/// By one profile, bytes spell at most one module.
pub fn one_module()
    ensures { (profile : Profile) (bytes : List ℕ) (a b : Module) →
        IsModule profile a bytes → IsModule profile b bytes → a ≡ b }
{}
