//! Lists of items, which have their count in front.

ghost use Rattle.std.specs.Prelude.{◌≡◌, ◌^◌, ◌-◌, ℕ, List, Option, IfOk};
ghost use Rattle.grammar.specs.Reading.{at_most, byte_at, repeats_at};
ghost use Rattle.wasm_bytes.specs.Reading.{u32_at, list_at};
ghost use Rattle.wasm_profile.specs.declared.profile.Profile.{Profile};
ghost use Rattle.wasm_decode.specs.Parses.{Parses};
ghost use Rattle.wasm_decode.specs.Faults.{Tells, TellsBy};
ghost use Rattle.wasm_bytes.specs.Spelling.{IsU32};
ghost use Rattle.wasm_bytes.specs.Place.{offset_of};
ghost use Rattle.wasm_bytes.specs.Stands.{Spans};

use crate::fault::{DecodeFault, FaultKind, refuse};
use seq::Seq;
use std::alloc::Global;
use wasm_bytes::Cursor;
use wasm_profile::Profile;

/// What is read at a cursor.
pub(crate) trait Item {
    type Value: Drop;

    /// The item of a profile at the front of the bytes, and those after it.
    ghost reads: { Profile → List ℕ → Option (Self.Value × List ℕ) };

    fn read(
        alloc: Global,
        cursor: &mut Cursor<'_>,
        profile: Profile,
    ) -> Result<Self::Value, DecodeFault>
        ensures read { Parses (λ x. x) result cursor.new (reads profile cursor.old.rest) }
        ensures tells { TellsBy profile result cursor.old cursor.new };
}

/// An unsigned number of 32 bits.
pub(crate) fn unsigned(cursor: &mut Cursor<'_>) -> Result<u32, DecodeFault>
    ensures read { Parses (λ n. n) result cursor.new (u32_at cursor.old.rest) }
    ensures tells { Tells result cursor.old cursor.new }
{
    Ok(cursor.u32_leb()?)
}

/// A number that is at most so large.
pub(crate) fn number(cursor: &mut Cursor<'_>, most: u32) -> Result<u32, DecodeFault>
    ensures read { Parses (λ x. x) result cursor.new (at_most most u32_at cursor.old.rest) }
    ensures tells { Tells result cursor.old cursor.new }
    ensures stands { IfOk result (λ n.
        Spans IsU32 n cursor.old.whole (offset_of cursor.old) (offset_of cursor.new)) }
{
    let offset = cursor.offset();
    let number = cursor.u32_leb()?;
    if number > most {
        return refuse(FaultKind::Limit, offset);
    }
    Ok(number)
}

fn repeated<T: Item>(
    alloc: Global,
    cursor: &mut Cursor<'_>,
    profile: Profile,
    count: u32,
) -> Result<Seq<T::Value>, DecodeFault>
    ensures read { Parses (λ x. x) result cursor.new (repeats_at (T.reads profile) count cursor.old.rest) }
    ensures tells { TellsBy profile result cursor.old cursor.new }
{
    let mut items = Vec::new(alloc);
    for _ in 0..count {
        items.push(T::read(alloc, cursor, profile)?)?;
    }
    Ok(Seq::new(items))
}

/// At most so many items.
#[tactic(auto, unfolding(grammar::specs::Reading::counted_at))]
pub(crate) fn list<T: Item>(
    alloc: Global,
    cursor: &mut Cursor<'_>,
    profile: Profile,
    most: u32,
) -> Result<Seq<T::Value>, DecodeFault>
    ensures read { Parses (λ x. x) result cursor.new (list_at most (T.reads profile) cursor.old.rest) }
    ensures tells { TellsBy profile result cursor.old cursor.new }
{
    let count = number(cursor, most)?;
    repeated::<T>(alloc, cursor, profile, count)
}

impl Item for u32 {
    type Value = u32;

    ghost reads = { λ _. u32_at };

    fn read(
        _alloc: Global,
        cursor: &mut Cursor<'_>,
        _profile: Profile,
    ) -> Result<u32, DecodeFault> {
        Ok(cursor.u32_leb()?)
    }
}

impl Item for u8 {
    type Value = u8;

    ghost reads = { λ _. byte_at };

    fn read(_alloc: Global, cursor: &mut Cursor<'_>, _profile: Profile) -> Result<u8, DecodeFault> {
        Ok(cursor.byte()?)
    }
}
