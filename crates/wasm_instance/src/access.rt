//! Loads, stores and growth of a memory as bytes (Core 1.0, section 4.4.4).
//!
//! Each access tests once that it lies within the memory. Its place, an operand plus an offset, is
//! below 2^33.

ghost use Rattle.std.specs.Prelude.{◌≡◌, ◌+◌, ◌<◌, ◌≤◌, ◌^◌, length};
ghost use Rattle.wasm_ast.specs.Access.{store_width};
ghost use Rattle.wasm_meaning.specs.Memory.{bytes_at, number_of, with_bytes};
ghost use Rattle.wasm_instance.specs.Accesses.{in_bounds, load_at, after_write, after_store};

use wasm_ast::{LoadOp, StoreOp, Trap};

/// How many bytes a page of memory has.
pub const PAGE: usize = 65536;

/// The word that a load gives. `OutOfBounds` where it passes the end of the memory.
#[inline(always)]
pub fn load_word(op: LoadOp, memory: &[u8], place: usize) -> Result<u64, Trap>
    requires { place < 2 ^ 62 }
    ensures { result ≡ load_at op memory.now place }
{
    match op {
        LoadOp::I32 | LoadOp::I64From32U => Ok(u64::from(number_32(memory, place)?)),
        LoadOp::I64 => number_64(memory, place),
        LoadOp::I32From8U | LoadOp::I64From8U => Ok(u64::from(number_8(memory, place)?)),
        LoadOp::I32From16U | LoadOp::I64From16U => Ok(u64::from(number_16(memory, place)?)),
        LoadOp::I32From8S => {
            let number = number_8(memory, place)?.cast_signed();
            Ok(u64::from(i32::from(number).cast_unsigned()))
        }
        LoadOp::I32From16S => {
            let number = number_16(memory, place)?.cast_signed();
            Ok(u64::from(i32::from(number).cast_unsigned()))
        }
        LoadOp::I64From8S => {
            let number = number_8(memory, place)?.cast_signed();
            Ok(i64::from(number).cast_unsigned())
        }
        LoadOp::I64From16S => {
            let number = number_16(memory, place)?.cast_signed();
            Ok(i64::from(number).cast_unsigned())
        }
        LoadOp::I64From32S => {
            let number = number_32(memory, place)?.cast_signed();
            Ok(i64::from(number).cast_unsigned())
        }
    }
}

// The number of one byte from a place on, and so of two, four and eight, the least first.
#[inline(always)]
fn number_8(memory: &[u8], place: usize) -> Result<u8, Trap>
    requires { place < 2 ^ 62 }
    ensures { result ≡ in_bounds memory.now place 1 (number_of (bytes_at memory.now place 1)) }
{
    Ok(u8::from_le_bytes(chunk(memory, place)?))
}

#[inline(always)]
fn number_16(memory: &[u8], place: usize) -> Result<u16, Trap>
    requires { place < 2 ^ 62 }
    ensures { result ≡ in_bounds memory.now place 2 (number_of (bytes_at memory.now place 2)) }
{
    Ok(u16::from_le_bytes(chunk(memory, place)?))
}

#[inline(always)]
fn number_32(memory: &[u8], place: usize) -> Result<u32, Trap>
    requires { place < 2 ^ 62 }
    ensures { result ≡ in_bounds memory.now place 4 (number_of (bytes_at memory.now place 4)) }
{
    Ok(u32::from_le_bytes(chunk(memory, place)?))
}

#[inline(always)]
fn number_64(memory: &[u8], place: usize) -> Result<u64, Trap>
    requires { place < 2 ^ 62 }
    ensures { result ≡ in_bounds memory.now place 8 (number_of (bytes_at memory.now place 8)) }
{
    Ok(u64::from_le_bytes(chunk(memory, place)?))
}

// The bytes from a place on.
#[inline(always)]
fn chunk<const N: usize>(memory: &[u8], place: usize) -> Result<[u8; N], Trap>
    requires { place + N < 2 ^ 63 }
    ensures { result ≡ in_bounds memory.now place N (bytes_at memory.now place N) }
{
    let bytes = memory.get(place..place + N).ok_or(Trap::OutOfBounds)?;
    bytes.first_chunk().copied().ok_or(Trap::OutOfBounds)
}

/// Writes the low bytes of a word, the least first. `OutOfBounds` where they pass the end of the
/// memory, which then stays as it was.
#[inline(always)]
pub fn store_word(op: StoreOp, memory: &mut [u8], place: usize, word: u64) -> Result<(), Trap>
    requires { place < 2 ^ 62 }
    ensures answer { result ≡ in_bounds memory.old place (store_width op) tt }
    ensures stored { memory.new ≡ after_store op memory.old place word }
{
    let bytes = word.to_le_bytes();
    match op {
        StoreOp::I32To8 | StoreOp::I64To8 => put(memory, place, &bytes[..1]),
        StoreOp::I32To16 | StoreOp::I64To16 => put(memory, place, &bytes[..2]),
        StoreOp::I32 | StoreOp::I64To32 => put(memory, place, &bytes[..4]),
        StoreOp::I64 => put(memory, place, &bytes),
    }
}

// Writes bytes from a place on, where they all lie within the memory.
#[inline(always)]
fn put(memory: &mut [u8], place: usize, bytes: &[u8]) -> Result<(), Trap>
    requires { place < 2 ^ 62 }
    ensures answer { result ≡ in_bounds memory.old place (length bytes.now) tt }
    ensures written { memory.new ≡ after_write memory.old place bytes.now }
{
    if memory.len() < place + bytes.len() {
        return Err(Trap::OutOfBounds);
    }
    write(memory, place, bytes);
    Ok(())
}

/// Writes bytes from a place on.
#[inline(always)]
pub fn write(memory: &mut [u8], place: usize, bytes: &[u8])
    requires { place + length bytes.now ≤ length memory.old }
    ensures { memory.new ≡ with_bytes memory.old place bytes.now }
{
    memory[place..place + bytes.len()].copy_from_slice(bytes);
}
