//! Memories of which only the front is laid out.

ghost use Rattle.std.specs.Prelude.{◌≡◌, ◌≤◌, ◌<◌, ◌+◌, ◌-◌, ◌^◌, ◌++◌, [], min, length, take, drop, replicate, vec_len, vec_capacity, IfOk, OnOk, OnErr};
ghost use Rattle.std.specs.Borrow.{sem};
ghost use Rattle.wasm_ast.specs.Access.{store_width};
ghost use Rattle.wasm_meaning.specs.Memory.{with_bytes};
ghost use Rattle.wasm_instance.specs.Accesses.{in_bounds, load_at, after_store};
ghost use Rattle.wasm_instance.specs.Front.{padded};

use crate::access::{load_word, store_word, write};
use std::alloc::{AllocError, Global};
use std::marker::Model;
use std::mem;
use wasm_ast::{LoadOp, StoreOp, Trap};

// The front grows by so many bytes at a time.
const STEP: usize = 4096;

/// A memory (Core 1.0, section 4.2.8).
///
/// The bytes behind the front that was written or asked for are zeros, and are not laid out. The
/// room for them is taken, so that laying out more of them never fails.
#[derive(Debug, Drop)]
pub struct Memory {
    front: Vec<u8>,
    size: usize,
}

impl Model for Memory {
    ghost use Rattle.std.specs.Prelude.{ℕ, List, ◌≤◌, length, vec_capacity};
    ghost use Rattle.wasm_instance.specs.Front.{padded};

    ghost Value = { List ℕ };

    ghost view = { λ m. padded m.size m.front.items };

    ghost invariant = { λ m.
        (length m.front.items ≤ m.size) × (m.size ≤ vec_capacity m.front) };
}

impl Memory {
    ghost use Rattle.wasm_instance.specs.LendingFront.{LendsFront};

    /// A memory of zeros. `AllocError` where there is no room for it.
    pub fn new(alloc: Global, size: usize) -> Result<Memory, AllocError>
        ensures { IfOk result (λ m. m ≡ replicate size 0) }
    {
        Ok(Memory {
            front: Vec::with_capacity(alloc, size)?,
            size,
        })
    }

    /// The memory, moved out: an empty one is left.
    #[inline(always)]
    pub fn take(&mut self) -> Memory
        ensures taken { result ≡ self.old }
        ensures left { self.new ≡ [] }
    {
        let empty = Memory {
            front: Vec::new(*self.front.allocator()),
            size: 0,
        };
        mem::replace(self, empty)
    }

    /// How many bytes it has.
    #[inline(always)]
    pub fn len(&self) -> usize
        ensures { result ≡ length self.now }
    {
        self.size
    }

    /// The word that a load gives. `OutOfBounds` where it passes the end of the memory.
    #[inline(always)]
    pub fn load(&self, op: LoadOp, place: usize) -> Result<u64, Trap>
        requires { place < 2 ^ 62 }
        ensures { result ≡ load_at op self.now place }
    {
        match load_word(op, &self.front, place) {
            Ok(word) => Ok(word),
            Err(_) => load_behind(op, &self.front, self.size, place),
        }
    }

    /// Stores the low bytes of a word, the least first. `OutOfBounds` where they pass the end of
    /// the memory, which then stays as it was.
    #[inline(always)]
    pub fn store(&mut self, op: StoreOp, place: usize, word: u64) -> Result<(), Trap>
        requires { place < 2 ^ 62 }
        ensures answer { result ≡ in_bounds self.old place (store_width op) tt }
        ensures stored { self.new ≡ after_store op self.old place word }
    {
        match store_word(op, &mut self.front, place, word) {
            Ok(()) => Ok(()),
            Err(_) => {
                lay_out(&mut self.front, self.size, place + 8);
                store_word(op, &mut self.front, place, word)
            }
        }
    }

    /// Writes bytes from a place on.
    pub fn write(&mut self, place: usize, bytes: &[u8])
        requires { place + length bytes.now ≤ length self.old }
        ensures { self.new ≡ with_bytes self.old place bytes.now }
    {
        let _ = &self.size;
        write(self.front(place + bytes.len()), place, bytes);
    }

    /// Makes it longer by zeros. `AllocError` where there is no room for them: it stays as it was
    /// then.
    #[inline(always)]
    pub fn grow(&mut self, count: usize) -> Result<(), AllocError>
        requires { length self.old + count < 2 ^ 62 }
        ensures grown { OnOk result (self.new ≡ self.old ++ replicate count 0) }
        ensures refused { OnErr result (self.new ≡ self.old) }
    {
        let empty = Vec::new(*self.front.allocator());
        let old = mem::replace(&mut self.front, empty);
        let (front, done) = with_room(old, self.size + count);
        self.front = front;
        done?;
        self.size += count;
        Ok(())
    }

    /// The first bytes of the memory, `end` at least, or all where it has no more, to be written in
    /// place.
    #[inline(always)]
    pub fn front(&mut self, end: usize) -> &mut [u8]
        ensures* writes_back { sem 𝓛 (LendsFront self.entry result) }
        ensures value { result.now ≡ take (length result.now) self.old }
        ensures reaches { min end (length self.old) ≤ length result.now }
    {
        if self.front.len() < end {
            lay_out(&mut self.front, self.size, end);
        }
        self.front.as_mut_slice()
    }
}

// Lays out more of a memory of so many bytes: up to an end at least, or all of it.
#[inline(always)]
fn lay_out(front: &mut Vec<u8>, size: usize, end: usize)
    requires { (length front.old.items ≤ size) × (size ≤ vec_capacity front.old) }
    ensures memory { padded size front.new.items ≡ padded size front.old.items }
    ensures in_bounds { length front.new.items ≤ size }
    ensures room { size ≤ vec_capacity front.new }
    ensures reaches { min end size ≤ length front.new.items }
{
    let empty = Vec::new(*front.allocator());
    let old = mem::replace(front, empty);
    *front = laid_out(old, size, end);
}

// The same of a front that is moved: no address of it is lent.
#[cold]
#[inline(never)]
fn laid_out(mut front: Vec<u8>, size: usize, end: usize) -> Vec<u8>
    requires { (length front.items ≤ size) × (size ≤ vec_capacity front) }
    ensures memory { padded size result.items ≡ padded size front.items }
    ensures in_bounds { length result.items ≤ size }
    ensures room { size ≤ vec_capacity result }
    ensures reaches { min end size ≤ length result.items }
{
    let end = end.min(size).max(front.len());
    let rounded = (end + (STEP - 1) - (end + (STEP - 1)) % STEP).min(size);
    front.resize(rounded, 0).unwrap();
    front
}

// A front with room for so many bytes. Where there is none it is given back as it was, with
// `AllocError`.
#[inline(never)]
fn with_room(mut front: Vec<u8>, size: usize) -> (Vec<u8>, Result<(), AllocError>)
    requires { vec_len front ≤ size }
    ensures items { result.0.items ≡ front.items }
    ensures keeps { vec_capacity front ≤ vec_capacity result.0 }
    ensures room { OnOk result.1 (size ≤ vec_capacity result.0) }
{
    let done = front.reserve(size - front.len());
    (front, done)
}

// A load that passes the end of the front.
#[cold]
#[inline(never)]
fn load_behind(op: LoadOp, front: &[u8], size: usize, place: usize) -> Result<u64, Trap>
    requires { (length front.now ≤ size) × (length front.now < place + 8) }
    ensures { result ≡ load_at op (padded size front.now) place }
{
    let bytes = eight_from(front, place);
    let count = size.saturating_sub(place).min(8);
    load_word(op, &bytes[..count], 0)
}

// The bytes of a front from a place on, and zeros behind them, eight in all.
fn eight_from(front: &[u8], place: usize) -> [u8; 8]
    requires { length front.now < place + 8 }
    ensures { result ≡ padded 8 (drop place front.now) }
{
    let mut bytes = [0; 8];
    if let Some(laid) = front.get(place..) {
        write(&mut bytes, 0, laid);
    }
    bytes
}
