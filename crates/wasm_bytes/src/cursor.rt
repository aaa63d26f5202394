//! A place in a list of bytes.

ghost use Rattle.std.specs.Prelude.{◌≡◌, ◌^◌, ◌+◌, ◌-◌, ◌≤◌, IsTrue, ◌↔◌, MatchOption, IfSome, IfOk, OnOk, Some, slice_get, ◌<◌, length, take, drop, []};
ghost use Rattle.std.specs.Result.{IfErr};
ghost use Rattle.grammar.specs.Spelling.{IsByte};
ghost use Rattle.grammar.specs.Reading.{byte_at};
ghost use Rattle.wasm_bytes.specs.Spelling.{IsU32, IsS32, IsS64, IsName};
ghost use Rattle.wasm_bytes.specs.Reading.{u32_at, s32_at, s64_at, name_at};
ghost use Rattle.wasm_bytes.specs.Faults.{fault_at, u32_fault, s32_fault, s64_fault, name_fault};
ghost use Rattle.wasm_bytes.specs.Place.{Place, offset_of};
ghost use Rattle.wasm_bytes.specs.Stands.{Tells};
ghost use Rattle.wasm_bytes.specs.Moves.{Moves, Takes};

use crate::fault::{ByteFault, FaultKind};
use crate::front::{name, signed, unsigned};
use std::marker::Model;

/// A place in a list of bytes. Contracts see all the bytes, those that are left and the offset of
/// their end.
///
/// Each reader gives the item that stands at the place and moves past it, or refuses and stays.
#[derive(Drop)]
pub struct Cursor<'a> {
    // All the bytes, by which contracts say what stands at an offset. No reader looks at them.
    whole: &'a [u8],
    rest: &'a [u8],
    end: usize,
}

impl<'a> Model for Cursor<'a> {
    ghost use Rattle.std.specs.Prelude.{◌≤◌, length};
    ghost use Rattle.wasm_bytes.specs.Place.{Place, IsPlace};

    ghost Value = { Place };

    ghost view = { λ c. record { whole = c.whole.now; end = c.end; rest = c.rest.now } };

    ghost invariant = { λ c. (length c.rest.now ≤ c.end) × IsPlace c.whole.now c.end c.rest.now };
}

impl<'a> Cursor<'a> {
    /// A cursor at the first of the bytes, whose offset is 0.
    pub fn new(bytes: &'a [u8]) -> Cursor<'a>
        ensures { result ≡ record { whole = bytes.now; end = length bytes.now; rest = bytes.now } }
    {
        Cursor {
            whole: bytes,
            rest: bytes,
            end: bytes.len(),
        }
    }

    /// The offset of the place, from the first byte of the whole.
    pub fn offset(&self) -> usize
        ensures { result ≡ offset_of self.now }
    {
        self.end - self.rest.len()
    }

    /// Whether no byte is left.
    pub fn is_at_end(&self) -> bool
        ensures { IsTrue result ↔ (self.now.rest ≡ []) }
    {
        self.rest.is_empty()
    }

    fn fault(&self, kind: FaultKind) -> ByteFault
        ensures { result ≡ fault_at self.now kind }
    {
        let offset = match kind {
            FaultKind::EndedEarly => self.end,
            FaultKind::BadNumber => self.offset(),
            FaultKind::NotUtf8 => self.offset(),
        };
        ByteFault { kind, offset }
    }

    /// The next byte. It is refused, as ended early, where there is none.
    pub fn byte(&mut self) -> Result<u8, ByteFault>
        ensures item { Takes (λ b. b) IsByte result self.old self.new }
        ensures stands { Tells (λ b. b) IsByte result self.old self.new }
        ensures here { IfOk result (λ b. slice_get self.old.whole (offset_of self.old) ≡ Some b) }
        ensures next { IfOk result (λ _. offset_of self.new ≡ offset_of self.old + 1) }
        ensures read { Moves (λ b. b) result self.old self.new (byte_at self.old.rest) }
        ensures fault { IfErr result (λ e. e ≡ fault_at self.old FaultKind.EndedEarly) }
        ensures shorter { OnOk result (length self.new.rest < length self.old.rest) }
    {
        let [byte, rest @ ..] = self.rest else {
            return Err(self.fault(FaultKind::EndedEarly));
        };
        self.rest = rest;
        Ok(*byte)
    }

    /// The unsigned number of 32 bits at the place, in LEB128. It is refused as ended early or as
    /// a bad number.
    pub fn u32_leb(&mut self) -> Result<u32, ByteFault>
        ensures item { Takes (λ n. n) IsU32 result self.old self.new }
        ensures stands { Tells (λ n. n) IsU32 result self.old self.new }
        ensures read { Moves (λ n. n) result self.old self.new (u32_at self.old.rest) }
        ensures fault { IfErr result (λ e. e ≡ fault_at self.old (u32_fault self.old.rest)) }
        ensures shorter { OnOk result (length self.new.rest < length self.old.rest) }
    {
        match unsigned(self.rest, 1 << 32) {
            Ok((number, rest)) => {
                self.rest = rest;
                Ok(number as u32)
            }
            Err(kind) => Err(self.fault(kind)),
        }
    }

    /// The signed number of 32 bits at the place, in LEB128. It is refused as ended early or as a
    /// bad number.
    pub fn i32_leb(&mut self) -> Result<i32, ByteFault>
        ensures item { Takes (λ z. z) IsS32 result self.old self.new }
        ensures stands { Tells (λ z. z) IsS32 result self.old self.new }
        ensures read { Moves (λ z. z) result self.old self.new (s32_at self.old.rest) }
        ensures fault { IfErr result (λ e. e ≡ fault_at self.old (s32_fault self.old.rest)) }
        ensures shorter { OnOk result (length self.new.rest < length self.old.rest) }
    {
        match signed(self.rest, 1 << 31) {
            Ok((number, rest)) => {
                self.rest = rest;
                Ok(number as i32)
            }
            Err(kind) => Err(self.fault(kind)),
        }
    }

    /// The signed number of 64 bits at the place, in LEB128. It is refused as ended early or as a
    /// bad number.
    pub fn i64_leb(&mut self) -> Result<i64, ByteFault>
        ensures item { Takes (λ z. z) IsS64 result self.old self.new }
        ensures stands { Tells (λ z. z) IsS64 result self.old self.new }
        ensures read { Moves (λ z. z) result self.old self.new (s64_at self.old.rest) }
        ensures fault { IfErr result (λ e. e ≡ fault_at self.old (s64_fault self.old.rest)) }
        ensures shorter { OnOk result (length self.new.rest < length self.old.rest) }
    {
        match signed(self.rest, 1 << 63) {
            Ok((number, rest)) => {
                self.rest = rest;
                Ok(number)
            }
            Err(kind) => Err(self.fault(kind)),
        }
    }

    /// The name at the place: its length in bytes, and that many bytes of UTF-8. It is refused as
    /// ended early, as a bad number, or as not UTF-8.
    pub fn name(&mut self) -> Result<&'a str, ByteFault>
        ensures item { Takes (λ s. s.now) IsName result self.old self.new }
        ensures stands { Tells (λ s. s.now) IsName result self.old self.new }
        ensures read { Moves (λ s. s.now) result self.old self.new (name_at self.old.rest) }
        ensures fault { IfErr result (λ e. e ≡ fault_at self.old (name_fault self.old.rest)) }
        ensures shorter { OnOk result (length self.new.rest < length self.old.rest) }
    {
        match name(self.rest) {
            Ok((name, rest)) => {
                self.rest = rest;
                Ok(name)
            }
            Err(kind) => Err(self.fault(kind)),
        }
    }

    /// The next `len` bytes as a cursor of their own, which keeps their offsets. Where fewer are
    /// left there is none, and the cursor stays.
    pub fn split(&mut self, len: u32) -> Option<Cursor<'a>>
        ensures front { MatchOption result ((length self.old.rest < len) × (self.new ≡ self.old))
            (λ front. (len ≤ length self.old.rest)
            × (front ≡ record {
              whole = self.old.whole;
              end = offset_of self.old + len;
              rest = take len self.old.rest;
            })
            × (self.new ≡ record {
              whole = self.old.whole;
              end = self.old.end;
              rest = drop len self.old.rest;
            })) }
        ensures within { IfSome result (λ front. front.end ≤ length self.old.whole) }
        ensures behind { IfSome result (λ _. offset_of self.new ≡ offset_of self.old + len) }
    {
        let len = len as usize;
        if self.rest.len() < len {
            return None;
        }
        let (front, rest) = self.rest.split_at(len);
        let end = self.end - rest.len();
        self.rest = rest;
        Some(Cursor {
            whole: self.whole,
            rest: front,
            end,
        })
    }
}
