//! The host that records what chaincode does.

ghost use Rattle.std.specs.Prelude.{◌≡◌, ◌≤◌, ◌∷◌, ◌++◌, ℕ, List, true, IfOk, IfSome, length, map, option_map};
ghost use Rattle.std.specs.List.{list_all};
ghost use Rattle.std.specs.Map.Iter.{deref_pair};
ghost use Rattle.fab_types.specs.Limits.{IsKey, IsBound, IsValue};
ghost use Rattle.fab_types.specs.Order.{is_shown};
ghost use Rattle.wasm_ast.specs.declared.host_call.HostCall.TheVariants as host_call;
ghost use Rattle.wasm_typing.specs.HostCalls.{arity};
ghost use Rattle.ledger_model.specs.Views.{values_of};
ghost use Rattle.host_api.specs.Recorded.{Recorded, nothing_recorded, seen_on};
ghost use Rattle.host_api.specs.HostStep.{is_key, is_own_key, read_key, write, ask_range};
ghost use Rattle.host_api.specs.Recording.{read_reply, range_reply, key_and_value};
ghost use Rattle.host_api.specs.Steps.{Steps, words_of};

use crate::given::Given;
use crate::keyed::search;
use crate::memory::{Span, reach, reply, span_bytes};
use crate::ranges::{range_entries, range_reply};
use crate::refusal::{Refusal, negative};
use crate::view::{View, look_up};
use fab_types::limits::{
    MOST_CHAINCODE_READS, MOST_KEY_BYTES, MOST_RANGE_ENTRIES, MOST_RANGES, MOST_VALUE_BYTES,
    MOST_WRITES,
};
use fab_types::{
    Bound, Key, RangeItem, Ranges, ReadItem, ReadSet, Value, Version, WriteItem, WriteSet, is_shown,
};
use interp::{Host, HostAnswer, HostCall};
use std::alloc::{AllocError, Global};
use std::fmt::{self, Debug, Formatter, Write};
use std::marker::Model;
use wasm_instance::Memory;

/// Answers chaincode from a view of the state, and records what it reads and writes. The items are
/// kept as a payload has them: reads and writes in key order, ranges in that of the calls, with the
/// view's versions.
#[derive(Drop)]
pub struct Recorder<'v, V: View> {
    alloc: Global,
    view: &'v V,
    given: Given<'v>,
    reads: Vec<ReadItem>,
    ranges: Vec<RangeItem>,
    result: Value,
    writes: Vec<WriteItem>,
}

/// The view is not printed.
impl<V: View> Debug for Recorder<'_, V> {
    fn fmt<W: Write>(&self, f: &mut Formatter<W>) -> fmt::Result {
        f.debug_struct("Recorder")
            .field("given", &self.given)
            .field("reads", &self.reads)
            .field("ranges", &self.ranges)
            .field("result", &self.result)
            .field("writes", &self.writes)
            .finish_non_exhaustive()
    }
}

impl<'v, V: View> Model for Recorder<'v, V> {
    ghost use Rattle.host_api.specs.Recording.{Recording, AreItems, recorded_of};

    ghost Value = { Recording V };

    ghost view = { λ r.
        record {
          opened = record { view = r.view.now; given = r.given };
          records = recorded_of r.reads.items r.ranges.items r.result r.writes.items;
        } };

    ghost invariant = { λ r. AreItems (V.state r.view.now) r.reads.items r.ranges.items
        r.writes.items };
}

/// What a payload is made of, besides its proposal.
#[derive(Debug, Drop)]
pub struct Parts {
    pub reads: ReadSet,
    pub ranges: Ranges,
    pub result: Value,
    pub writes: WriteSet,
}

impl<'v, V: View> Recorder<'v, V> {
    ghost use Rattle.host_api.specs.Parts.{parts_of};

    /// Nothing recorded yet, for an execution that is given this. It takes no memory.
    pub fn new(alloc: Global, view: &'v V, given: Given<'v>) -> Self
        ensures { result
            ≡ record {
              opened = record { view = view.now; given = given.entry };
              records = nothing_recorded;
            } }
    {
        Recorder {
            alloc,
            view,
            given,
            reads: Vec::new(alloc),
            ranges: Vec::new(alloc),
            result: Value::new(Vec::new(alloc)).unwrap(),
            writes: Vec::new(alloc),
        }
    }

    /// What was recorded, with the view's answers and versions. At most 256 keys are read, all of
    /// them shown.
    pub fn into_parts(self) -> Parts
        ensures value { result
            ≡ parts_of (V.state self.entry.opened.view)
            (seen_on (values_of (V.state self.entry.opened.view)) self.entry.records) }
        ensures shown { list_all (λ i. is_shown i.key) result.reads ≡ true }
        ensures count { length result.reads ≤ MOST_CHAINCODE_READS }
    {
        Parts {
            reads: ReadSet::new(self.reads).unwrap(),
            ranges: Ranges::new(self.ranges).unwrap(),
            result: self.result,
            writes: WriteSet::new(self.writes).unwrap(),
        }
    }

    /// One call, on a beginning of the memory in which its bytes lie, or on all of it.
    fn answer(
        &mut self,
        which: HostCall,
        args: &[u32],
        memory: &mut [u8],
    ) -> Result<HostAnswer, AllocError>
        requires { length args.now ≡ arity which }
        ensures answer { IfOk result
            (Steps V.state self.old self.new which args.now memory.old memory.new) }
        ensures opened { self.new.opened ≡ self.old.opened }
        ensures keeps { length memory.new ≡ length memory.old }
    {
        let first = Span::at(args, 0);
        match which {
            HostCall::GetState => self.get_state(first, Span::at(args, 2), memory),
            HostCall::PutState => self.put_state(first, Span::at(args, 2), memory),
            HostCall::DelState => self.del_state(first, memory),
            HostCall::RangeState => {
                let (end, limit, room) = (Span::at(args, 2), args[4], Span::at(args, 5));
                self.range_state(first, end, limit, room, memory)
            }
            HostCall::GetArg => self.get_arg(first, memory),
            HostCall::SetResult => self.set_result(first, memory),
        }
    }

    /// The value of a key, by the view alone.
    fn get_state(
        &mut self,
        key: Span,
        room: Span,
        memory: &mut [u8],
    ) -> Result<HostAnswer, AllocError>
        ensures answer { IfOk result
            (Steps V.state self.old self.new host_call.GetState (words_of key ++ words_of room)
            memory.old memory.new) }
        ensures opened { self.new.opened ≡ self.old.opened }
    {
        let Some(key) = span_bytes(memory, key) else {
            return Ok(HostAnswer::OutOfBounds);
        };
        if span_bytes(memory, room).is_none() {
            return Ok(HostAnswer::OutOfBounds);
        }
        if !is_key(key) {
            return Ok(negative(Refusal::KeyLength));
        }
        match self.read(key)? {
            None => Ok(negative(Refusal::NoRoom)),
            Some(None) => Ok(negative(Refusal::Absent)),
            Some(Some(value)) => Ok(reply(value.as_slice(), room, memory)),
        }
    }

    /// The value of a key, which is recorded once. None where there is no room for one more key.
    fn read(&mut self, key: &[u8]) -> Result<Option<Option<&'v Value>>, AllocError>
        requires key { IsKey key.now }
        requires shown { is_shown key.now ≡ true }
        ensures answer { IfOk result
            (λ found. (target capacity : ℕ) (memory : List ℕ) →
            read_key (values_of (V.state self.old.opened.view)) key.now target capacity memory
            self.old.records
            ≡ read_reply (option_map (option_map (λ v. v.now)) found) target capacity memory
            self.new.records) }
        ensures opened { self.new.opened ≡ self.old.opened }
    {
        match search(&self.reads, key) {
            Ok(at) => Ok(Some(look_up(self.view, &self.reads[at].key).0)),
            Err(_) if self.reads.len() == MOST_CHAINCODE_READS => Ok(None),
            Err(at) => {
                let key = copied_key(key);
                let (value, version) = look_up(self.view, &key);
                self.reads.insert(at, ReadItem { key, version })?;
                Ok(Some(value))
            }
        }
    }

    /// Whether chaincode may write these bytes as a key: one that it may read, in its namespace.
    fn may_write(&self, key: &[u8]) -> bool
        ensures value { result ≡ is_own_key self.now.opened.given.namespace key.now }
        ensures limits { result ≡ true → IsKey key.now }
    {
        is_key(key) && self.given.is_own(key)
    }

    /// Puts a value at a key of the chaincode's own.
    fn put_state(&mut self, key: Span, value: Span, memory: &[u8]) -> Result<HostAnswer, AllocError>
        ensures answer { IfOk result
            (Steps V.state self.old self.new host_call.PutState (words_of key ++ words_of value)
            memory.now memory.now) }
        ensures opened { self.new.opened ≡ self.old.opened }
    {
        let Some(key) = span_bytes(memory, key) else {
            return Ok(HostAnswer::OutOfBounds);
        };
        let Some(value) = span_bytes(memory, value) else {
            return Ok(HostAnswer::OutOfBounds);
        };
        if !self.may_write(key) {
            return Ok(negative(Refusal::KeyLength));
        }
        if value.len() > MOST_VALUE_BYTES {
            return Ok(negative(Refusal::ValueLength));
        }
        self.write(key, Some(value))
    }

    /// Deletes a key of the chaincode's own.
    fn del_state(&mut self, key: Span, memory: &[u8]) -> Result<HostAnswer, AllocError>
        ensures answer { IfOk result
            (Steps V.state self.old self.new host_call.DelState (words_of key) memory.now
            memory.now) }
        ensures opened { self.new.opened ≡ self.old.opened }
    {
        let Some(key) = span_bytes(memory, key) else {
            return Ok(HostAnswer::OutOfBounds);
        };
        if !self.may_write(key) {
            return Ok(negative(Refusal::KeyLength));
        }
        self.write(key, None)
    }

    /// Records a write of a key, in place of an earlier one.
    fn write(&mut self, key: &[u8], value: Option<&[u8]>) -> Result<HostAnswer, AllocError>
        requires key { IsKey key.now }
        requires value { IfSome value (λ v. IsValue v.now) }
        ensures answer { IfOk result
            (λ a. (memory : List ℕ) →
            write (record { key = key.now; value = option_map (λ v. v.now) value.entry }) memory
            self.old.records
            ≡ record { answer = a; memory = memory; records = self.new.records }) }
        ensures opened { self.new.opened ≡ self.old.opened }
    {
        match search(&self.writes, key) {
            Ok(at) => self.writes[at].value = copy_of(self.alloc, value)?,
            Err(_) if self.writes.len() == MOST_WRITES => return Ok(negative(Refusal::NoRoom)),
            Err(at) => {
                let key = copied_key(key);
                let value = copy_of(self.alloc, value)?;
                self.writes.insert(at, WriteItem { key, value })?;
            }
        }
        Ok(HostAnswer::Value(0))
    }

    /// The first entries of a range, by the view alone.
    fn range_state(
        &mut self,
        start: Span,
        end: Span,
        limit: u32,
        room: Span,
        memory: &mut [u8],
    ) -> Result<HostAnswer, AllocError>
        ensures answer { IfOk result
            (Steps V.state self.old self.new host_call.RangeState
            (words_of start ++ words_of end ++ limit ∷ words_of room) memory.old memory.new) }
        ensures opened { self.new.opened ≡ self.old.opened }
    {
        let Some(start) = span_bytes(memory, start) else {
            return Ok(HostAnswer::OutOfBounds);
        };
        let Some(end) = span_bytes(memory, end) else {
            return Ok(HostAnswer::OutOfBounds);
        };
        if span_bytes(memory, room).is_none() {
            return Ok(HostAnswer::OutOfBounds);
        }
        if start.len() > MOST_KEY_BYTES || end.len() > MOST_KEY_BYTES {
            return Ok(negative(Refusal::KeyLength));
        }
        if limit == 0 || limit > MOST_RANGE_ENTRIES as u32 {
            return Ok(negative(Refusal::Limit));
        }
        match self.ask(start, end, limit)? {
            None => Ok(negative(Refusal::NoRoom)),
            Some(entries) => Ok(range_reply(&entries, room, memory)),
        }
    }

    /// The first entries of a range, which is recorded. None where there is no room for one more
    /// range.
    fn ask(
        &mut self,
        start: &[u8],
        end: &[u8],
        limit: u32,
    ) -> Result<Option<Vec<(&'v Key, &'v (Value, Version))>>, AllocError>
        requires start { IsBound start.now }
        requires end { IsBound end.now }
        requires least { 1 ≤ limit }
        requires greatest { limit ≤ MOST_RANGE_ENTRIES }
        ensures answer { IfOk result
            (λ found. (target capacity : ℕ) (memory : List ℕ) →
            ask_range (values_of (V.state self.old.opened.view))
            (record { start = start.now; end = end.now; limit = limit }) target capacity
            memory self.old.records
            ≡ range_reply (option_map (λ v. map key_and_value (map deref_pair v.items)) found)
            target capacity memory self.new.records) }
        ensures count { IfOk result
            (λ found. IfSome found (λ v. length v.items ≤ MOST_RANGE_ENTRIES)) }
        ensures opened { self.new.opened ≡ self.old.opened }
    {
        if self.ranges.len() == MOST_RANGES {
            return Ok(None);
        }
        let start = copied_bound(self.alloc, start)?;
        let end = copied_bound(self.alloc, end)?;
        let entries = self.view.range(self.alloc, &start, &end, limit as usize)?;
        let items = range_entries(self.alloc, &entries)?;
        let range = RangeItem::new(start, end, limit as u8, items).unwrap();
        self.ranges.push(range)?;
        Ok(Some(entries))
    }

    /// The argument of the proposal.
    fn get_arg(&mut self, room: Span, memory: &mut [u8]) -> Result<HostAnswer, AllocError>
        ensures answer { IfOk result
            (Steps V.state self.old self.new host_call.GetArg (words_of room) memory.old
            memory.new) }
        ensures opened { self.new.opened ≡ self.old.opened }
    {
        if span_bytes(memory, room).is_none() {
            return Ok(HostAnswer::OutOfBounds);
        }
        let argument = self.given.argument().as_slice();
        Ok(reply(argument, room, memory))
    }

    /// The result of the chaincode, in place of an earlier one.
    fn set_result(&mut self, bytes: Span, memory: &[u8]) -> Result<HostAnswer, AllocError>
        ensures answer { IfOk result
            (Steps V.state self.old self.new host_call.SetResult (words_of bytes) memory.now
            memory.now) }
        ensures opened { self.new.opened ≡ self.old.opened }
    {
        let Some(bytes) = span_bytes(memory, bytes) else {
            return Ok(HostAnswer::OutOfBounds);
        };
        if bytes.len() > MOST_VALUE_BYTES {
            return Ok(negative(Refusal::ValueLength));
        }
        self.result = Value::new(bytes.to_vec(self.alloc)?).unwrap();
        Ok(HostAnswer::Value(0))
    }
}

/// Whether chaincode may read these bytes as a key: 1 to 64, of which the first is not 0.
fn is_key(bytes: &[u8]) -> bool
    ensures value { result ≡ is_key bytes.now }
    ensures limits { result ≡ true → IsKey bytes.now }
    ensures shown { result ≡ true → is_shown bytes.now ≡ true }
{
    !bytes.is_empty() && bytes.len() <= MOST_KEY_BYTES && is_shown(bytes)
}

/// A key of these bytes.
fn copied_key(bytes: &[u8]) -> Key
    requires { IsKey bytes.now }
    ensures { result ≡ bytes.now }
{
    Key::from_slice(bytes).unwrap()
}

/// A bound of these bytes.
fn copied_bound(alloc: Global, bytes: &[u8]) -> Result<Bound, AllocError>
    requires { IsBound bytes.now }
    ensures { IfOk result (λ b. b ≡ bytes.now) }
{
    Ok(Bound::new(bytes.to_vec(alloc)?).unwrap())
}

/// A copy of the bytes of a value, where there is one.
fn copy_of(alloc: Global, bytes: Option<&[u8]>) -> Result<Option<Value>, AllocError>
    requires { IfSome bytes (λ b. IsValue b.now) }
    ensures { IfOk result (λ v. v ≡ option_map (λ b. b.now) bytes.entry) }
{
    match bytes {
        None => Ok(None),
        Some(bytes) => Ok(Some(Value::new(bytes.to_vec(alloc)?).unwrap())),
    }
}

impl<'v, V: View> Host for Recorder<'v, V> {
    ghost use Rattle.host_api.specs.Recorded.{Recorded};
    ghost use Rattle.host_api.specs.HostStep.{host_step};
    ghost use Rattle.host_api.specs.Recording.{Opened};

    ghost Records = { Recorded };

    ghost records = { λ r. r.records };

    ghost answers = { λ r. host_step (values_of (V.state r.opened.view)) r.opened.given };

    ghost Context = { Opened V };

    ghost context = { λ r. r.opened };

    fn call(
        &mut self,
        which: HostCall,
        args: &[u32],
        memory: &mut Memory,
    ) -> Result<HostAnswer, AllocError> {
        let end = reach(which, args);
        self.answer(which, args, memory.front(end))
    }
}
