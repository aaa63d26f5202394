//! A store of blocks: a list of records, each a block with its flags and a digest.
//!
//! [`append`] writes a record (`specs/Record.antt`). [`load`] reads a store to its end or to
//! damage, in pieces of at most 65,536 bytes, and gives the records and the end that its bytes have
//! (`specs/Store.antt`). Both work over devices that count their failed calls in the contract alone
//! ([`CountedWrite`], [`CountedRead`]); a device is blamed exactly where its count rose.
//! [`RecordReader`] does the reading for a store that comes in pieces (`specs/Progress.antt`), and
//! [`read_record`] that of one record.
#![tactic(auto)]

mod appending;
mod device;
mod end;
mod flag_numbers;
mod front;
mod laws;
mod loading;
mod one_record;
mod record_reader;
mod records;
mod sinking;

pub use appending::{AppendFault, append, encode_record};
pub use device::{CountedRead, CountedWrite, DeviceError};
pub use end::End;
pub use laws::{
    appended_loads, beginning_loads_as_torn, each_store_loads, each_store_loads_one_way,
    pieces_load,
};
pub use loading::{Loaded, load};
pub use one_record::{read_record, record_size};
pub use record_reader::RecordReader;
pub use sinking::{RecordSink, StoreEnd, read_into};
