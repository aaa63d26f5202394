//! The bytes of a WebAssembly module, item by item.
//!
//! A [`Cursor`] stands in a list of bytes and gives the item at its place: a byte, a number in
//! LEB128, a name (WebAssembly Core 1.0, section 5.2). Each reader gives the item that stands there
//! by the standard's grammar (`specs/Spelling.antt`), or refuses where none does, with the kind and
//! the offset of the fault (`specs/Faults.antt`), and then stays where it was. A number has at most
//! as many bytes as its width needs, and its unused bits are zero or repeat the sign; longer
//! spellings within that length are read.
//!
//! Nothing is copied and no memory is taken.
#![tactic(auto)]

mod cursor;
mod fault;
mod front;
mod laws;

pub use cursor::Cursor;
pub use fault::{ByteFault, FaultKind};
pub use laws::{items_once, readers, refusals};
