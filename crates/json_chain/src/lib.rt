//! What a ledger's genesis, blocks and state are as JSON (`specs/`), one value a line.
//!
//! Bytes are lower-case hex, and absent is null. `serde_json` writes an object's fields in the byte
//! order of their names, and what it writes is read back as the value. Who shows a part inside
//! something else takes it as a value (`block_of`, `payload_of` and the like) and puts it in an
//! [`Object`].
//!
//! Which tags of a block are right is by who stands before it: by the last VALID amendment of the
//! earlier blocks ([`membership_at`]), or by the genesis (`specs/Standing.antt`). The judge goes
//! by the same ([`who_is_shown_stands`]).
#![tactic(auto)]

mod amending;
mod block;
mod ending;
mod entries;
mod genesis;
mod laws;
mod line;
mod membership;
mod object;
mod placed;
mod sets;
mod standing;
mod texts;
mod to_json;
mod transaction;
mod writes;

pub use amending::{amended_by, membership_at, membership_behind};
pub use block::block_of;
pub use ending::Finding;
pub use entries::{entry_of, written_of};
pub use genesis::genesis_of;
pub use laws::who_is_shown_stands;
pub use line::{
    block_line, ending_line, entry_line, genesis_line, line_of, standing_line, write_line,
};
pub use object::Object;
pub use placed::Placed;
pub use standing::{standing_of, standing_of_state};
pub use transaction::{payload_of, placed_transaction_of};
