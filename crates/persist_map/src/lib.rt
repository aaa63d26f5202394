//! `PMap`: an ordered map whose versions share their parts.
//!
//! Contracts see a map as its entries in key order, and the number of its pages. A page is a shared
//! list of 1 to 64 shared entries. A clone copies the list of pages and none of them; a change
//! copies the page that it touches where another map has it too, and shares the rest. No key and no
//! value is ever copied.
#![tactic(auto)]

mod map;
mod pages;
mod range;
mod search;

pub use map::PMap;
pub use range::Range;
