//! Why a genesis file, a modules file, a line of an events file, a proposal or a question is
//! refused, in words.
//!
//! The exact readers answer a number alone. What is here walks through the same input once more by
//! the table of what each object may have, and says in one sentence where the first fault of that
//! number is, what it is and what is possible there. No sentence shows a key, a module or a text of
//! hex, and none has an end of line.
#![tactic(auto)]

mod behind;
mod fault;
mod json_text;
mod place;
mod reasons;
mod tables;
mod walk;

pub use reasons::{event_reason, genesis_reason, modules_reason, proposal_reason, question_reason};
use std::alloc::AllocError;

/// A sentence, or a part of one.
type Words = Result<String, AllocError>;

/// A sentence where something is wrong.
type MaybeWords = Result<Option<String>, AllocError>;
