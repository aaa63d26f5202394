//! The word that somebody meant, among those that are possible.
#![tactic(auto)]

ghost use Rattle.std.specs.Prelude.{◌≡◌, ◌<◌, ◌≤◌, Ok, None, IfOk, length};
ghost use Rattle.nearest_word.specs.Nearest.{IsNearest, most_edits};

use std::alloc::{AllocError, Global};
use strsim::osa_distance;

/// How many edits lead from a word to one that may have been meant, at most.
const MOST_EDITS: usize = 2;

/// A word of more bytes was meant for none.
const MOST_BYTES: usize = 64;

/// The first of these words that takes the fewest edits to come to: a letter more, a letter less,
/// another letter, or two neighbours swapped. None where each takes more than two, or more than
/// half as many as the word has bytes, or where the word has more than 64. The only error is want
/// of memory.
pub fn nearest<'a>(
    alloc: Global,
    word: &str,
    words: &[&'a str],
) -> Result<Option<&'a str>, AllocError>
    ensures long { 64 < length word.now → result ≡ Ok None }
    ensures nearest { length word.now ≤ 64 → IfOk result
        (λ found. IsNearest (most_edits word.now) word.now words.now found) }
{
    if word.len() > MOST_BYTES {
        return Ok(None);
    }
    let mut best = None;
    // A nearer word takes fewer edits than these.
    let mut bound = MOST_EDITS.min(word.len() / 2) + 1;
    for &each in words {
        let edits = osa_distance(alloc, word, each)?;
        if edits < bound {
            best = Some(each);
            bound = edits;
        }
    }
    Ok(best)
}
