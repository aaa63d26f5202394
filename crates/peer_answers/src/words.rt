//! The words of a line.

ghost use Rattle.std.specs.Prelude.{◌≡◌, option_map};
ghost use Rattle.peer_answers.specs.Parts.{behind_first, first_word};
ghost use Rattle.peer_answers.specs.Words.{behind};

/// What stands behind the first word of a text and a space, where the first word is this one. None
/// where it is another one, or the text has no space.
pub(crate) fn behind<'a>(text: &'a str, word: &str) -> Option<&'a str>
    ensures { option_map (λ rest. rest.now) result ≡ behind word.now text.now }
{
    let (first, rest) = text.split_once(' ')?;
    if first == word { Some(rest) } else { None }
}

/// The first word of a text, and what stands behind it and a space: nothing where there is none.
pub fn parted(text: &str) -> (&str, &str)
    ensures { (result.0.now ≡ first_word text.now) × (result.1.now ≡ behind_first text.now) }
{
    match text.split_once(' ') {
        Some(parts) => parts,
        None => (text, ""),
    }
}
