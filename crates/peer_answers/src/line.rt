//! The lines that a peer reads.

ghost use Rattle.std.specs.Prelude.{◌≡◌, option_map};
ghost use Rattle.peer_answers.specs.Lines.{request_of, said_in};
ghost use Rattle.peer_answers.specs.Spelled.{asks_in, said_of};

use crate::words::{behind, parted};

/// What a line asks for.
#[derive(Clone, Copy)]
pub enum Request {
    /// To endorse a proposal: an amendment too, where the organisation has agreed to it.
    Call { agreed: bool },
    /// The answer to a question.
    Question,
    /// What the organisation says of a block.
    Seen,
}

/// A line of the log.
#[derive(Clone, Copy)]
pub struct Entry<'a> {
    pub index: &'a str,
    pub text: &'a str,
}

/// A line that asks for something.
#[derive(Clone, Copy)]
pub struct Asked<'a> {
    pub request: Request,
    /// A word of who asks, which stands in the answer.
    pub tag: &'a str,
    pub words: &'a str,
}

/// A line that a peer reads.
#[derive(Clone, Copy)]
pub enum Line<'a> {
    Log(Entry<'a>),
    Ask(Asked<'a>),
}

impl Request {
    /// What the first word of a line asks for.
    fn of(word: &str) -> Option<Request>
        ensures { result ≡ request_of word.now }
    {
        match word {
            "call" => Some(Request::Call { agreed: false }),
            "agreed" => Some(Request::Call { agreed: true }),
            "ask" => Some(Request::Question),
            "seen" => Some(Request::Seen),
            _ => None,
        }
    }
}

impl<'a> Line<'a> {
    /// The line that a text is. None where it begins with no word of a peer's lines, or asks for
    /// something without a tag.
    pub fn of(text: &'a str) -> Option<Line<'a>>
        ensures { option_map said_of result ≡ said_in text.now }
    {
        if let Some(entry) = behind(text, "log") {
            let (index, text) = parted(entry);
            return Some(Line::Log(Entry { index, text }));
        }
        Line::asking(text)
    }

    /// The same of one that is not of the log.
    fn asking(text: &'a str) -> Option<Line<'a>>
        ensures { option_map said_of result ≡ asks_in text.now }
    {
        let (word, rest) = parted(text);
        let request = Request::of(word)?;
        let (tag, words) = rest.split_once(' ')?;
        Some(Line::Ask(Asked {
            request,
            tag,
            words,
        }))
    }
}
