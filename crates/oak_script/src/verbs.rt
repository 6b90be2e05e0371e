//! The verbs of calls.
ghost use Rattle.std.specs.Prelude.{◌≡◌};

use crate::words::is_word;

/// The word of a call line.
#[derive(Clone, Copy, PartialEq, Eq)]
pub enum Verb {
    Put,
    Get,
    PutNew,
    Compute,
    Upsert,
    Remove,
    Hold,
    Look,
    Scan,
    Back,
}

impl Verb {
    ghost use Rattle.oak_script.specs.Forms.{verb_of};

    /// The call that a word begins.
    pub fn of(word: &[u8]) -> Option<Verb>
        ensures { result ≡ verb_of word.now }
    {
        if is_word(word, b"put") {
            Some(Verb::Put)
        } else if is_word(word, b"get") {
            Some(Verb::Get)
        } else if is_word(word, b"putnew") {
            Some(Verb::PutNew)
        } else if is_word(word, b"compute") {
            Some(Verb::Compute)
        } else if is_word(word, b"upsert") {
            Some(Verb::Upsert)
        } else if is_word(word, b"remove") {
            Some(Verb::Remove)
        } else if is_word(word, b"hold") {
            Some(Verb::Hold)
        } else if is_word(word, b"look") {
            Some(Verb::Look)
        } else if is_word(word, b"scan") {
            Some(Verb::Scan)
        } else if is_word(word, b"back") {
            Some(Verb::Back)
        } else {
            None
        }
    }
}
