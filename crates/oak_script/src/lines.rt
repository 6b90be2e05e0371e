//! A text cut into lines, and a line into words.
ghost use Rattle.std.specs.Prelude.{◌≡◌, ◌≤◌, length, ◌∷◌, [], map, take, MatchOption, IfOk};
ghost use Rattle.oak_script.specs.Lines.{lines_of, words_of, front_len};

use std::alloc::{AllocError, Global};
use std::marker::Model;

/// The lines of a text that are left.
#[derive(Drop)]
pub struct Lines<'a> {
    rest: &'a [u8],
}

impl<'a> Model for Lines<'a> {
    ghost use Rattle.std.specs.Prelude.{List, ℕ};
    ghost use Rattle.oak_script.specs.Lines.{lines_of};

    ghost Value = { List (List ℕ) };

    ghost view = { λ l. lines_of l.rest.now };
}

impl<'a> Lines<'a> {
    pub fn of(text: &'a [u8]) -> Lines<'a>
        ensures { result ≡ lines_of text.now }
    {
        Lines { rest: text }
    }

    pub fn next_line(&mut self) -> Option<&'a [u8]>
        ensures { MatchOption result ((self.old ≡ []) × (self.new ≡ [])) (λ line. self.old ≡ line.now ∷ self.new) }
    {
        let rest = self.rest;
        if rest.is_empty() {
            return None;
        }
        let at = front_len(rest);
        if at < rest.len() {
            self.rest = &rest[at + 1..];
            Some(&rest[..at])
        } else {
            self.rest = &rest[at..];
            Some(rest)
        }
    }
}

/// How many bytes stand before the first line feed.
fn front_len(bytes: &[u8]) -> usize
    ensures value { result ≡ front_len bytes.now }
    ensures within { result ≤ length bytes.now }
{
    for (i, b) in bytes.iter().enumerate() {
        if *b == b'\n' {
            return i;
        }
    }
    bytes.len()
}

/// No form has this many words: the longest has eight.
pub const MANY_WORDS: usize = 9;

/// The words of a line, cut at each space. Where there are more than [`MANY_WORDS`] the others are left
/// out, so that a long line costs no memory.
pub fn cut_words(alloc: Global, line: &[u8]) -> Result<Vec<&[u8]>, AllocError>
    ensures { IfOk result (λ v. map (λ x. x.now) v.items ≡ take MANY_WORDS (words_of line.now)) }
{
    line.split(|b| *b == b' ').take(MANY_WORDS).collect(alloc)
}
