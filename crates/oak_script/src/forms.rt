//! The lines whose words are the same in every script.
ghost use Rattle.std.specs.Prelude.{◌≡◌, map};
ghost use Rattle.std.specs.List.{list_any};
ghost use Rattle.oak_script.specs.Forms.{is_oak, is_thread, is_end, is_shape};
ghost use Rattle.oak_script.specs.Faults.{is_empty};

use crate::words::is_word;

pub fn has_empty_word(words: &[&[u8]]) -> bool
    ensures { result ≡ list_any is_empty (map (λ w. w.now) words.now) }
{
    words.iter().any(|word| word.is_empty())
}

pub fn is_oak(words: &[&[u8]]) -> bool
    ensures { result ≡ is_oak (map (λ w. w.now) words.now) }
{
    match words {
        [oak, version] => is_word(oak, b"oak") && is_word(version, b"1"),
        _ => false,
    }
}

pub fn is_thread(words: &[&[u8]]) -> bool
    ensures { result ≡ is_thread (map (λ w. w.now) words.now) }
{
    match words {
        [word] => is_word(word, b"thread"),
        _ => false,
    }
}

pub fn is_end(words: &[&[u8]]) -> bool
    ensures { result ≡ is_end (map (λ w. w.now) words.now) }
{
    match words {
        [word] => is_word(word, b"end"),
        _ => false,
    }
}

pub fn is_shape(words: &[&[u8]]) -> bool
    ensures { result ≡ is_shape (map (λ w. w.now) words.now) }
{
    match words {
        [word, ..] => is_word(word, b"shape"),
        [] => false,
    }
}
