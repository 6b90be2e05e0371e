//! Bytes moved by whole words. Where eight are known to be left nothing is tested, so that a loop over the words of a
//! value takes few instructions a word; only its last word is moved apart.
ghost use Rattle.std.specs.Prelude.{◌≡◌, ◌≤◌, ◌+◌, ◌-◌, ◌*◌, ◌<◌, ◌++◌, length, take, drop};
ghost use Rattle.oak_model.specs.WordBytes.{word_bytes};
ghost use Rattle.arena_core.specs.Words.{word_at};

use arena_core::words::WORD;

/// The word in which the bytes from `8 * i` on stand, of which there are eight.
#[inline(always)]
pub fn full_word(bytes: &[u8], i: usize) -> u64
    requires { WORD * i + WORD ≤ length bytes.now }
    ensures { result ≡ word_at bytes.now i }
{
    let mut word = [0; WORD];
    word.copy_from_slice(&bytes[WORD * i..WORD * i + WORD]);
    u64::from_be_bytes(word)
}

/// Copies the bytes of a word to their place, from `8 * i` on, where there are eight places.
#[inline(always)]
pub fn put_full_word(out: &mut [u8], i: usize, word: u64)
    requires { WORD * i + WORD ≤ length out.old }
    ensures put { take (WORD * i + WORD) out.new ≡ take (WORD * i) out.old ++ word_bytes word }
    ensures behind { drop (WORD * i + WORD) out.new ≡ drop (WORD * i + WORD) out.old }
{
    out[WORD * i..WORD * i + WORD].copy_from_slice(&word.to_be_bytes());
}

/// Copies the first `n` bytes of a word to their place, from `8 * i` on, where as many places are left.
#[inline(always)]
fn put_front(out: &mut [u8], i: usize, word: u64, n: usize)
    requires part { n < WORD }
    requires left { length out.old ≡ WORD * i + n }
    ensures { out.new ≡ take (WORD * i) out.old ++ take n (word_bytes word) }
{
    out[WORD * i..WORD * i + n].copy_from_slice(&word.to_be_bytes()[..n]);
}

/// Copies the first bytes of a word to their place, from `8 * i` on, where fewer than eight places are left. Each number of
/// them is a case of its own, so that it is known how many are copied.
#[inline(always)]
pub fn put_last_word(out: &mut [u8], i: usize, word: u64)
    requires begun { WORD * i < length out.old }
    requires last { length out.old < WORD * i + WORD }
    ensures { out.new ≡ take (WORD * i) out.old ++ take (length out.old - WORD * i) (word_bytes word) }
{
    match out.len() - WORD * i {
        1 => put_front(out, i, word, 1),
        2 => put_front(out, i, word, 2),
        3 => put_front(out, i, word, 3),
        4 => put_front(out, i, word, 4),
        5 => put_front(out, i, word, 5),
        6 => put_front(out, i, word, 6),
        _ => put_front(out, i, word, 7),
    }
}
