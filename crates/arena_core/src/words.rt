//! Bytes as they stand in words: eight in each, the first of them highest.
ghost use Rattle.std.specs.Prelude.{◌≡◌, ◌≢◌, ◌≤◌, MatchBool, ◌+◌, ◌-◌, ◌*◌, ◌^◌, ◌<◌, ◌++◌, length, take, drop};
ghost use Rattle.std.specs.Int.{w64, from_be_bytes};
ghost use Rattle.oak_model.specs.declared.limits.TheConstants.{GREATEST_KEY};
ghost use Rattle.oak_model.specs.WordBytes.{word_bytes};
ghost use Rattle.arena_core.specs.Words.{bytes_in, word_at, word_of};

use oak_model::GREATEST_KEY;

/// The bytes of a word.
pub const WORD: usize = 8;

/// The bits of a byte.
const BITS: u32 = 8;

/// How many bytes there are.
const BYTE: u64 = 256;

/// The word that eight bytes make, those from `from` on.
fn eight_bytes(bytes: &[u8], from: usize) -> u64
    requires { from + WORD ≤ length bytes.now }
    ensures { result ≡ from_be_bytes w64 (take 8 (drop from bytes.now)) }
{
    let mut word = [0; WORD];
    word.copy_from_slice(&bytes[from..from + WORD]);
    u64::from_be_bytes(word)
}

/// The number that fewer than eight bytes make, the first of them highest.
fn few_bytes(bytes: &[u8]) -> u64
    requires some { 0 < length bytes.now }
    requires few { length bytes.now < WORD }
    ensures { result * 2 ^ (8 * (WORD - length bytes.now)) ≡ word_of bytes.now }
{
    let mut number = 0;
    for i in 0..bytes.len() {
        number = number * BYTE + u64::from(bytes[i]);
    }
    number
}

/// The word in which the bytes from `8 * i` on stand, with zeros behind the last byte. Where there are
/// eight bytes that end with them they are loaded at once.
pub fn word_from(bytes: &[u8], i: usize) -> u64
    requires { WORD * i < length bytes.now }
    ensures { result ≡ word_at bytes.now i }
{
    let from = WORD * i;
    let to = bytes.len();
    if from + WORD <= to {
        return eight_bytes(bytes, from);
    }
    let behind = BITS * (from + WORD - to) as u32;
    if to < WORD {
        return few_bytes(bytes) << behind;
    }
    eight_bytes(bytes, to - WORD) << behind
}

/// Of a word the first `n` bytes, with zeros behind them; the word itself where these are all eight.
pub fn first_bytes(word: u64, n: usize) -> u64
    requires { 0 < n }
    ensures { result ≡ word_of (take n (word_bytes word)) }
{
    if n >= WORD {
        return word;
    }
    let behind = BITS * (WORD - n) as u32;
    word >> behind << behind
}

/// Whether the bytes from `8 * i` on, at most eight, are those with which the word begins: two numbers
/// are compared.
pub fn is_word(bytes: &[u8], i: usize, word: u64) -> bool
    requires { WORD * i < length bytes.now }
    ensures { MatchBool result (bytes_in i bytes.now ≡ take (length bytes.now - WORD * i) (word_bytes word))
        (bytes_in i bytes.now ≢ take (length bytes.now - WORD * i) (word_bytes word)) }
{
    let from = WORD * i;
    if from + WORD <= bytes.len() {
        return eight_bytes(bytes, from) == word;
    }
    word_from(bytes, i) == first_bytes(word, bytes.len() - from)
}

/// Copies the bytes of a word to their place, from `8 * i` on, as many as there are places. Where there
/// are eight they are stored at once.
pub fn put_word(out: &mut [u8], i: usize, word: u64)
    requires { WORD * i < length out.old }
    ensures put { take (WORD * i + WORD) out.new ≡ take (WORD * i) out.old ++ take (length out.old - WORD * i) (word_bytes word) }
    ensures behind { drop (WORD * i + WORD) out.new ≡ drop (WORD * i + WORD) out.old }
{
    let from = WORD * i;
    if from + WORD <= out.len() {
        out[from..from + WORD].copy_from_slice(&word.to_be_bytes());
        return;
    }
    for j in from..out.len() {
        out[j] = ((word >> (BITS * (from + WORD - 1 - j) as u32)) % BYTE) as u8;
    }
}

/// The bytes of a key, in place, with others behind them. Its words are copied, eight bytes at once, and no length is
/// handed on.
#[inline(always)]
pub fn key_in_place(key: &[u8]) -> [u8; GREATEST_KEY]
    requires { length key.now ≤ GREATEST_KEY }
    ensures { take (length key.now) result ≡ key.now }
{
    let mut bytes = [0; GREATEST_KEY];
    for i in 0..key.len().div_ceil(WORD) {
        put_word(&mut bytes, i, word_from(key, i));
    }
    bytes
}
