//! Words that are keys, values and names.
ghost use Rattle.std.specs.Prelude.{◌≡◌, ◌<◌, [], ◌==◌, ◌&&◌, length, OnOk, IfOk, IfErr, IfSome, true};
ghost use Rattle.std.specs.List.{list_all};
ghost use Rattle.std.specs.Str.{bytes_eq};
ghost use Rattle.hex.specs.Hex.{IsBytes};
ghost use Rattle.oak_model.specs.Key.{IsKey};
ghost use Rattle.oak_model.specs.Value.{IsValue};
ghost use Rattle.oak_script.specs.Words.{value_word, bound_word, is_name_byte, is_name};
ghost use Rattle.oak_script.specs.Grammar.{KeyFits};
ghost use Rattle.oak_script.specs.Forms.{is_hex_digit, is_hex, KeySlot, ValueSlot, NameSlot, BoundSlot};
ghost use Rattle.oak_script.specs.Faults.{word_faults};
ghost use Rattle.oak_script.specs.Stops.{Stops, ReadsWord};

use crate::faults::What;
use crate::limits::GREATEST_SCRIPT_NAME;
use crate::stops::Stop;
use oak_model::{GREATEST_KEY, GREATEST_VALUE, Key, Name, Value};
use std::alloc::Global;

pub fn is_word(word: &[u8], text: &[u8]) -> bool
    ensures { result ≡ bytes_eq word.now text.now }
{
    word == text
}

fn is_hex_digit(b: u8) -> bool
    ensures { result ≡ is_hex_digit b }
{
    (b >= b'0' && b <= b'9') || (b >= b'a' && b <= b'f')
}

fn are_hex_digits(word: &[u8]) -> bool
    ensures { result ≡ list_all is_hex_digit word.now }
{
    word.iter().all(|b| is_hex_digit(*b))
}

/// Whether the word is an even number of digits.
pub fn is_hex(word: &[u8]) -> bool
    ensures { result ≡ is_hex word.now }
{
    word.len() % 2 == 0 && are_hex_digits(word)
}

fn is_name_byte(b: u8) -> bool
    ensures { result ≡ is_name_byte b }
{
    (b >= b'a' && b <= b'z') || (b >= b'0' && b <= b'9')
}

fn are_name_bytes(word: &[u8]) -> bool
    ensures { result ≡ list_all is_name_byte word.now }
{
    word.iter().all(|b| is_name_byte(*b))
}

fn is_name(word: &[u8]) -> bool
    ensures { result ≡ is_name word.now }
{
    (word.len() >= 1 && word.len() <= GREATEST_SCRIPT_NAME) && are_name_bytes(word)
}

/// The bytes that the digits stand for.
fn decode_word(alloc: Global, word: &[u8]) -> Result<Vec<u8>, Stop>
    requires { is_hex word.now ≡ true }
    ensures ok { IfOk result (λ v. ReadsWord v.items word.now) }
    ensures err { IfErr result (λ e. e ≡ Stop.OutOfMemory) }
{
    match hex::decode(alloc, word) {
        Ok(bytes) => Ok(bytes),
        // The digits are good, so there was no memory.
        Err(_) => Err(Stop::OutOfMemory),
    }
}

/// The key that a word spells.
pub fn key_of(alloc: Global, word: &[u8]) -> Result<Key, Stop>
    requires { 0 < length word.now }
    ensures ok { IfOk result (λ k. ReadsWord k word.now) }
    ensures key { IfOk result (λ k. IsKey k) }
    ensures fine { OnOk result (word_faults KeySlot word.now ≡ []) }
    ensures err { IfErr result (λ e. Stops e (word_faults KeySlot word.now)) }
{
    if !is_hex(word) {
        return Err(Stop::Fault(What::Hex));
    }
    if word.len() > 2 * GREATEST_KEY {
        return Err(Stop::Fault(What::Key));
    }
    let bytes = decode_word(alloc, word)?;
    Ok(Key::make(alloc, &bytes)?)
}

/// The value that a word spells.
pub fn value_of(alloc: Global, word: &[u8]) -> Result<Value, Stop>
    requires { 0 < length word.now }
    ensures ok { IfOk result (λ v. value_word v ≡ word.now) }
    ensures bytes { IfOk result (λ v. IsBytes v) }
    ensures value { IfOk result (λ v. IsValue v) }
    ensures fine { OnOk result (word_faults ValueSlot word.now ≡ []) }
    ensures err { IfErr result (λ e. Stops e (word_faults ValueSlot word.now)) }
{
    if is_word(word, b"-") {
        return Ok(Value::make(alloc, &[])?);
    }
    if !is_hex(word) {
        return Err(Stop::Fault(What::Hex));
    }
    if word.len() > 2 * GREATEST_VALUE {
        return Err(Stop::Fault(What::Value));
    }
    let bytes = decode_word(alloc, word)?;
    Ok(Value::make(alloc, &bytes)?)
}

/// The bound that a word spells.
pub fn bound_of(alloc: Global, word: &[u8]) -> Result<Option<Key>, Stop>
    requires { 0 < length word.now }
    ensures ok { IfOk result (λ bound. bound_word bound ≡ word.now) }
    ensures key { IfOk result (λ bound. IfSome bound KeyFits) }
    ensures fine { OnOk result (word_faults BoundSlot word.now ≡ []) }
    ensures err { IfErr result (λ e. Stops e (word_faults BoundSlot word.now)) }
{
    if is_word(word, b"-") {
        return Ok(None);
    }
    let key = key_of(alloc, word)?;
    Ok(Some(key))
}

/// The name that a word is.
pub fn name_of(alloc: Global, word: &[u8]) -> Result<Name, Stop>
    ensures ok { IfOk result (λ name. name ≡ word.now) }
    ensures name { OnOk result (is_name word.now ≡ true) }
    ensures fine { OnOk result (word_faults NameSlot word.now ≡ []) }
    ensures err { IfErr result (λ e. Stops e (word_faults NameSlot word.now)) }
{
    if !is_name(word) {
        return Err(Stop::Fault(What::Name));
    }
    Ok(Name::make(alloc, word)?)
}
