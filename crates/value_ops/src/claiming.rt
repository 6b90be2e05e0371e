//! The claim of a free header.
ghost use Rattle.std.specs.Prelude.{◌≡◌, ◌≤◌, ◌<◌, ◌+◌, ℕ, true, false, IfSome, IfNone, IfOk, IfErr};
ghost use Rattle.oak_core.specs.HeaderCalls.{NamesPin};
ghost use Rattle.oak_core.specs.Passes.{IsPassOf, Stays, state, key, call_of, header_search};
ghost use Rattle.oak_core.specs.Usage.{is_free};
ghost use Rattle.value_ops.specs.Claiming.{Looked, FindsNoneFree, ClaimsHeader};

use header_core::FREE;
use header_core::layout::HEADER_WORDS;
use oak_core::steps::claim_header;
use oak_core::{OakTable, Pass, load};
use thiserror::Error;

/// What one more in the state adds to a pin word.
pub(crate) const STATE: u64 = 1 << 28;

/// How far the pin words of two headers lie apart, one behind the other.
const PIN_STEP: u32 = HEADER_WORDS as u32;

/// A header that the pass owns. It must be spent: it is released or filled, and can't be dropped.
#[derive(Debug)]
pub struct Owned {
    pub header: u32,
}

/// No header was found free.
#[derive(Clone, Copy, Debug, PartialEq, Eq, Error)]
#[error("no header is free")]
pub struct NoHeader;

/// Whether a pin word is that of a free header without a pin.
fn is_free(word: u64) -> bool
    ensures { result ≡ is_free word }
{
    pin_word::state(word) == FREE && pin_word::count(word) == 0
}

/// Claims the header whose pin word is `word`, if it is free and stays so until the exchange.
fn claim_one(table: &OakTable, pass: &mut Pass, word: u32) -> bool
    requires own { IsPassOf table.now pass.old }
    requires names { (h : ℕ) × NamesPin (key table.now) h word }
    ensures own { Stays pass.old pass.new }
    ensures claimed { (h : ℕ) → NamesPin (key table.now) h word → result ≡ true → ClaimsHeader (key table.now)
        (call_of pass.old) h (state pass.old) (state pass.new) }
    ensures taken { (h : ℕ) → NamesPin (key table.now) h word → result ≡ false → Looked (key table.now)
        (call_of pass.old) (state pass.old) (state pass.new) (λ k. k ≡ h) }
{
    let seen = load(table, pass, word);
    if !is_free(seen) {
        return false;
    }
    claim_header(table, pass, word, seen, seen + STATE) == seen
}

/// Claims one of the headers from `from` on and below `to`.
fn claim_between(table: &OakTable, pass: &mut Pass, from: u32, to: u32) -> Option<u32>
    requires own { IsPassOf table.now pass.old }
    requires inside { to ≤ (key table.now).headers }
    ensures own { Stays pass.old pass.new }
    ensures claimed { IfSome result (λ h. ClaimsHeader (key table.now) (call_of pass.old) h (state pass.old) (state pass.new)) }
    ensures none { IfNone result (Looked (key table.now) (call_of pass.old) (state pass.old) (state pass.new) (λ h. (from ≤ h) × (h < to))) }
{
    if from >= to {
        return None;
    }
    let last = table.pin_at(to - 1);
    for header in from..to {
        let behind = to - 1 - header;
        if claim_one(table, pass, last - PIN_STEP * behind) {
            return Some(header);
        }
    }
    None
}

/// Claims a header. The search begins where the pass's last one ended, with the header behind the one
/// claimed there, and goes round once.
fn search(table: &OakTable, pass: &mut Pass) -> Option<u32>
    requires own { IsPassOf table.now pass.old }
    ensures own { Stays pass.old pass.new }
    ensures claimed { IfSome result (λ h. ClaimsHeader (key table.now) (call_of pass.old) h (state pass.old) (state pass.new)) }
    ensures none { IfNone result (FindsNoneFree (key table.now) (call_of pass.old) (state pass.old) (state pass.new)) }
{
    let headers = table.headers();
    let first = pass.header_search().min(headers);
    if let Some(header) = claim_between(table, pass, first, headers) {
        return Some(header);
    }
    claim_between(table, pass, 0, first)
}

/// Claims a header that is free and without a pin. `NoHeader` comes only where each header was found
/// not free in this call, or in two generations, so that it was taken in between. After a claim the
/// pass's next search begins with the header behind.
pub fn claim(table: &OakTable, pass: &mut Pass) -> Result<Owned, NoHeader>
    requires own { IsPassOf table.now pass.old }
    ensures own { Stays pass.old pass.new }
    ensures claimed { IfOk result (λ o. ClaimsHeader (key table.now) (call_of pass.old) o.header (state pass.old) (state pass.new)) }
    ensures behind { IfOk result (λ o. header_search pass.new ≡ o.header + 1) }
    ensures none { IfErr result (λ _. FindsNoneFree (key table.now) (call_of pass.old) (state pass.old) (state pass.new)) }
{
    match search(table, pass) {
        Some(header) => {
            pass.header_search_from(header + 1);
            Ok(Owned { header })
        }
        None => Err(NoHeader),
    }
}
