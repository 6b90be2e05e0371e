//! The words of a call's line.
ghost use Rattle.std.specs.Prelude.{◌≡◌, ◌<◌, ◌∷◌, [], Some, None, map, length, OnOk, IfOk, IfErr};
ghost use Rattle.oak_script.specs.Grammar.{CallFits, call_words};
ghost use Rattle.oak_script.specs.Forms.{verb_of, verb_word};
ghost use Rattle.oak_script.specs.Stops.{Stops};
ghost use Rattle.oak_script.specs.Reading.{call_faults, line_faults};

use crate::faults::What;
use crate::forms::has_empty_word;
use crate::recipes::{recipe_of_one, recipe_of_two};
use crate::scripts::Call;
use crate::stops::Stop;
use crate::verbs::Verb;
use crate::words::{bound_of, key_of, name_of, value_of};
use std::alloc::Global;

/// The call of a verb and one more word.
fn call_of_one(alloc: Global, verb: Verb, word: &[u8]) -> Result<Call, Stop>
    requires { 0 < length word.now }
    ensures ok { IfOk result (λ call. call_words call ≡ verb_word verb ∷ word.now ∷ []) }
    ensures call { IfOk result CallFits }
    ensures fine { OnOk result (call_faults verb (word.now ∷ []) ≡ []) }
    ensures err { IfErr result (λ e. Stops e (call_faults verb (word.now ∷ []))) }
{
    match verb {
        Verb::Get => {
            let key = key_of(alloc, word)?;
            Ok(Call::Get { key })
        }
        Verb::Remove => {
            let key = key_of(alloc, word)?;
            Ok(Call::Remove { key })
        }
        Verb::Look => {
            let name = name_of(alloc, word)?;
            Ok(Call::Look { name })
        }
        _ => Err(Stop::Fault(What::Word)),
    }
}

/// The call of a verb and two more words.
fn call_of_two(alloc: Global, verb: Verb, first: &[u8], second: &[u8]) -> Result<Call, Stop>
    requires first { 0 < length first.now }
    requires second { 0 < length second.now }
    ensures ok { IfOk result (λ call. call_words call ≡ verb_word verb ∷ first.now ∷ second.now ∷ []) }
    ensures call { IfOk result CallFits }
    ensures fine { OnOk result (call_faults verb (first.now ∷ second.now ∷ []) ≡ []) }
    ensures err { IfErr result (λ e. Stops e (call_faults verb (first.now ∷ second.now ∷ []))) }
{
    match verb {
        Verb::Put => {
            let key = key_of(alloc, first)?;
            let value = value_of(alloc, second)?;
            Ok(Call::Put { key, value })
        }
        Verb::PutNew => {
            let key = key_of(alloc, first)?;
            let value = value_of(alloc, second)?;
            Ok(Call::PutNew { key, value })
        }
        Verb::Compute => {
            let key = key_of(alloc, first)?;
            let (recipe, argument) = recipe_of_one(second)?;
            Ok(Call::Compute {
                key,
                recipe,
                argument,
            })
        }
        Verb::Hold => {
            let name = name_of(alloc, first)?;
            let key = key_of(alloc, second)?;
            Ok(Call::Hold { name, key })
        }
        Verb::Scan => {
            let low = bound_of(alloc, first)?;
            let high = bound_of(alloc, second)?;
            Ok(Call::Scan { low, high })
        }
        Verb::Back => {
            let low = bound_of(alloc, first)?;
            let high = bound_of(alloc, second)?;
            Ok(Call::Back { low, high })
        }
        _ => Err(Stop::Fault(What::Word)),
    }
}

/// The call of a verb and three more words.
fn call_of_three(
    alloc: Global,
    verb: Verb,
    first: &[u8],
    second: &[u8],
    third: &[u8],
) -> Result<Call, Stop>
    requires first { 0 < length first.now }
    requires second { 0 < length second.now }
    requires third { 0 < length third.now }
    ensures ok { IfOk result (λ call. call_words call ≡ verb_word verb ∷ first.now ∷ second.now ∷ third.now ∷ []) }
    ensures call { IfOk result CallFits }
    ensures fine { OnOk result (call_faults verb (first.now ∷ second.now ∷ third.now ∷ []) ≡ []) }
    ensures err { IfErr result (λ e. Stops e (call_faults verb (first.now ∷ second.now ∷ third.now ∷ []))) }
{
    match verb {
        Verb::Compute => {
            let key = key_of(alloc, first)?;
            let (recipe, argument) = recipe_of_two(second, third)?;
            Ok(Call::Compute {
                key,
                recipe,
                argument,
            })
        }
        Verb::Upsert => {
            let key = key_of(alloc, first)?;
            let value = value_of(alloc, second)?;
            let (recipe, argument) = recipe_of_one(third)?;
            Ok(Call::Upsert {
                key,
                value,
                recipe,
                argument,
            })
        }
        _ => Err(Stop::Fault(What::Word)),
    }
}

/// The call of a verb and four more words.
fn call_of_four(
    alloc: Global,
    verb: Verb,
    first: &[u8],
    second: &[u8],
    third: &[u8],
    fourth: &[u8],
) -> Result<Call, Stop>
    requires first { 0 < length first.now }
    requires second { 0 < length second.now }
    requires third { 0 < length third.now }
    requires fourth { 0 < length fourth.now }
    ensures ok { IfOk result (λ call. call_words call ≡ verb_word verb ∷ first.now ∷ second.now ∷ third.now ∷ fourth.now ∷ []) }
    ensures call { IfOk result CallFits }
    ensures fine { OnOk result (call_faults verb (first.now ∷ second.now ∷ third.now ∷ fourth.now ∷ []) ≡ []) }
    ensures err { IfErr result (λ e. Stops e (call_faults verb (first.now ∷ second.now ∷ third.now ∷ fourth.now ∷ []))) }
{
    match verb {
        Verb::Upsert => {
            let key = key_of(alloc, first)?;
            let value = value_of(alloc, second)?;
            let (recipe, argument) = recipe_of_two(third, fourth)?;
            Ok(Call::Upsert {
                key,
                value,
                recipe,
                argument,
            })
        }
        _ => Err(Stop::Fault(What::Word)),
    }
}

/// The verb that a call line begins with.
fn verb_of(word: &[u8]) -> Result<Verb, Stop>
    ensures ok { IfOk result (λ verb. (verb_of word.now ≡ Some verb) × (word.now ≡ verb_word verb)) }
    ensures err { IfErr result (λ e. (verb_of word.now ≡ None) × (e ≡ Stop.Fault What.Word)) }
{
    Verb::of(word).ok_or(Stop::Fault(What::Word))
}

/// The call that a line spells.
pub fn read_call(alloc: Global, words: &[&[u8]]) -> Result<Call, Stop>
    ensures ok { IfOk result (λ call. call_words call ≡ map (λ w. w.now) words.now) }
    ensures call { IfOk result CallFits }
    ensures fine { OnOk result (line_faults (map (λ w. w.now) words.now) ≡ []) }
    ensures err { IfErr result (λ e. Stops e (line_faults (map (λ w. w.now) words.now))) }
{
    if has_empty_word(words) {
        return Err(Stop::Fault(What::Word));
    }
    match words {
        [] | [_] => Err(Stop::Fault(What::Word)),
        [word, first] => call_of_one(alloc, verb_of(word)?, first),
        [word, first, second] => call_of_two(alloc, verb_of(word)?, first, second),
        [word, first, second, third] => {
            call_of_three(alloc, verb_of(word)?, first, second, third)
        }
        [word, first, second, third, fourth] => {
            call_of_four(alloc, verb_of(word)?, first, second, third, fourth)
        }
        _ => Err(Stop::Fault(What::Word)),
    }
}
