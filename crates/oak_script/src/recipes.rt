//! The words of a recipe.
ghost use Rattle.std.specs.Prelude.{◌≡◌, ◌∷◌, [], ◌==◌, ◌&&◌, length, OnOk, IfOk, IfErr, IfSome, is_some};
ghost use Rattle.hex.specs.Hex.{encode_lower};
ghost use Rattle.oak_script.specs.Words.{recipe_words};
ghost use Rattle.oak_script.specs.Grammar.{ArgumentFits};
ghost use Rattle.oak_script.specs.Forms.{is_hex, RecipeSlot};
ghost use Rattle.oak_script.specs.Faults.{slot_faults};
ghost use Rattle.oak_script.specs.Stops.{Stops};

use crate::faults::What;
use crate::numbers::number_of;
use crate::stops::Stop;
use crate::words::{is_hex, is_word};
use oak_model::RecipeKind;

/// The byte that two digits spell.
fn byte_of(word: &[u8]) -> Option<u8>
    ensures spelled { IfSome result (λ b. encode_lower (b ∷ []) ≡ word.now) }
    ensures found { is_some result ≡ ((length word.now == 2) && is_hex word.now) }
{
    if word.len() != 2 || !is_hex(word) {
        return None;
    }
    let mut bytes = [0u8; 1];
    match hex::decode_to_slice(word, &mut bytes) {
        Ok(()) => Some(bytes[0]),
        Err(_) => None,
    }
}

/// The recipe that one word spells, with its argument.
pub fn recipe_of_one(word: &[u8]) -> Result<(RecipeKind, u64), Stop>
    ensures ok { IfOk result (λ r. recipe_words r.0 r.1 ≡ word.now ∷ []) }
    ensures argument { IfOk result (λ r. ArgumentFits r.0 r.1) }
    ensures fine { OnOk result (slot_faults (RecipeSlot ∷ []) (word.now ∷ []) ≡ []) }
    ensures err { IfErr result (λ e. Stops e (slot_faults (RecipeSlot ∷ []) (word.now ∷ []))) }
{
    if !is_word(word, b"rev") {
        return Err(Stop::Fault(What::Recipe));
    }
    Ok((RecipeKind::Rev, 0))
}

/// The recipe that two words spell, with its argument.
pub fn recipe_of_two(word: &[u8], argument: &[u8]) -> Result<(RecipeKind, u64), Stop>
    ensures ok { IfOk result (λ r. recipe_words r.0 r.1 ≡ word.now ∷ argument.now ∷ []) }
    ensures argument { IfOk result (λ r. ArgumentFits r.0 r.1) }
    ensures fine { OnOk result (slot_faults (RecipeSlot ∷ []) (word.now ∷ argument.now ∷ []) ≡ []) }
    ensures err { IfErr result (λ e. Stops e (slot_faults (RecipeSlot ∷ []) (word.now ∷ argument.now ∷ []))) }
{
    if is_word(word, b"add") {
        return match number_of(argument) {
            Some(n) => Ok((RecipeKind::Add, n)),
            None => Err(Stop::Fault(What::Recipe)),
        };
    }
    if is_word(word, b"xor") {
        return match byte_of(argument) {
            Some(byte) => Ok((RecipeKind::Xor, u64::from(byte))),
            None => Err(Stop::Fault(What::Recipe)),
        };
    }
    Err(Stop::Fault(What::Recipe))
}
