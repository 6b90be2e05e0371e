//! The words of a `shape` line.
ghost use Rattle.std.specs.Prelude.{◌≡◌, ◌≤◌, ◌<◌, ℕ, length, map, slice_index, IfSome, is_some};
ghost use Rattle.std.specs.Fmt.{decimal};
ghost use Rattle.oak_model.specs.declared.limits.TheConstants.{CLASSES, GREATEST_BLOCKS};
ghost use Rattle.oak_model.specs.declared.shapes.ShapeField.TheVariants.{Blocks};
ghost use Rattle.oak_model.specs.Class.{classes};
ghost use Rattle.oak_script.specs.ShapeLine.{size_words, size_fields, are_sizes, SizesFit};

use crate::numbers::number_in;
use oak_model::{
    CLASSES, GREATEST_BLOCKS, GREATEST_CHUNKS, GREATEST_ENTRIES, GREATEST_HEADERS, LEAST_ENTRIES,
    Shape,
};

/// The numbers of blocks that four words spell.
fn blocks_of(words: &[&[u8]]) -> Option<[u32; CLASSES]>
    requires { length words.now ≡ 4 }
    ensures spelled { IfSome result (λ bs. map decimal bs ≡ map (λ w. w.now) words.now) }
    ensures classes { IfSome result (λ bs. length bs ≡ CLASSES) }
    ensures greatest { IfSome result (λ bs. (c : ℕ) → c < CLASSES → slice_index bs c ≤ slice_index GREATEST_BLOCKS c) }
    ensures found { is_some result ≡ are_sizes (map Blocks classes) (map (λ w. w.now) words.now) }
{
    match words {
        [b16, b64, b256, b1024] => {
            let b16 = number_in(b16, 0, GREATEST_BLOCKS[0])?;
            let b64 = number_in(b64, 0, GREATEST_BLOCKS[1])?;
            let b256 = number_in(b256, 0, GREATEST_BLOCKS[2])?;
            let b1024 = number_in(b1024, 0, GREATEST_BLOCKS[3])?;
            Some([b16, b64, b256, b1024])
        }
        _ => None,
    }
}

/// The shape that the seven words behind `shape` ask for. How many passes it has they do not say.
pub fn shape_of(words: &[&[u8]]) -> Option<Shape>
    requires { length words.now ≡ 7 }
    ensures spelled { IfSome result (λ s. size_words s ≡ map (λ w. w.now) words.now) }
    ensures fit { IfSome result SizesFit }
    ensures found { is_some result ≡ are_sizes size_fields (map (λ w. w.now) words.now) }
{
    match words {
        [chunks, entries, headers, blocks @ ..] => {
            let chunks = number_in(chunks, 1, GREATEST_CHUNKS)?;
            let entries = number_in(entries, LEAST_ENTRIES, GREATEST_ENTRIES)?;
            let headers = number_in(headers, 1, GREATEST_HEADERS)?;
            let blocks = blocks_of(blocks)?;
            Some(Shape {
                passes: 1,
                chunks,
                entries,
                headers,
                blocks,
            })
        }
        _ => None,
    }
}
