//! Shapes for so many keys.
ghost use Rattle.std.specs.Prelude.{◌≡◌, ◌<◌, ◌≤◌, MatchOption, IsOkAnd, IfOk, Err};
ghost use Rattle.oak_model.specs.declared.limits.TheConstants.{GREATEST_HEADERS};
ghost use Rattle.oak_model.specs.declared.shapes.ShapeField.TheVariants.{Headers};
ghost use Rattle.oak_model.specs.KeyShapes.{chunks_for, entries_for, if_longer, sizes_for_keys};
ghost use Rattle.oak_model.specs.Limits.{IsInLimits};
ghost use Rattle.oak_model.specs.Shape.{first_bad_field};

use crate::limits::{DEFAULT_ENTRIES, GREATEST_ENTRIES, GREATEST_HEADERS};
use crate::shapes::{BadShape, Shape, ShapeField};

/// So many keys have room in chunks of the default number of entries, of which there may be
/// [`GREATEST_CHUNKS`](crate::GREATEST_CHUNKS).
const FEW_KEYS: u32 = 16_384;

/// How many entries a chunk has in a table for so many keys.
fn entries_for(count: u32) -> u32
    ensures { result ≡ entries_for count }
{
    if count <= FEW_KEYS {
        DEFAULT_ENTRIES
    } else {
        GREATEST_ENTRIES
    }
}

/// How many chunks it has.
fn chunks_for(count: u32) -> u32
    requires { count ≤ GREATEST_HEADERS }
    ensures { result ≡ chunks_for count }
{
    let entries = entries_for(count);
    if count <= entries {
        1
    } else {
        2 * (count - 1) / (entries / 2 + 1) + 2
    }
}

/// So many where a key or a value of at most `longest` bytes may have more than `bytes`.
fn if_longer(bytes: usize, longest: usize, count: u32) -> u32
    ensures { result ≡ if_longer bytes longest count }
{
    if bytes < longest { count } else { 0 }
}

impl Shape {
    /// A shape in which a put by a pass that is alone is never answered `Full`, as long as the map has at most `count` keys
    /// behind it, of at most so many bytes each, with values of at most so many, and no header is worn out: a header and a
    /// block of each class for each key and each value that may need one, and so many chunks that a settled map of so
    /// many keys leaves one free. It is refused where the number of keys, or what follows from it, is outside the limits
    /// of a shape.
    pub fn for_keys(
        count: u32,
        key_bytes: usize,
        value_bytes: usize,
        passes: u32,
    ) -> Result<Shape, BadShape>
        ensures many { GREATEST_HEADERS < count → result ≡ Err (record { field = Headers; value = count }) }
        ensures made { count ≤ GREATEST_HEADERS → MatchOption
            (first_bad_field (sizes_for_keys count key_bytes value_bytes passes))
            (IsOkAnd result (λ s. s ≡ sizes_for_keys count key_bytes value_bytes passes))
            (λ bad. result ≡ Err (record { field = bad.0; value = bad.1 })) }
        ensures lawful { IfOk result (λ s. IsInLimits s) }
    {
        if count > GREATEST_HEADERS {
            return Err(BadShape {
                field: ShapeField::Headers,
                value: count,
            });
        }
        let blocks = [
            2 * count,
            if_longer(16, key_bytes, count) + if_longer(16, value_bytes, count),
            if_longer(64, value_bytes, count),
            if_longer(256, value_bytes, count),
        ];
        Shape::make(passes, chunks_for(count), entries_for(count), count, blocks)
    }
}
