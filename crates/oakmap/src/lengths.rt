//! How long an input may be.
ghost use Rattle.std.specs.Prelude.{◌≡◌};
ghost use Rattle.oakmap.specs.InputLength.{LengthIsAccepted, LengthIsRefused};

use crate::status::GREATEST_INPUT;

/// An input of exactly 16,777,216 bytes is not refused for its length, and one of one byte more is.
pub fn length_limit() -> usize
    ensures number { result ≡ 16777216 }
    ensures accepted { LengthIsAccepted }
    ensures refused { LengthIsRefused }
{
    GREATEST_INPUT
}
