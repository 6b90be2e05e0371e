//! What a map takes of memory, in bytes.
ghost use Rattle.std.specs.Prelude.{◌≡◌, ◌*◌};
ghost use Rattle.oak_core.specs.Memory.{word_count};

use oak_core::layout::word_count;
use oak_model::Shape;

/// What something takes, in bytes.
pub trait InBytes {
    fn bytes(&self) -> usize;
}

impl InBytes for Shape {
    /// The bytes of the words of a map of this shape: eight for each. They are taken when the map is made; its index and
    /// its passes take some more.
    fn bytes(&self) -> usize
        ensures { result ≡ 8 * word_count self.now }
    {
        word_count(self) * 8
    }
}
