//! Where the parts of a table begin, kept so that a word's number is found by a sum or two.
ghost use Rattle.std.specs.Prelude.{◌≡◌};
ghost use Rattle.oak_core.specs.Offsets.{offsets_of};

use crate::layout::{headers_at, rooms_at};
use arena_core::layout::{bits_below, bytes_below};
use chunk_core::layout::room_width;
use oak_model::{CLASSES, Shape};

/// The number of the first word of the bits and of the bytes of each class, of the headers and of the
/// rooms, and how many words a room has.
#[derive(Clone, Copy)]
pub struct Offsets {
    pub(crate) bits: [u32; CLASSES],
    pub(crate) bytes: [u32; CLASSES],
    pub(crate) headers: u32,
    pub(crate) rooms: u32,
    pub(crate) room_width: u32,
}

impl Offsets {
    /// Those of a table of the shape.
    pub(crate) fn of(shape: &Shape) -> Offsets
        ensures { result ≡ offsets_of shape.now }
    {
        let first = 1 + bits_below(shape, CLASSES);
        let mut bits = [0; CLASSES];
        let mut bytes = [0; CLASSES];
        for class in 0..CLASSES {
            bits[class] = (1 + bits_below(shape, class)) as u32;
            bytes[class] = (first + bytes_below(shape, class)) as u32;
        }
        Offsets {
            bits,
            bytes,
            headers: headers_at(shape) as u32,
            rooms: rooms_at(shape) as u32,
            room_width: room_width(shape) as u32,
        }
    }
}
