//! What is used of a closed table.
ghost use Rattle.std.specs.Prelude.{◌≡◌, ◌<◌, ◌*◌, slice_index};
ghost use Rattle.oak_core.specs.Memory.{memory, word_count};
ghost use Rattle.oak_core.specs.Closing.{closed_key, closed_words};
ghost use Rattle.oak_core.specs.Usage.{used_blocks, used_headers, used_chunks, usage_of, is_free, is_open};

use crate::closing::Closed;
use crate::layout::{headers_at, rooms_at};
use arena_core::layout::{bit_words, bits_below};
use chunk_core::OPEN;
use chunk_core::layout::{room_count, room_width};
use header_core::FREE;
use header_core::layout::{HEADER_WORDS, header_count};
use oak_model::{CLASSES, Usage};
use pin_word::{count, state};

/// Whether the pin word of a header says that it is free, with no pin.
fn is_free(word: u64) -> bool
    ensures { result ≡ is_free word }
{
    state(word) == FREE && count(word) == 0
}

/// Whether the pin word of a room says that it is open.
fn is_open(word: u64) -> bool
    ensures { result ≡ is_open word }
{
    state(word) == OPEN
}

impl Closed {
    /// The number of a word.
    fn word(&self, i: usize) -> u64
        requires { i < word_count (closed_key self.now) }
        ensures { result ≡ slice_index (closed_words self.now) i }
    {
        self.table.word(i)
    }

    /// How many blocks of a class are taken.
    fn used_blocks(&self, class: usize) -> u32
        requires { class < CLASSES }
        ensures { result ≡ used_blocks (closed_key self.now) (memory (closed_key self.now) (closed_words self.now)) class }
    {
        let first = 1 + bits_below(&self.shape, class);
        let words = bit_words(&self.shape, class);
        let mut used = 0;
        for i in 0..words {
            used += self.word(first + i).count_ones();
        }
        used
    }

    /// How many headers are not free.
    fn used_headers(&self) -> u32
        ensures { result ≡ used_headers (closed_key self.now) (memory (closed_key self.now) (closed_words self.now)) }
    {
        let first = headers_at(&self.shape);
        let mut used = 0;
        let headers = header_count(&self.shape);
        for header in 0..headers {
            let word = self.word(first + header as usize * HEADER_WORDS);
            used += u32::from(!is_free(word));
        }
        used
    }

    /// How many rooms are open.
    fn used_chunks(&self) -> u32
        ensures { result ≡ used_chunks (closed_key self.now) (memory (closed_key self.now) (closed_words self.now)) }
    {
        let first = rooms_at(&self.shape);
        let width = room_width(&self.shape);
        let mut used = 0;
        let rooms = room_count(&self.shape);
        for room in 0..rooms {
            let word = self.word(first + room as usize * width);
            used += u32::from(is_open(word));
        }
        used
    }

    /// The taken blocks of each class, the headers that are not free, and the open rooms.
    pub fn usage(&self) -> Usage
        ensures { result ≡ usage_of (closed_key self.now) (memory (closed_key self.now) (closed_words self.now)) }
    {
        let mut blocks = [0; CLASSES];
        for class in 0..CLASSES {
            blocks[class] = self.used_blocks(class);
        }
        Usage {
            blocks,
            headers: self.used_headers(),
            chunks: self.used_chunks(),
        }
    }
}
