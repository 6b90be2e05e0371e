//! The packed word of a header or a room: how many pins stand on it, the state that it is in, and how often it was taken back.
#![tactic(auto, unfolding(crate::specs::PinWord::packed, crate::specs::PinWord::generation_of, crate::specs::PinWord::state_of, crate::specs::PinWord::count_of))]

ghost use Rattle.std.specs.Prelude.{◌≡◌, ◌<◌, ◌+◌, ◌-◌, ◌*◌, ◌^◌};
ghost use Rattle.pin_word.specs.PinWord.{packed, generation_of, state_of, count_of};

/// What one more in the state adds to a word.
const STATE: u64 = 1 << 28;

/// What one more in the generation adds to a word.
const GENERATION: u64 = 1 << 32;

/// How many states a word can tell apart.
const STATES: u64 = 16;

/// The word of a generation, a state below 16 and a count below 2^28.
pub fn pack(generation: u32, state: u8, count: u32) -> u64
    requires state_fits { state < 16 }
    requires count_fits { count < 2 ^ 28 }
    ensures { result ≡ packed generation state count }
{
    u64::from(generation) * GENERATION + u64::from(state) * STATE + u64::from(count)
}

/// The generation of a word, its upper 32 bits.
pub fn generation(word: u64) -> u32
    ensures { result ≡ generation_of word }
{
    (word / GENERATION) as u32
}

/// The state of a word, below 16.
pub fn state(word: u64) -> u8
    ensures { result ≡ state_of word }
{
    (word / STATE % STATES) as u8
}

/// The count of a word, its lower 28 bits.
pub fn count(word: u64) -> u32
    ensures { result ≡ count_of word }
{
    (word % STATE) as u32
}

/// A law: the parts of any word, packed, are that word.
pub fn packing_the_parts(word: u64)
    ensures fits { (state_of word < 16) × (count_of word < 2 ^ 28) }
    ensures same { packed (generation_of word) (state_of word) (count_of word) ≡ word }
{}

/// A law: the parts of what was packed are the numbers that were packed.
pub fn parts_of_a_pack(generation: u32, state: u8, count: u32)
    requires state_fits { state < 16 }
    requires count_fits { count < 2 ^ 28 }
    ensures generation { generation_of (packed generation state count) ≡ generation }
    ensures state { state_of (packed generation state count) ≡ state }
    ensures count { count_of (packed generation state count) ≡ count }
{}
