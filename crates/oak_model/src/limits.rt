//! The limits of keys, values, shapes and scripts.
ghost use Rattle.std.specs.Prelude.{◌≡◌, ◌↔◌, ℕ, ◌∷◌, [], List, length, ◌<◌, ◌≤◌};
ghost use Rattle.oak_model.specs.Key.{IsKey};
ghost use Rattle.oak_model.specs.Value.{IsValue};
ghost use Rattle.oak_model.specs.Name.{IsName};
ghost use Rattle.oak_model.specs.Shape.{HasLimits};
ghost use Rattle.oak_model.specs.declared.limits.TheConstants.{DEFAULT_CHUNKS, DEFAULT_ENTRIES, DEFAULT_HEADERS, DEFAULT_BLOCKS};
ghost use Rattle.oak_model.specs.declared.classes.Class.TheVariants.{B16, B64, B256, B1024};
ghost use Rattle.oak_model.specs.declared.shapes.ShapeField.TheVariants.{Passes, Chunks, Entries, Headers, Blocks};

/// The greatest length of a key, in bytes; the least is 1.
pub const GREATEST_KEY: usize = 64;

/// The greatest length of a value, in bytes.
pub const GREATEST_VALUE: usize = 1_024;

/// The greatest length of a name, in bytes; the least is 1.
pub const GREATEST_NAME: usize = 32;

/// The number of classes of blocks.
pub const CLASSES: usize = 4;

/// The bytes of a block of the least class.
pub const LEAST_BLOCK: usize = 16;

/// How many times the bytes of one class are those of the class below.
pub const CLASS_GROWTH: usize = 4;

/// The greatest number of passes of a shape; the least is 1.
pub const GREATEST_PASSES: u32 = 64;

/// The greatest number of chunks of a shape; the least is 1.
pub const GREATEST_CHUNKS: u32 = 1_024;

/// The least number of entries of a chunk.
pub const LEAST_ENTRIES: u32 = 4;

/// The greatest number of entries of a chunk.
pub const GREATEST_ENTRIES: u32 = 256;

/// The greatest number of headers of a shape; the least is 1.
pub const GREATEST_HEADERS: u32 = 65_536;

/// The greatest number of blocks of each class of a shape; the least is 0.
pub const GREATEST_BLOCKS: [u32; CLASSES] = [65_536, 65_536, 16_384, 4_096];

/// The default numbers of a shape: chunks, entries, headers and the blocks of each class.
pub const DEFAULT_CHUNKS: u32 = 256;

pub const DEFAULT_ENTRIES: u32 = 64;

pub const DEFAULT_HEADERS: u32 = 8_192;

pub const DEFAULT_BLOCKS: [u32; CLASSES] = [16_384, 4_096, 1_024, 512];

/// A law: the limits, with the numbers written out.
pub fn limits_in_numbers()
    ensures keys { (k : List ℕ) → IsKey k ↔ ((0 < length k) × (length k ≤ 64)) }
    ensures values { (v : List ℕ) → IsValue v ↔ (length v ≤ 1024) }
    ensures names { (a : List ℕ) → IsName a ↔ ((0 < length a) × (length a ≤ 32)) }
    ensures passes { HasLimits Passes 1 64 }
    ensures chunks { HasLimits Chunks 1 1024 }
    ensures entries { HasLimits Entries 4 256 }
    ensures headers { HasLimits Headers 1 65536 }
    ensures blocks_of_16 { HasLimits (Blocks B16) 0 65536 }
    ensures blocks_of_64 { HasLimits (Blocks B64) 0 65536 }
    ensures blocks_of_256 { HasLimits (Blocks B256) 0 16384 }
    ensures blocks_of_1024 { HasLimits (Blocks B1024) 0 4096 }
    ensures default_chunks { DEFAULT_CHUNKS ≡ 256 }
    ensures default_entries { DEFAULT_ENTRIES ≡ 64 }
    ensures default_headers { DEFAULT_HEADERS ≡ 8192 }
    ensures default_blocks { DEFAULT_BLOCKS ≡ 16384 ∷ 4096 ∷ 1024 ∷ 512 ∷ [] }
{}
