//! Shapes: how many passes, chunks, entries, headers and blocks a table has.
ghost use Rattle.std.specs.Prelude.{◌≡◌, ◌<◌, ◌≤◌, true, false, MatchOption, MatchResult, IsOkAnd, IfOk};
ghost use Rattle.oak_model.specs.Limits.{IsInLimits};

use crate::classes::Class;
use crate::limits::{
    CLASSES, DEFAULT_BLOCKS, DEFAULT_CHUNKS, DEFAULT_ENTRIES, DEFAULT_HEADERS, GREATEST_BLOCKS,
    GREATEST_CHUNKS, GREATEST_ENTRIES, GREATEST_HEADERS, GREATEST_PASSES, LEAST_ENTRIES,
};
use std::marker::Model;
use thiserror::Error;

/// A field of a shape.
#[derive(Clone, Copy, Debug, PartialEq, Eq)]
pub enum ShapeField {
    Passes,
    Chunks,
    Entries,
    Headers,
    Blocks(Class),
}

impl ShapeField {
    ghost use Rattle.oak_model.specs.Shape.{least, greatest, in_limits};
    ghost use Rattle.oak_model.specs.declared.shapes.BadShape.{BadShape};

    /// The least and the greatest number of the field.
    fn limits(self) -> (u32, u32)
        ensures least { result.0 ≡ least self }
        ensures greatest { result.1 ≡ greatest self }
    {
        match self {
            ShapeField::Passes => (1, GREATEST_PASSES),
            ShapeField::Chunks => (1, GREATEST_CHUNKS),
            ShapeField::Entries => (LEAST_ENTRIES, GREATEST_ENTRIES),
            ShapeField::Headers => (1, GREATEST_HEADERS),
            ShapeField::Blocks(Class::B16) => (0, GREATEST_BLOCKS[0]),
            ShapeField::Blocks(Class::B64) => (0, GREATEST_BLOCKS[1]),
            ShapeField::Blocks(Class::B256) => (0, GREATEST_BLOCKS[2]),
            ShapeField::Blocks(Class::B1024) => (0, GREATEST_BLOCKS[3]),
        }
    }

    fn check(self, value: u32) -> Result<(), BadShape>
        ensures { MatchResult result (λ _. in_limits (self, value) ≡ true)
            (λ e. (in_limits (self, value) ≡ false) × (e ≡ record { field = self; value = value })) }
    {
        let (least, greatest) = self.limits();
        if least <= value && value <= greatest {
            Ok(())
        } else {
            Err(BadShape { field: self, value })
        }
    }
}

/// The first field of a shape that is outside its limits, with its number.
#[derive(Clone, Copy, Debug, PartialEq, Eq, Error)]
#[error("{field:?} may not be {value}")]
pub struct BadShape {
    pub field: ShapeField,
    pub value: u32,
}

/// The sizes of a table: how many passes, chunks, entries a chunk, headers, and blocks of each class.
#[derive(Clone, Copy, Debug, PartialEq, Eq)]
pub struct Shape {
    pub passes: u32,
    pub chunks: u32,
    pub entries: u32,
    pub headers: u32,
    pub blocks: [u32; CLASSES],
}

impl Model for Shape {
    ghost use Rattle.oak_model.specs.Limits.{Sizes, IsInLimits};

    ghost Value = { Sizes };

    ghost view = { λ s. record { passes = s.passes; chunks = s.chunks; entries = s.entries; headers = s.headers; blocks = s.blocks } };

    ghost invariant = { λ s. IsInLimits (record {
      passes = s.passes;
      chunks = s.chunks;
      entries = s.entries;
      headers = s.headers;
      blocks = s.blocks;
    }) };

    ghost inverse = { λ s. record { passes = s.passes; chunks = s.chunks; entries = s.entries; headers = s.headers; blocks = s.blocks } };
}

/// What is used of a table: the taken blocks of each class, the headers that are not free, and the
/// chunks in use.
#[derive(Clone, Copy, Debug, PartialEq, Eq)]
pub struct Usage {
    pub blocks: [u32; CLASSES],
    pub headers: u32,
    pub chunks: u32,
}

impl Shape {
    ghost use Rattle.oak_model.specs.Shape.{first_bad_field};
    ghost use Rattle.oak_model.specs.declared.limits.TheConstants.{DEFAULT_BLOCKS, DEFAULT_CHUNKS, DEFAULT_ENTRIES, DEFAULT_HEADERS, GREATEST_PASSES};

    /// The usual shape, with so many passes: that of a script without a `shape` line.
    pub fn standard(passes: u32) -> Shape
        requires some { 0 < passes }
        requires few { passes ≤ GREATEST_PASSES }
        ensures is { result ≡ record {
          passes = passes;
          chunks = DEFAULT_CHUNKS;
          entries = DEFAULT_ENTRIES;
          headers = DEFAULT_HEADERS;
          blocks = DEFAULT_BLOCKS;
        } }
    {
        Shape {
            passes,
            chunks: DEFAULT_CHUNKS,
            entries: DEFAULT_ENTRIES,
            headers: DEFAULT_HEADERS,
            blocks: DEFAULT_BLOCKS,
        }
    }

    /// A shape of these sizes. It is refused exactly where one is outside its limits, and the first
    /// such one in the order of the arguments is named.
    pub fn make(
        passes: u32,
        chunks: u32,
        entries: u32,
        headers: u32,
        blocks: [u32; CLASSES],
    ) -> Result<Shape, BadShape>
        ensures accepted { MatchOption (first_bad_field
            (record { passes = passes; chunks = chunks; entries = entries; headers = headers; blocks = blocks }))
            (IsOkAnd result (λ s. s ≡ record {
              passes = passes;
              chunks = chunks;
              entries = entries;
              headers = headers;
              blocks = blocks;
            })) (λ bad. result ≡ Err (record { field = bad.0; value = bad.1 })) }
        ensures lawful { IfOk result (λ s. IsInLimits s) }
    {
        ShapeField::Passes.check(passes)?;
        ShapeField::Chunks.check(chunks)?;
        ShapeField::Entries.check(entries)?;
        ShapeField::Headers.check(headers)?;
        ShapeField::Blocks(Class::B16).check(blocks[0])?;
        ShapeField::Blocks(Class::B64).check(blocks[1])?;
        ShapeField::Blocks(Class::B256).check(blocks[2])?;
        ShapeField::Blocks(Class::B1024).check(blocks[3])?;
        Ok(Shape {
            passes,
            chunks,
            entries,
            headers,
            blocks,
        })
    }
}
