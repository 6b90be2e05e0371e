//! The classes of blocks.
ghost use Rattle.std.specs.Prelude.{◌≡◌, ◌<◌};
ghost use Rattle.oak_model.specs.declared.limits.TheConstants.{CLASSES};
ghost use Rattle.oak_model.specs.Class.{class_bytes, class_number, class_of};

/// A class of blocks, named by the bytes of its blocks.
#[derive(Clone, Copy, Debug, PartialEq, Eq)]
pub enum Class {
    B16,
    B64,
    B256,
    B1024,
}

/// The least class whose blocks hold `n` bytes; none exactly above the greatest class.
pub fn class_of(n: usize) -> Option<Class>
    ensures { result ≡ class_of n }
{
    if n <= 16 {
        Some(Class::B16)
    } else if n <= 64 {
        Some(Class::B64)
    } else if n <= 256 {
        Some(Class::B256)
    } else if n <= 1_024 {
        Some(Class::B1024)
    } else {
        None
    }
}

impl Class {
    /// The place of the class among the classes, from the least to the greatest.
    pub fn number(self) -> usize
        ensures is { result ≡ class_number self }
        ensures below { result < CLASSES }
    {
        match self {
            Class::B16 => 0,
            Class::B64 => 1,
            Class::B256 => 2,
            Class::B1024 => 3,
        }
    }

    /// The bytes of a block.
    pub fn bytes(self) -> usize
        ensures { result ≡ class_bytes self }
    {
        match self {
            Class::B16 => 16,
            Class::B64 => 64,
            Class::B256 => 256,
            Class::B1024 => 1_024,
        }
    }
}
