//! The faults of a script, by line and word.
ghost use Rattle.std.specs.Prelude.{◌≡◌};

use thiserror::Error;

/// What is wrong with a line. Of several faults of a line the one that stands first here is told, but those
/// from `Name` to `Recipe` are judged word by word from left to right.
#[derive(Clone, Copy, Debug, PartialEq, Eq)]
pub enum What {
    Head,
    AfterEnd,
    Word,
    Shape,
    Name,
    Hex,
    Key,
    Value,
    Recipe,
    Threads,
    Calls,
    Scans,
    NoEnd,
}

impl What {
    ghost use Rattle.oak_script.specs.Told.{what_text};

    /// The words that tell it.
    pub fn text(self) -> &'static str
        ensures { result.now ≡ what_text self }
    {
        match self {
            What::Head => "head",
            What::AfterEnd => "after end",
            What::Word => "word",
            What::Shape => "shape",
            What::Name => "name",
            What::Hex => "hex",
            What::Key => "key",
            What::Value => "value",
            What::Recipe => "recipe",
            What::Threads => "threads",
            What::Calls => "calls",
            What::Scans => "scans",
            What::NoEnd => "no end",
        }
    }
}

/// The first fault of a text, with the number of its line, which begins at 1.
#[derive(Clone, Copy, Debug, PartialEq, Eq, Error)]
#[error("line {line}: {}", .what.text())]
pub struct ScriptFault {
    pub line: u32,
    pub what: What,
}

/// Why a text gave no script.
#[derive(Debug, Drop)]
pub enum NoScript {
    Fault(ScriptFault),
    OutOfMemory,
}
