//! Replies: what a call of the map tells.
ghost use Rattle.std.specs.Prelude.{◌≡◌};

use crate::classes::Class;
use crate::keys::Key;
use crate::values::Value;
use std::fmt;
use std::marker::Model;

/// What a call lacked.
#[derive(Clone, Copy, Debug, PartialEq, Eq)]
pub enum Lack {
    Block(Class),
    Header,
    Room,
}

impl fmt::Display for Lack {
    fn fmt<W: fmt::Write>(&self, f: &mut fmt::Formatter<W>) -> fmt::Result {
        match self {
            Lack::Block(class) => write!(f, "no block of {} bytes is free", class.bytes()),
            Lack::Header => write!(f, "no header is free"),
            Lack::Room => write!(f, "no chunk is free"),
        }
    }
}

/// The answer of a call that writes. `at` is the stamp of its write, or for an answer that wrote
/// nothing a number not below the stamp of the key's last write and below every later one.
#[derive(Clone, Copy, Debug, PartialEq, Eq)]
pub enum Wrote {
    New { at: u64 },
    Over { at: u64 },
    Kept { at: u64 },
    Done { at: u64 },
    Removed { at: u64 },
    Absent { at: u64 },
    Full(Lack),
}

impl fmt::Display for Wrote {
    fn fmt<W: fmt::Write>(&self, f: &mut fmt::Formatter<W>) -> fmt::Result {
        match self {
            Wrote::New { at } => write!(f, "put as new at {at}"),
            Wrote::Over { at } => write!(f, "put over another value at {at}"),
            Wrote::Kept { at } => write!(f, "kept as it was at {at}"),
            Wrote::Done { at } => write!(f, "computed at {at}"),
            Wrote::Removed { at } => write!(f, "removed at {at}"),
            Wrote::Absent { at } => write!(f, "absent at {at}"),
            Wrote::Full(lack) => write!(f, "refused: {lack}"),
        }
    }
}

/// A key that was read present, its value, and a number as that of [`Wrote`].
#[derive(Debug, Drop)]
pub struct Pair {
    pub key: Key,
    pub value: Value,
    pub at: u64,
}

/// The pairs of a scan, in its order.
#[derive(Debug, Drop)]
pub struct Pairs {
    pairs: Vec<Pair>,
}

impl Model for Pairs {
    ghost use Rattle.std.specs.Prelude.{List};
    ghost use Rattle.oak_model.specs.declared.replies.Pair.{Pair};

    ghost Value = { List Pair };

    ghost view = { λ p. p.pairs.items };
}

impl Pairs {
    pub fn of(pairs: Vec<Pair>) -> Pairs
        ensures { result ≡ pairs.items }
    {
        Pairs { pairs }
    }

    pub fn as_slice(&self) -> &[Pair]
        ensures { result.now ≡ self.now }
    {
        self.pairs.as_slice()
    }

    pub fn into_vec(self) -> Vec<Pair>
        ensures { result.items ≡ self }
    {
        self.pairs
    }
}

/// The reply to a call of a script. A `Value` names its key, since a look at a view does not.
#[derive(Debug, Drop)]
pub enum Reply {
    Wrote(Wrote),
    Value { key: Key, value: Value, at: u64 },
    Held { at: u64 },
    Gone,
    Unheld,
    Pairs(Pairs),
}

/// Where a search for a key may begin. It promises nothing.
#[derive(Clone, Copy, Debug, PartialEq, Eq)]
pub struct Hint {
    pub room: Option<u32>,
}

/// The hint that names no room: none is tried before the others.
pub const NO_HINT: Hint = Hint { room: None };
