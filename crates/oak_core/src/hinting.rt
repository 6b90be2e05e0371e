//! Where the searches of a pass may begin, by an index of the chunks. Nothing is promised of a hint, so contracts see
//! no part of the reader.
ghost use Rattle.std.specs.Prelude.{◌≡◌};

use crate::table::Pass;
use chunk_index::IndexReader;
use oak_model::Hint;

impl Pass {
    /// Gives the pass a reader of an index, in place of the one that it had. A new pass has one of no index,
    /// whose hints have no room.
    pub fn set_reader(&mut self, reader: IndexReader)
        ensures { self.new ≡ self.old }
    {
        self.reader = reader;
    }

    /// The room in which to look for the key first, as the pass's reader has it, by a copy of the index that it made before.
    /// It takes no step on the table, never waits and takes no memory.
    #[inline(always)]
    pub fn hint(&mut self, key: &[u8]) -> Hint
        ensures { self.new ≡ self.old }
    {
        self.reader.hint(key)
    }

    /// The room in which to look for the key first, by the index as it is now. It is else as [`Pass::hint`].
    pub fn hint_now(&mut self, key: &[u8]) -> Hint
        ensures { self.new ≡ self.old }
    {
        self.reader.hint_now(key)
    }

    /// Tells the pass's reader that its copy of the index is an old one: the next hint has a new one made.
    pub fn forget_hints(&mut self)
        ensures { self.new ≡ self.old }
    {
        self.reader.forget();
    }

    /// The room in which to look first for the keys next below the bound, and without one for the last keys. It is
    /// else as [`Pass::hint`].
    pub fn hint_under(&mut self, bound: Option<&[u8]>) -> Hint
        ensures { self.new ≡ self.old }
    {
        self.reader.hint_under(bound)
    }
}
