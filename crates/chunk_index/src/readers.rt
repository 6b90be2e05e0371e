//! Readers of the index.
use crate::heads::{Heads, head_of};
use crate::lows::Lows;
use left_right::{ReadGuard, ReadHandle};
use oak_model::{Hint, NO_HINT};
use std::fmt::{self, Debug, Formatter};
use std::marker::Model;

/// Gives hints, of which nothing is promised: the copy that it finds may be an old one. It never waits and takes no
/// memory but at first. Contracts see no part of it, so what holds one looks the same behind a hint. A search begins where
/// the one before it ended, since scans and settlings ask for one chunk behind the other.
///
/// To look at the index takes two ordered steps and words that a split by another pass changed last. So a reader keeps the
/// heads and the rooms for itself, and looks at the index only where it has none of its own, where a head is a minimum's
/// too, so that bytes decide, and where it was told that a hint of its own was wrong.
#[derive(Drop)]
pub struct IndexReader {
    handle: Option<ReadHandle<Lows>>,
    near: usize,

    // A copy of the heads, and whether hints come from it.
    own: Option<Heads>,
    copied: bool,
}

impl Debug for IndexReader {
    fn fmt<W: fmt::Write>(&self, f: &mut Formatter<W>) -> fmt::Result {
        f.debug_struct("IndexReader").finish_non_exhaustive()
    }
}

impl Model for IndexReader {
    ghost Value = { Unit {0} };

    ghost view = { λ _. tt };

    ghost invariant = { λ _. Unit {0} };
}

/// The copy of the index that is shown, if there is one.
#[inline(always)]
fn shown(handle: &mut Option<ReadHandle<Lows>>) -> Option<ReadGuard<'_, Lows>> {
    handle.as_mut()?.enter()
}

impl IndexReader {
    pub(crate) fn new(handle: Option<ReadHandle<Lows>>, own: Option<Heads>) -> IndexReader {
        IndexReader {
            handle,
            near: 0,
            own,
            copied: false,
        }
    }

    /// A reader of no index: its hints have no room.
    pub fn none() -> IndexReader {
        IndexReader::new(None, None)
    }

    /// The hint that the reader's own copy has for a key with this head.
    #[inline(always)]
    fn own_hint(&mut self, head: u64) -> Option<Hint> {
        if !self.copied {
            return None;
        }
        let heads = self.own.as_ref()?;
        self.near = heads.count_by_heads(head, self.near);
        heads.hint_below(head, self.near)
    }

    /// Where to look for the key first: the room of the greatest minimum that is not above it, in some copy of the
    /// index, which may be one that the reader made before.
    #[inline(always)]
    pub fn hint(&mut self, key: &[u8]) -> Hint {
        match self.own_hint(head_of(key)) {
            Some(hint) => hint,
            None => self.look(key),
        }
    }

    /// Where to look for the key first, as [`IndexReader::hint`] has it, by the index. Where the reader has no copy, it
    /// makes one.
    #[inline(never)]
    fn look(&mut self, key: &[u8]) -> Hint {
        if !self.copied {
            self.copied = self.copy().is_some();
        }
        self.hint_now(key)
    }

    /// Copies the heads of the index, where there is one, and memory for them.
    fn copy(&mut self) -> Option<()> {
        let lows = shown(&mut self.handle)?;
        self.own.as_mut()?.copy_from(lows.heads()).ok()
    }

    /// Where to look for the key first, by the index as it is shown now.
    pub fn hint_now(&mut self, key: &[u8]) -> Hint {
        let Some(lows) = shown(&mut self.handle) else {
            return NO_HINT;
        };
        let (hint, near) = lows.hint(key, self.near);
        self.near = near;
        hint
    }

    /// Tells the reader that its copy is an old one: the next hint has a new one made.
    pub fn forget(&mut self) {
        self.copied = false;
    }

    /// Where to look first for the keys next below the bound, and without one for the last keys: the room of the
    /// greatest minimum that comes before it.
    pub fn hint_under(&mut self, bound: Option<&[u8]>) -> Hint {
        let Some(lows) = shown(&mut self.handle) else {
            return NO_HINT;
        };
        let (hint, near) = lows.hint_under(bound, self.near);
        self.near = near;
        hint
    }
}
