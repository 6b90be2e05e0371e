//! The first bytes of a key as one number, by which most keys are told apart: a "poor man's normalized key" (G. Graefe
//! and P. Larson, "B-Tree Indexes and CPU Caches", ICDE 2001). Those of all minima stand side by side.
ghost use Rattle.std.specs.Prelude.{◌≡◌, slice_index};
ghost use Rattle.chunk_index.specs.Heads.{key_head};

use crate::low::Low;
use oak_model::{Hint, NO_HINT};
use std::alloc::{AllocError, Global};

/// The byte at this place, and 0 behind the last one.
fn byte_at(key: &[u8], place: usize) -> u8
    ensures { result ≡ slice_index key.now place }
{
    key.get(place).copied().unwrap_or(0)
}

/// The first eight bytes as a number, the first one the highest, with 0 for each that the key has not.
pub fn head_of(key: &[u8]) -> u64
    ensures { result ≡ key_head key.now }
{
    match key.first_chunk::<8>() {
        Some(bytes) => u64::from_be_bytes(*bytes),
        None => u64::from_be_bytes([
            byte_at(key, 0),
            byte_at(key, 1),
            byte_at(key, 2),
            byte_at(key, 3),
            byte_at(key, 4),
            byte_at(key, 5),
            byte_at(key, 6),
            0,
        ]),
    }
}

/// How many numbers a stretch has.
const STRETCH: usize = 16;

/// The order of unsigned numbers is that of signed ones with the highest bit turned, and a processor compares several
/// signed ones at once.
const HIGHEST_BIT: u64 = 1 << 63;

/// The head as a signed number: these have the order of the heads.
fn signed(head: u64) -> i64 {
    (head ^ HIGHEST_BIT).cast_signed()
}

/// How far the number is above the other, and very far where it is below.
fn distance(other: i64, number: i64) -> u64 {
    number.wrapping_sub(other).cast_unsigned()
}

/// How many numbers of a stretch are not above this one. All are looked at, by steps without a branch, and as they are
/// always so many, several are compared at once.
fn count_upto(stretch: &[i64; STRETCH], number: i64) -> usize {
    let mut count = 0usize;
    for other in stretch {
        count = count.wrapping_add(usize::from(*other <= number));
    }
    count
}

/// The heads of minima, in their order, and again the first of each stretch of them, with the rooms of their chunks. Of what
/// it counts nothing is promised: who asks looks at the minima beside.
///
/// In front of the heads stands the least number, so that some are always not above a head, and behind them the greatest,
/// so that each stretch is whole.
#[derive(Drop)]
pub struct Heads {
    heads: Vec<i64>,
    firsts: Vec<[i64; STRETCH]>,
    rooms: Vec<u32>,

    // How many minima the heads are of.
    count: usize,
}

impl Heads {
    /// None yet, with memory for so many.
    pub fn new(alloc: Global, count: u32) -> Result<Heads, AllocError> {
        let stretches = count as usize / STRETCH + 1;
        let heads = Vec::with_capacity(alloc, stretches * STRETCH)?;
        let firsts = Vec::with_capacity(alloc, stretches.div_ceil(STRETCH))?;
        let rooms = Vec::with_capacity(alloc, count as usize)?;
        let count = 0;
        Ok(Heads {
            heads,
            firsts,
            rooms,
            count,
        })
    }

    /// Puts this number behind the firsts, of which there are so many.
    fn push_first(&mut self, count: usize, number: i64) -> Result<(), AllocError> {
        if count % STRETCH == 0 {
            self.firsts
                .push([i64::MAX; STRETCH])
                .map_err(|_| AllocError)?;
        }
        if let Some(stretch) = self.firsts.last_mut() {
            stretch[count % STRETCH] = number;
        }
        Ok(())
    }

    /// Puts this number behind the heads, and behind the firsts too where it begins a stretch.
    fn push(&mut self, number: i64) -> Result<(), AllocError> {
        let place = self.heads.len();
        if place % STRETCH == 0 {
            self.push_first(place / STRETCH, number)?;
        }
        self.heads.push(number).map_err(|_| AllocError)
    }

    /// Puts the greatest number behind the heads until each stretch is whole.
    fn fill(&mut self) -> Result<(), AllocError> {
        let part = self.heads.len() % STRETCH;
        if part > 0 {
            for _ in part..STRETCH {
                self.push(i64::MAX)?;
            }
        }
        Ok(())
    }

    /// Leaves all that it has.
    fn clear(&mut self) {
        self.heads.clear();
        self.firsts.clear();
        self.rooms.clear();
        self.count = 0;
    }

    /// Takes the heads of these minima in place of those it has.
    fn try_take(&mut self, lows: &[Low]) -> Result<(), AllocError> {
        self.clear();
        self.push(i64::MIN)?;
        for low in lows {
            self.push(signed(low.head()))?;
            self.rooms.push(low.room()).map_err(|_| AllocError)?;
            self.count = self.count.wrapping_add(1);
        }
        self.fill()
    }

    /// Takes what another has in place of what it has. It fails where there is no memory for that, and then has but a part.
    pub fn copy_from(&mut self, other: &Heads) -> Result<(), AllocError> {
        self.clear();
        self.heads.extend_from_slice(&other.heads)?;
        self.firsts.extend_from_slice(&other.firsts)?;
        self.rooms.extend_from_slice(&other.rooms)?;
        self.count = other.count;
        Ok(())
    }

    /// Puts the first number of each stretch from this one on in its place among the firsts.
    fn renew_firsts(&mut self, from: usize) {
        for stretch in from..self.heads.len() / STRETCH {
            let first = self.heads.get(stretch.wrapping_mul(STRETCH)).copied();
            if let Some(firsts) = self.firsts.get_mut(stretch / STRETCH) {
                firsts[stretch % STRETCH] = first.unwrap_or(i64::MAX);
            }
        }
    }

    /// Puts a number and a room behind the first so many minima's. One of the numbers behind all heads gives way to it; where
    /// there is none, a stretch begins.
    fn insert(&mut self, count: usize, number: i64, room: u32) -> Result<(), AllocError> {
        let behind = count.min(self.rooms.len());
        self.rooms.insert(behind, room).map_err(|_| AllocError)?;
        if self.heads.len() > self.count.saturating_add(1) {
            self.heads.pop();
        }
        let place = count.saturating_add(1).min(self.heads.len());
        let last = self.heads.len();
        self.heads.insert(place, number).map_err(|_| AllocError)?;
        self.count = self.count.wrapping_add(1);
        if last % STRETCH == 0 {
            self.push_first(last / STRETCH, i64::MAX)?;
            self.fill()?;
        }
        self.renew_firsts(place / STRETCH);
        Ok(())
    }

    /// Takes the heads of these minima in place of those it has, where none but the one behind the first so many is new, and
    /// none is gone. `false` where it can't be that.
    fn take_one_more(&mut self, lows: &[Low], count: usize) -> bool {
        if self.heads.is_empty() || lows.len() != self.count.wrapping_add(1) {
            return false;
        }
        match lows.get(count) {
            Some(low) => self.insert(count, signed(low.head()), low.room()).is_ok(),
            None => false,
        }
    }

    /// Takes the heads of these minima in place of those it has, of which the one behind the first so many was set last.
    /// Where there is no memory the others are left out.
    pub fn take(&mut self, lows: &[Low], count: usize) {
        if !self.take_one_more(lows, count) {
            let _ = self.try_take(lows);
        }
    }

    /// Whether so many are not above this number, by the two beside. It takes both in one comparison, of how far the
    /// number and the next are from the last, since most searches are of another place, and a branch for each of the two
    /// could not be foreseen.
    fn parts(&self, number: i64, count: usize) -> bool {
        if count >= self.heads.len().saturating_sub(1) {
            return false;
        }
        let last = self.heads[count];
        distance(last, number) < distance(last, self.heads[count + 1])
    }

    /// How many stretches begin with a number that is not above this one.
    #[inline(always)]
    fn count_stretches(&self, number: i64) -> usize {
        let mut count = 0usize;
        for stretch in &self.firsts {
            let upto = count_upto(stretch, number);
            count = count.wrapping_add(upto);
            if upto < STRETCH {
                break;
            }
        }
        count
    }

    /// How many are not above this number: all of the stretches before the last one that begins so, and of that one those
    /// that are counted, but for the number in front.
    #[inline(always)]
    fn count_heads(&self, number: i64) -> usize {
        let to = self.count_stretches(number).wrapping_mul(STRETCH);
        let stretch = self
            .heads
            .get(..to)
            .and_then(|upto| upto.last_chunk::<STRETCH>());
        match stretch {
            Some(stretch) => to
                .wrapping_sub(STRETCH + 1)
                .wrapping_add(count_upto(stretch, number)),
            None => 0,
        }
    }

    /// How many are not above this head. It is tried first whether so many are.
    #[inline(always)]
    pub fn count_by_heads(&self, head: u64, near: usize) -> usize {
        let number = signed(head);
        if self.parts(number, near) {
            return near;
        }
        self.count_heads(number)
    }

    /// The room of the last of so many minima, and none where there are none, unless the last has this very head: then
    /// others may have it too, and their bytes have to be asked.
    #[inline(always)]
    pub fn hint_below(&self, head: u64, count: usize) -> Option<Hint> {
        if *self.heads.get(count)? == signed(head) {
            return None;
        }
        match count.checked_sub(1) {
            Some(last) => Some(Hint {
                room: self.rooms.get(last).copied(),
            }),
            None => Some(NO_HINT),
        }
    }
}
