//! Passes are made, given their calls, split, joined, and at last closed with their table.
ghost use Rattle.std.specs.Prelude.{◌≡◌, ℕ, ◌<◌, ◌*◌, ◌/◌, ◌^◌, [], ◌∷◌, map, IfOk, IfErr, MatchBool};
ghost use Rattle.std.specs.Int.{bit_at, reverse_bits, w32};
ghost use Rattle.arena_core.specs.Arena.{blocks};
ghost use Rattle.header_core.specs.declared.states.TheConstants.{LAST_GENERATION};
ghost use Rattle.oak_core.specs.PassState.{HoldsNothing, left_state, right_state, both_state};
ghost use Rattle.oak_core.specs.AloneWords.{LeavesWords};
ghost use Rattle.oak_core.specs.Opening.{IsOpened, first_state};
ghost use Rattle.oak_core.specs.Schedule.{MaySplit, opening};
ghost use Rattle.oak_core.specs.Step.{MayGive, Told, give_number};
ghost use Rattle.oak_core.specs.Passes.{IsPassOf, Stays, SearchesStay, TriesStay, Turns, state, key, opened_at, call_of, tries};
ghost use Rattle.oak_core.specs.Splitting.{LooksAtGiven, FindsLeast, SplitsOff, FindsAllGiven, SeesLonger, GivesWords, LeavesSame};

use crate::atoms::or_said;
use crate::first_words::opening_words;
use crate::loads::load;
use crate::offsets::Offsets;
use crate::sorting::Sorting;
use crate::states::PassState;
use crate::table::{OakTable, Opened, Pass};
use crate::writing::Writing;
use atomic_table::{Join, Split, Table};
use chunk_index::IndexReader;
use oak_model::{CLASSES, Class, OutOfMemory, Shape};
use std::alloc::Global;
use std::marker::Brand;
use thiserror::Error;

/// Why a pass was not split.
#[derive(Clone, Copy, Debug, PartialEq, Eq, Error)]
pub enum SplitFault {
    /// The shape allows `made` passes, and so many were made.
    #[error("all {made} passes were made")]
    Limit { made: u32 },
    #[error("out of memory")]
    OutOfMemory,
}

/// How the state of a pass is cut in two by a split.
#[derive(Debug)]
pub struct Cut;

impl Split<PassState> for Cut {
    ghost left = { left_state };

    ghost right = { right_state };
}

/// How the states of two passes become one by a join.
#[derive(Debug)]
pub struct Glue;

impl Join<PassState> for Glue {
    ghost use Rattle.oak_core.specs.PassState.{spent_state};

    ghost both = { both_state };

    ghost spent = { spent_state };
}

fn is_set(word: u64, bit: u32) -> bool
    requires { bit < 64 }
    ensures { MatchBool result (bit_at word bit ≡ 1) (bit_at word bit ≡ 0) }
{
    word >> bit & 1 == 1
}

/// Where the pass of this number begins to search among so many: the first pass at 0, the next in the middle, the
/// next two in the middles of the halves, and so on, so that passes seldom meet at the same words. These are the
/// points of van der Corput's sequence.
fn first_place(count: u32, number: u32) -> u32
    ensures { result ≡ count * reverse_bits w32 number / 2 ^ 32 }
{
    (u64::from(count) * u64::from(number.reverse_bits()) >> 32) as u32
}

/// Where it begins to search in each class.
fn first_places(table: &OakTable, number: u32) -> [u32; CLASSES]
    ensures { result ≡ map (λ c. blocks (key table.now) c * reverse_bits w32 number / 2 ^ 32) (0 ∷ 1 ∷ 2 ∷ 3 ∷ []) }
{
    [
        first_place(table.blocks(Class::B16), number),
        first_place(table.blocks(Class::B64), number),
        first_place(table.blocks(Class::B256), number),
        first_place(table.blocks(Class::B1024), number),
    ]
}

impl OakTable {
    /// A table of this shape with its first pass, which has the number 0: an empty map, in which room 0
    /// covers every key, and each header is free at generation 0. The pass is alone, and has met the making of the
    /// table, with all its words.
    pub fn create(alloc: Global, shape: &Shape) -> Result<(OakTable, Pass), OutOfMemory>
        ensures key { IfOk result (λ t. key t.0 ≡ shape.now) }
        ensures generation { IfOk result (λ t. opened_at t.0 ≡ 0) }
        ensures own { IfOk result (λ t. IsPassOf t.0 t.1) }
        ensures first { IfOk result (λ t. (state t.1 ≡ first_state (key t.0) 0) × (call_of t.1 ≡ 0)) }
        ensures tries { IfOk result (λ t. tries t.1 ≡ 0) }
        ensures words { IfOk result (λ t. LeavesWords (opening (key t.0) 0).words (state t.1)) }
        ensures opened { IfOk result (λ t. IsOpened (key t.0) 0 (opening (key t.0) 0).words) }
    {
        OakTable::create_aged(alloc, shape, 0)
    }

    /// A table as [`OakTable::create`] makes it, but for its headers: each is free at this generation, which is not
    /// the last one. A header that is taken back comes to the next generation, so one that began at the last but one
    /// is used once.
    pub fn create_aged(
        alloc: Global,
        shape: &Shape,
        generation: u32,
    ) -> Result<(OakTable, Pass), OutOfMemory>
        requires early { generation < LAST_GENERATION }
        ensures key { IfOk result (λ t. key t.0 ≡ shape.now) }
        ensures generation { IfOk result (λ t. opened_at t.0 ≡ generation) }
        ensures own { IfOk result (λ t. IsPassOf t.0 t.1) }
        ensures first { IfOk result (λ t. (state t.1 ≡ first_state (key t.0) generation) × (call_of t.1 ≡ 0)) }
        ensures tries { IfOk result (λ t. tries t.1 ≡ 0) }
        ensures words { IfOk result (λ t. LeavesWords (opening (key t.0) generation).words (state t.1)) }
        ensures opened { IfOk result (λ t. IsOpened (key t.0) generation (opening (key t.0) generation).words) }
    {
        // Reading a field shows that the sizes are within their limits.
        let _passes = shape.passes;
        let shape = *shape;
        let words = opening_words(alloc, &shape, generation)?;
        let scratch = Writing::make(alloc)?;
        let sorting = Sorting::make(alloc)?;
        let opened = Opened { shape, generation };
        let (table, seat) = Table::of_words(alloc, words.as_slice(), &opened)?;
        let offsets = Offsets::of(&shape);
        let table = OakTable {
            table,
            shape,
            offsets,
        };
        let pass = Pass {
            seat,
            call: 0,
            scratch,
            sorting,
            searches: [0; CLASSES],
            header_search: 0,
            tries: 0,
            reader: IndexReader::none(),
        };
        Ok((table, pass))
    }
}

impl Pass {
    /// Names the present call of the pass's caller.
    pub fn turn(&mut self, call: u32)
        requires { call_of self.old < call }
        ensures { Turns self.old self.new call }
    {
        self.call = call;
    }

    /// Loads word 0, for the least number that is not given there: 64 where all are.
    fn least_free(&mut self, table: &OakTable) -> u32
        requires own { IsPassOf table.now self.old }
        ensures own { Stays self.old self.new }
        ensures searches { SearchesStay self.old self.new }
        ensures tries { TriesStay self.old self.new }
        ensures least { FindsLeast (key table.now) (call_of self.old) (state self.old) result (state self.new) }
    {
        load(table, self, 0).trailing_ones()
    }

    /// Sets the bit of a number in word 0, which gives the number where it was clear.
    fn give_number(&mut self, table: &OakTable, number: u32) -> u64
        requires own { IsPassOf table.now self.old }
        requires small { number < 64 }
        requires may { MayGive (key table.now) number (state self.old) }
        ensures own { Stays self.old self.new }
        ensures searches { SearchesStay self.old self.new }
        ensures tries { TriesStay self.old self.new }
        ensures told { Told (key table.now) (call_of self.old) (give_number number) (state self.old) result (state self.new) }
    {
        or_said::<Brand>(table, self, 0, 1 << number)
    }

    /// The part of a split that takes the number in hand. The new pass begins its searches away from others.
    fn cut(&mut self, table: &OakTable, number: u32, scratch: Writing, sorting: Sorting) -> Pass
        requires own { IsPassOf table.now self.old }
        requires may { MaySplit (state self.old) }
        ensures own { Stays self.old self.new }
        ensures searches { SearchesStay self.old self.new }
        ensures tries { TriesStay self.old self.new }
        ensures new { IsPassOf table.now result × (call_of result ≡ 0) }
        ensures none_tried { tries result ≡ 0 }
        ensures cut { (state self.new ≡ left_state (state self.old)) × (state result ≡ right_state (state self.old)) }
    {
        let seat = table.table.shared.split_seat::<Cut>(&mut self.seat);
        Pass {
            seat,
            call: 0,
            scratch,
            sorting,
            searches: first_places(table, number),
            header_search: first_place(table.headers(), number),
            tries: 0,
            reader: IndexReader::none(),
        }
    }

    /// Splits off a pass for another caller, with the least number that no pass has. It has seen what
    /// this one has seen, has pinned no room, and has a reader of no index. `Limit` comes exactly where one
    /// load found all numbers of the shape given. All memory is taken before the number. It loads word 0,
    /// and sets one bit there; it does so again only where another pass took the number between the two. To
    /// a pass that is alone no other word changes.
    pub fn split(&mut self, alloc: Global, table: &OakTable) -> Result<Pass, SplitFault>
        requires own { IsPassOf table.now self.old }
        requires idle { HoldsNothing (state self.old) }
        ensures own { Stays self.old self.new }
        ensures searches { SearchesStay self.old self.new }
        ensures tries { TriesStay self.old self.new }
        ensures new { IfOk result (λ p. IsPassOf table.now p × (call_of p ≡ 0)) }
        ensures none_tried { IfOk result (λ p. tries p ≡ 0) }
        ensures split { IfOk result (λ p. SplitsOff (key table.now) (call_of self.old) (state self.old) (state self.new) (state p)) }
        ensures refused { IfErr result (λ _. LooksAtGiven (call_of self.old) (state self.old) (state self.new)) }
        ensures limit { (made : ℕ) → result ≡ Err (SplitFault.Limit made) → (made ≡ (key table.now).passes)
            × FindsAllGiven (key table.now) (call_of self.old) (state self.old) (state self.new) }
        ensures memory { result ≡ Err SplitFault.OutOfMemory → state self.new ≡ state self.old }
        ensures alone_given { IfOk result (λ p. GivesWords (state p).numbers.number (state self.old) (state self.new)) }
        ensures alone_refused { IfErr result (λ _. LeavesSame (state self.old) (state self.new)) }
    {
        let Ok(scratch) = Writing::make(alloc) else {
            return Err(SplitFault::OutOfMemory);
        };
        let Ok(sorting) = Sorting::make(alloc) else {
            return Err(SplitFault::OutOfMemory);
        };
        let passes = table.passes();
        let mut number = self.least_free(table);
        while number < passes {
            let found = self.give_number(table, number);
            if !is_set(found, number) {
                return Ok(self.cut(table, number, scratch, sorting));
            }
            // Another pass took the number meanwhile.
            number = self.least_free(table);
        }
        Err(SplitFault::Limit { made: passes })
    }

    /// Takes in another pass: of each key the longer of what the two have seen is seen, and what the
    /// other wrote, met and noted is kept under its number.
    pub fn join(&mut self, table: &OakTable, other: Pass)
        requires own { IsPassOf table.now self.old × IsPassOf table.now other }
        requires idle { HoldsNothing (state self.old) × HoldsNothing (state other) }
        ensures own { Stays self.old self.new }
        ensures searches { SearchesStay self.old self.new }
        ensures tries { TriesStay self.old self.new }
        ensures joined { state self.new ≡ both_state (state self.old) (state other) }
        ensures seen { (k : ℕ) → SeesLonger (state self.old) (state other) (state self.new) k }
    {
        let Pass {
            seat,
            call: _,
            scratch: _,
            sorting: _,
            searches: _,
            header_search: _,
            tries: _,
            reader: _,
        } = other;
        table.table.shared.join_seat::<Glue>(&mut self.seat, seat);
    }
}
