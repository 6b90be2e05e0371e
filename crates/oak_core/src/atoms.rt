//! One function for each operation on a word. What a step tells is picked by its caller, since a step
//! on a word sees neither the call nor what the word is for.
ghost use Rattle.std.specs.Prelude.{ℕ, ◌<◌, ◌+◌, ◌-◌, ◌%◌, ◌^◌, ◌==◌, bit_and, bit_or};
ghost use prog.Atomic.{either};
ghost use Rattle.atomic_table.specs.Table.{Allows};
ghost use Rattle.oak_core.specs.declared.states.PassState.{PassState};
ghost use Rattle.oak_core.specs.Running.{Holds, KeepsSeat};
ghost use Rattle.oak_core.specs.Passes.{IsPassOf, Stays, SearchesStay, TriesStay, state, key, opened_at};

use crate::states::PassState;
use crate::table::{OakTable, Pass};
use atomic_table::Play;
use oak_model::Kind;
use std::marker::{Brand, PhantomData};

/// What a step tells its caller of the number found and of the state after it.
pub(crate) trait Said {
    ghost told: { ℕ → PassState → Type 0 };
}

impl Said for Brand {
    ghost told = { λ _ _. Unit {0} };
}

struct Says<T> {
    of: PhantomData<T>,
}

impl<T: Said> Play<(), PassState> for Says<T> {
    ghost then = { λ _ before n after. T.told n after.0 × KeepsSeat before after };
}

pub(crate) fn load_said<T: Said>(table: &OakTable, pass: &mut Pass, word: usize) -> u64
    requires own { IsPassOf table.now pass.old }
    requires inside { word < table.now.table.shared.table_id.words }
    requires rule { Allows (Holds (key table.now) (opened_at table.now)) table.now.table.shared.table_id.slots
        pass.old.seat.id pass.old.seat.me word (λ n. n) (λ n m. T.told n m.0 × KeepsSeat pass.old.seat.me m) }
    ensures own { Stays pass.old pass.new }
    ensures tries { TriesStay pass.old pass.new }
    ensures searches { SearchesStay pass.old pass.new }
    ensures told { T.told result (state pass.new) }
{
    table.table.shared.load::<Says<T>>(&mut pass.seat, word)
}

pub(crate) fn or_said<T: Said>(table: &OakTable, pass: &mut Pass, word: usize, bits: u64) -> u64
    requires own { IsPassOf table.now pass.old }
    requires inside { word < table.now.table.shared.table_id.words }
    requires rule { Allows (Holds (key table.now) (opened_at table.now)) table.now.table.shared.table_id.slots
        pass.old.seat.id pass.old.seat.me word (λ n. bit_or n bits)
        (λ n m. T.told n m.0 × KeepsSeat pass.old.seat.me m) }
    ensures own { Stays pass.old pass.new }
    ensures tries { TriesStay pass.old pass.new }
    ensures searches { SearchesStay pass.old pass.new }
    ensures told { T.told result (state pass.new) }
{
    table
        .table
        .shared
        .fetch_or::<Says<T>>(&mut pass.seat, word, bits)
}

pub(crate) fn and_said<T: Said>(table: &OakTable, pass: &mut Pass, word: usize, bits: u64) -> u64
    requires own { IsPassOf table.now pass.old }
    requires inside { word < table.now.table.shared.table_id.words }
    requires rule { Allows (Holds (key table.now) (opened_at table.now)) table.now.table.shared.table_id.slots
        pass.old.seat.id pass.old.seat.me word (λ n. bit_and n bits)
        (λ n m. T.told n m.0 × KeepsSeat pass.old.seat.me m) }
    ensures own { Stays pass.old pass.new }
    ensures told { T.told result (state pass.new) }
{
    table
        .table
        .shared
        .fetch_and::<Says<T>>(&mut pass.seat, word, bits)
}

pub(crate) fn store_said<T: Said>(table: &OakTable, pass: &mut Pass, word: usize, value: u64)
    requires own { IsPassOf table.now pass.old }
    requires inside { word < table.now.table.shared.table_id.words }
    requires rule { Allows (Holds (key table.now) (opened_at table.now)) table.now.table.shared.table_id.slots
        pass.old.seat.id pass.old.seat.me word (λ _. value) (λ _ m. T.told value m.0 × KeepsSeat pass.old.seat.me m) }
    ensures own { Stays pass.old pass.new }
    ensures told { T.told value (state pass.new) }
{
    table
        .table
        .shared
        .store::<Says<T>>(&mut pass.seat, word, value);
}

pub(crate) fn add_said<T: Said>(table: &OakTable, pass: &mut Pass, word: usize, amount: u64) -> u64
    requires own { IsPassOf table.now pass.old }
    requires inside { word < table.now.table.shared.table_id.words }
    requires rule { Allows (Holds (key table.now) (opened_at table.now)) table.now.table.shared.table_id.slots
        pass.old.seat.id pass.old.seat.me word (λ n. (n + amount) % 2 ^ 64)
        (λ n m. T.told n m.0 × KeepsSeat pass.old.seat.me m) }
    ensures own { Stays pass.old pass.new }
    ensures tries { TriesStay pass.old pass.new }
    ensures told { T.told result (state pass.new) }
{
    table
        .table
        .shared
        .fetch_add::<Says<T>>(&mut pass.seat, word, amount)
}

/// Adds as [`add_said`] does; what it tells may name the number that is wanted.
pub(crate) fn add_wanted<T: Said>(
    table: &OakTable,
    pass: &mut Pass,
    word: usize,
    amount: u64,
    wanted: u64,
) -> u64
    requires own { IsPassOf table.now pass.old }
    requires inside { word < table.now.table.shared.table_id.words }
    requires rule { Allows (Holds (key table.now) (opened_at table.now)) table.now.table.shared.table_id.slots
        pass.old.seat.id pass.old.seat.me word (λ n. (n + amount) % 2 ^ 64)
        (λ n m. T.told n m.0 × KeepsSeat pass.old.seat.me m) }
    ensures own { Stays pass.old pass.new }
    ensures told { T.told result (state pass.new) }
{
    let _ = wanted;
    add_said::<T>(table, pass, word, amount)
}

pub(crate) fn sub_said<T: Said>(table: &OakTable, pass: &mut Pass, word: usize, amount: u64) -> u64
    requires own { IsPassOf table.now pass.old }
    requires inside { word < table.now.table.shared.table_id.words }
    requires rule { Allows (Holds (key table.now) (opened_at table.now)) table.now.table.shared.table_id.slots
        pass.old.seat.id pass.old.seat.me word (λ n. (n + (2 ^ 64 - amount)) % 2 ^ 64)
        (λ n m. T.told n m.0 × KeepsSeat pass.old.seat.me m) }
    ensures own { Stays pass.old pass.new }
    ensures tries { TriesStay pass.old pass.new }
    ensures told { T.told result (state pass.new) }
{
    table
        .table
        .shared
        .fetch_sub::<Says<T>>(&mut pass.seat, word, amount)
}

/// Subtracts as [`sub_said`] does; what it tells may name the kind of the write that the step may be.
pub(crate) fn sub_of_kind<T: Said>(
    table: &OakTable,
    pass: &mut Pass,
    word: usize,
    amount: u64,
    kind: Kind,
) -> u64
    requires own { IsPassOf table.now pass.old }
    requires inside { word < table.now.table.shared.table_id.words }
    requires rule { Allows (Holds (key table.now) (opened_at table.now)) table.now.table.shared.table_id.slots
        pass.old.seat.id pass.old.seat.me word (λ n. (n + (2 ^ 64 - amount)) % 2 ^ 64)
        (λ n m. T.told n m.0 × KeepsSeat pass.old.seat.me m) }
    ensures own { Stays pass.old pass.new }
    ensures told { T.told result (state pass.new) }
{
    let _ = kind;
    sub_said::<T>(table, pass, word, amount)
}

pub(crate) fn exchange_said<T: Said>(
    table: &OakTable,
    pass: &mut Pass,
    word: usize,
    old: u64,
    new: u64,
) -> u64
    requires own { IsPassOf table.now pass.old }
    requires inside { word < table.now.table.shared.table_id.words }
    requires rule { Allows (Holds (key table.now) (opened_at table.now)) table.now.table.shared.table_id.slots
        pass.old.seat.id pass.old.seat.me word (λ n. either (n == old) new n)
        (λ n m. T.told n m.0 × KeepsSeat pass.old.seat.me m) }
    ensures own { Stays pass.old pass.new }
    ensures told { T.told result (state pass.new) }
{
    table
        .table
        .shared
        .compare_exchange::<Says<T>>(&mut pass.seat, word, old, new)
}

/// Exchanges as [`exchange_said`] does; what it tells may name the kind of the write that the step may be.
pub(crate) fn exchange_of_kind<T: Said>(
    table: &OakTable,
    pass: &mut Pass,
    word: usize,
    old: u64,
    new: u64,
    kind: Kind,
) -> u64
    requires own { IsPassOf table.now pass.old }
    requires inside { word < table.now.table.shared.table_id.words }
    requires rule { Allows (Holds (key table.now) (opened_at table.now)) table.now.table.shared.table_id.slots
        pass.old.seat.id pass.old.seat.me word (λ n. either (n == old) new n)
        (λ n m. T.told n m.0 × KeepsSeat pass.old.seat.me m) }
    ensures own { Stays pass.old pass.new }
    ensures told { T.told result (state pass.new) }
{
    let _ = kind;
    exchange_said::<T>(table, pass, word, old, new)
}
