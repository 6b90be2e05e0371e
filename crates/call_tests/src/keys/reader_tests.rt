//! A reading stands while another pass calls.
ghost use Rattle.std.specs.Prelude.{◌≡◌, ◌≤◌};
ghost use Rattle.oak_core.specs.Passes.{IsPassOf, Stays, state, key as sizes, call_of};
ghost use Rattle.oak_core.specs.PassState.{HoldsNothing, IsAlone};
ghost use Rattle.value_ops.specs.Reading.{IsReading, ReadsOn};
ghost use Rattle.point_ops.specs.TestStates.{HasView, IsReady, IsReadyAgain};

use crate::calls::shows;
use crate::found::{is_so, number_is};
use crate::keys::test_rows::Said;
use crate::keys::tests::{gets, is_gone, is_said, put_byte, remove_k, view_of_k};
use oak_core::{OakTable, Pass};
use oak_model::Shape;
use std::alloc::Global;
use std::process::Abort;
use std::test::Fail;
use value_ops::{Reading, ValueView};

/// The reading is of the one byte 1, which the other pass can't put over while it stands, and gets too. Its
/// call 2.
fn stands(rt: &impl Abort, table: &OakTable, reading: &mut Reading<'_>, other: &mut Pass)
    requires reading { IsReading reading.old }
    requires own { IsPassOf table.now other.old }
    requires call { call_of other.old ≡ 1 }
    requires ready { IsReady 1 (state other.old) }
    ensures same_reference { reading.new.pass.ghost_name ≡ reading.old.pass.ghost_name }
    ensures reads { ReadsOn reading.old reading.new }
    ensures own { IsPassOf table.now other.new }
    ensures call { call_of other.new ≡ 2 }
    ensures ready { IsReadyAgain 2 (state other.old) (state other.new) }
{
    let busy = put_byte(table, other, 2, 2);
    is_said(rt, 2, busy, Said::Busy, 0);
    let seen = gets(rt, table, other, b"k", &[1]);
    is_said(rt, 2, seen, Said::Holds, 1);
    let same = reading.same(&[1]);
    is_so(rt, "the bytes of the reading", same);
}

/// The one pass reads its view, beside the other's calls.
fn reads_beside(
    rt: &impl Abort,
    table: &OakTable,
    pass: &mut Pass,
    other: &mut Pass,
    view: &ValueView,
)
    requires own { IsPassOf table.now pass.old × IsPassOf table.now other.old }
    requires has { HasView (sizes table.now) view.now (state pass.old) }
    requires ready { IsReady (call_of pass.old) (state pass.old) }
    requires other { (call_of other.old ≡ 1) × IsReady 1 (state other.old) }
    ensures own { Stays pass.old pass.new × IsPassOf table.now other.new }
    ensures ready { IsReadyAgain (call_of pass.old) (state pass.old) (state pass.new) }
    ensures call { call_of other.new ≤ 2 }
    ensures other { IsReadyAgain (call_of other.new) (state other.old) (state other.new) }
{
    let Ok(pin) = view.pin(table, pass) else {
        panic!(rt; "no pin");
    };
    let mut reading = pin.reading(table, pass);
    stands(rt, table, &mut reading, other);
    reading.done();
}

/// Behind it the other pass puts over the value, and removes it. Its calls 3 and 4.
fn follows_other(
    rt: &impl Abort,
    table: &OakTable,
    pass: &mut Pass,
    other: &mut Pass,
    view: &ValueView,
)
    requires own { IsPassOf table.now pass.old × IsPassOf table.now other.old }
    requires has { HasView (sizes table.now) view.now (state pass.old) }
    requires ready { IsReady (call_of pass.old) (state pass.old) }
    requires call { call_of other.old ≤ 2 }
    requires other { IsReady (call_of other.old) (state other.old) }
    ensures own { Stays pass.old pass.new × IsPassOf table.now other.new }
    ensures ready { IsReadyAgain (call_of pass.old) (state pass.old) (state pass.new) }
    ensures other { IsReadyAgain 4 (state other.old) (state other.new) }
{
    let over = put_byte(table, other, 3, 2);
    is_said(rt, 3, over, Said::Over, 2);
    let at = shows(rt, table, pass, view, &[2]);
    number_is(rt, "the second stamp", at, 2);
    let removed = remove_k(table, other, 4);
    is_said(rt, 4, removed, Said::Removed, 3);
    is_gone(rt, table, pass, view);
    let absent = gets(rt, table, pass, b"k", &[]);
    is_said(rt, 1, absent, Said::Absent, 3);
}

/// The other pass puts a value, and the one views it.
fn reads_what_another_put(rt: &impl Abort, table: &OakTable, pass: &mut Pass, other: &mut Pass)
    requires own { IsPassOf table.now pass.old × IsPassOf table.now other.old }
    requires calls { (call_of pass.old ≡ 0) × (call_of other.old ≡ 0) }
    requires ready { IsReady 0 (state pass.old) × IsReady 0 (state other.old) }
    ensures own { IsPassOf table.now pass.new × IsPassOf table.now other.new }
    ensures ready { IsReadyAgain 1 (state pass.old) (state pass.new) }
    ensures other { IsReadyAgain 4 (state other.old) (state other.new) }
{
    let new = put_byte(table, other, 1, 1);
    is_said(rt, 1, new, Said::New, 1);
    let view = view_of_k(rt, table, pass, 1);
    number_is(rt, "the stamp of the view", view.at(), 1);
    reads_beside(rt, table, pass, other, &view);
    follows_other(rt, table, pass, other, &view);
}

fn split_and_read(rt: &impl Abort, alloc: Global, table: &OakTable, pass: &mut Pass)
    requires own { IsPassOf table.now pass.old }
    requires call { call_of pass.old ≡ 0 }
    requires ready { IsReady 0 (state pass.old) }
    requires alone { IsAlone (state pass.old) }
    ensures own { IsPassOf table.now pass.new }
    ensures idle { HoldsNothing (state pass.new) }
    ensures alone { IsAlone (state pass.new) }
{
    let Ok(mut other) = pass.split(alloc, table) else {
        panic!(rt; "no other pass");
    };
    reads_what_another_put(rt, table, pass, &mut other);
    pass.join(table, other);
}

#[test]
fn a_reading_stands_beside_a_put(rt: HostRuntime) -> Result<(), Fail> {
    let shape = Shape::make(2, 1, 4, 2, [4, 0, 0, 0])?;
    let (table, mut pass) = OakTable::create(rt.alloc(), &shape)?;
    split_and_read(&rt, rt.alloc(), &table, &mut pass);
    let usage = table.close(pass).usage();
    number_is(&rt, "blocks", u64::from(usage.blocks[0]), 1);
    Ok(())
}
