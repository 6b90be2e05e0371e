//! Holds and looks of a script, made on the map.
ghost use Rattle.std.specs.Prelude.{◌≡◌, IfOk};
ghost use Rattle.oak_core.specs.Passes.{IsPassOf, Stays, call_of as table_call, state as table_state};
ghost use Rattle.oak_core.specs.PassState.{HoldsNothing};
ghost use Rattle.oak_script.specs.declared.scripts.Call.TheVariants as script;
ghost use Rattle.oak_map.specs.Maps.{IsReady, call_of, pass_of, sizes, state, table_of};
ghost use Rattle.value_ops.specs.Views.{KnowsView};
ghost use Rattle.oak_run.specs.HeldNames.{CallDid, KeepsViews, LookDid};
ghost use Rattle.oak_run.specs.Views.{Names};

use crate::asks::bytes_of;
use crate::copies::{copy_value, told};
use oak_core::Pass;
use oak_map::{Looked, MapPass, OakMap, ValueView, look_of};
use oak_model::{Key, Name, OutOfMemory, Reply, Wrote};
use point_ops::Got;
use std::alloc::Global;
use std::collections::BTreeMap;
use std::sync::Wait;

/// What a name stands for on the map: a key, and a view of the life that was held.
#[derive(Drop)]
pub struct HeldView {
    pub key: Key,
    pub view: ValueView,
}

pub type HeldViews = BTreeMap<Name, HeldView>;

/// Lets a name stand for the present life of a key, or for nothing where it is absent.
pub fn hold<R: Wait + Drop + Send>(
    rt: &R,
    alloc: Global,
    map: &OakMap<R>,
    pass: &mut MapPass,
    holds: &mut HeldViews,
    name: &Name,
    key: &Key,
) -> Result<Reply, OutOfMemory>
    requires ready { IsReady map.now pass.old }
    ensures own { Stays (pass_of pass.old) (pass_of pass.new) }
    ensures ready { IsReady map.now pass.new }
    ensures numbers { (state pass.new).numbers ≡ (state pass.old).numbers }
    ensures held { IfOk result (λ y. CallDid (sizes map.now) (call_of pass.old) holds.old holds.new
        (script.Hold name.now key.now) y (state pass.old) (state pass.new)) }
{
    match map.view(rt, pass, bytes_of(key)) {
        Got::Absent { at } => {
            let _empty = holds.remove(name);
            Ok(Reply::Wrote(Wrote::Absent { at }))
        }
        Got::View(view) => {
            let name = name.copy(alloc)?;
            let key = key.copy(alloc)?;
            let at = view.at();
            holds.insert(name, HeldView { key, view })?;
            Ok(Reply::Held { at })
        }
    }
}

/// Reads the life that a name stands for.
pub fn look<R: Wait + Drop + Send>(
    rt: &R,
    alloc: Global,
    map: &OakMap<R>,
    pass: &mut MapPass,
    holds: &HeldViews,
    name: &Name,
) -> Result<Reply, OutOfMemory>
    requires ready { IsReady map.now pass.old }
    requires known { (names : Names) × KeepsViews (sizes map.now) holds.now (state pass.old) names }
    ensures own { Stays (pass_of pass.old) (pass_of pass.new) }
    ensures ready { IsReady map.now pass.new }
    ensures numbers { (state pass.new).numbers ≡ (state pass.old).numbers }
    ensures looked { IfOk result (λ y. CallDid (sizes map.now) (call_of pass.old) holds.now holds.now
        (script.Look name.now) y (state pass.old) (state pass.new)) }
{
    match holds.get(name) {
        None => Ok(Reply::Unheld),
        Some(held) => look_at(rt, alloc, map, pass.pass_mut(), held),
    }
}

/// Reads the life that was held.
fn look_at<R: Wait + Drop + Send>(
    rt: &R,
    alloc: Global,
    map: &OakMap<R>,
    pass: &mut Pass,
    held: &HeldView,
) -> Result<Reply, OutOfMemory>
    requires own { IsPassOf (table_of map.now) pass.old }
    requires idle { HoldsNothing (table_state pass.old) }
    requires known { KnowsView (sizes map.now) held.now.view (table_state pass.old) }
    ensures own { Stays pass.old pass.new }
    ensures idle { HoldsNothing (table_state pass.new) }
    ensures numbers { (table_state pass.new).numbers ≡ (table_state pass.old).numbers }
    ensures looked { IfOk result (λ y. LookDid (sizes map.now) (table_call pass.old) held.now y (table_state pass.old) (table_state pass.new)) }
{
    match look_of(pass, rt, map, &held.view) {
        Looked::Gone => Ok(Reply::Gone),
        Looked::Present(mut reading) => {
            let at = reading.at();
            let copy = copy_value(alloc, &mut reading);
            reading.done();
            told(alloc, &held.key, copy, at)
        }
    }
}
