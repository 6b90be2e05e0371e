//! A script's calls on one key, made on the map.
ghost use Rattle.std.specs.Prelude.{◌≡◌, ◌<◌, ◌+◌, ◌-◌, ◌^◌, IfOk, true};
ghost use Rattle.oak_model.specs.Key.{IsKey, is_key};
ghost use Rattle.oak_model.specs.Recipe.{IsArgument};
ghost use Rattle.oak_script.specs.declared.scripts.Call.TheVariants as script;
ghost use Rattle.oak_core.specs.MayWrite.{IsNewCall};
ghost use Rattle.oak_core.specs.PassState.{HoldsNothing};
ghost use Rattle.oak_core.specs.Passes.{IsPassOf, Stays, call_of as table_call, state as table_state};
ghost use Rattle.oak_map.specs.Maps.{IsReady, call_of, sizes, state, table_of};
ghost use Rattle.oak_run.specs.CallTurns.{CallTurned, times_told};

use crate::copies::{copy_value, told};
use oak_core::Pass;
use oak_map::{Lent, MapPass, OakMap, get_of};
use oak_model::{Key, OutOfMemory, RecipeKind, Reply, Value, Wrote};
use std::alloc::Global;
use std::sync::Wait;
use value_ops::Recipe;

/// The same bytes, which are a key's.
fn checked(bytes: &[u8]) -> &[u8]
    requires { IsKey bytes.now }
    ensures same { result.now ≡ bytes.now }
    ensures key { is_key bytes.now ≡ true }
{
    bytes
}

/// The bytes of a key.
pub fn bytes_of(key: &Key) -> &[u8]
    ensures value { result.now ≡ key.now }
    ensures long { IsKey key.now }
    ensures key { is_key key.now ≡ true }
{
    checked(key.bytes())
}

/// [`get`] by the pass on the map's table.
fn get_by<R: Wait + Drop + Send>(
    rt: &R,
    alloc: Global,
    map: &OakMap<R>,
    pass: &mut Pass,
    key: &Key,
) -> Result<Reply, OutOfMemory>
    requires own { IsPassOf (table_of map.now) pass.old }
    requires idle { HoldsNothing (table_state pass.old) }
    ensures own { Stays pass.old pass.new }
    ensures idle { HoldsNothing (table_state pass.new) }
    ensures numbers { (table_state pass.new).numbers ≡ (table_state pass.old).numbers }
    ensures turned { IfOk result (λ y. CallTurned (sizes map.now) (table_call pass.old) (script.Get key.now) y
        (table_state pass.old) (table_state pass.new)) }
{
    match get_of(pass, rt, map, bytes_of(key)) {
        Lent::Absent { at } => Ok(Reply::Wrote(Wrote::Absent { at })),
        Lent::Present(mut reading) => {
            let at = reading.at();
            let copy = copy_value(alloc, &mut reading);
            reading.done();
            told(alloc, key, copy, at)
        }
    }
}

/// The value of a key, or that it has none.
pub fn get<R: Wait + Drop + Send>(
    rt: &R,
    alloc: Global,
    map: &OakMap<R>,
    pass: &mut MapPass,
    key: &Key,
) -> Result<Reply, OutOfMemory>
    requires ready { IsReady map.now pass.old }
    ensures ready { IsReady map.now pass.new }
    ensures call { call_of pass.new ≡ call_of pass.old }
    ensures numbers { (state pass.new).numbers ≡ (state pass.old).numbers }
    ensures turned { IfOk result (λ y. CallTurned (sizes map.now) (call_of pass.old) (script.Get key.now) y (state pass.old) (state pass.new)) }
{
    get_by(rt, alloc, map, pass.pass_mut(), key)
}

/// Puts the value of a key.
pub fn put<R: Wait + Drop + Send>(
    rt: &R,
    map: &OakMap<R>,
    pass: &mut MapPass,
    key: &Key,
    value: &Value,
) -> Reply
    requires ready { IsReady map.now pass.old }
    requires turn { IsNewCall (call_of pass.old) (state pass.old) }
    ensures ready { IsReady map.now pass.new }
    ensures call { call_of pass.new ≡ call_of pass.old }
    ensures turned { CallTurned (sizes map.now) (call_of pass.old) (script.Put key.now value.now) result (state pass.old) (state pass.new) }
{
    Reply::Wrote(map.put(rt, pass, bytes_of(key), value.bytes()))
}

/// Puts the value of a key where it is absent.
pub fn put_new<R: Wait + Drop + Send>(
    rt: &R,
    map: &OakMap<R>,
    pass: &mut MapPass,
    key: &Key,
    value: &Value,
) -> Reply
    requires ready { IsReady map.now pass.old }
    requires turn { IsNewCall (call_of pass.old) (state pass.old) }
    ensures ready { IsReady map.now pass.new }
    ensures call { call_of pass.new ≡ call_of pass.old }
    ensures turned { CallTurned (sizes map.now) (call_of pass.old) (script.PutNew key.now value.now) result (state pass.old) (state pass.new) }
{
    Reply::Wrote(map.put_if_absent(rt, pass, bytes_of(key), value.bytes()))
}

/// Computes the value of a key by the recipe, which is told what to do.
pub fn compute<R: Wait + Drop + Send>(
    rt: &R,
    map: &OakMap<R>,
    pass: &mut MapPass,
    recipe: &mut Box<dyn Recipe + Send>,
    key: &Key,
    kind: RecipeKind,
    argument: u64,
) -> Reply
    requires ready { IsReady map.now pass.old }
    requires turn { IsNewCall (call_of pass.old) (state pass.old) }
    requires few { calls recipe.old < 2 ^ 64 - 1 }
    requires argument { IsArgument kind argument }
    ensures ready { IsReady map.now pass.new }
    ensures call { call_of pass.new ≡ call_of pass.old }
    ensures turned { CallTurned (sizes map.now) (call_of pass.old) (script.Compute key.now kind argument) result (state pass.old) (state pass.new) }
    ensures counted { calls recipe.new ≡ calls recipe.old + times_told result }
{
    recipe.tell(kind, argument);
    Reply::Wrote(map.compute(rt, pass, bytes_of(key), recipe))
}

/// Computes the value of a key as [`compute`] does, or puts one where it is absent.
pub fn upsert<R: Wait + Drop + Send>(
    rt: &R,
    map: &OakMap<R>,
    pass: &mut MapPass,
    recipe: &mut Box<dyn Recipe + Send>,
    key: &Key,
    value: &Value,
    kind: RecipeKind,
    argument: u64,
) -> Reply
    requires ready { IsReady map.now pass.old }
    requires turn { IsNewCall (call_of pass.old) (state pass.old) }
    requires few { calls recipe.old < 2 ^ 64 - 1 }
    requires argument { IsArgument kind argument }
    ensures ready { IsReady map.now pass.new }
    ensures call { call_of pass.new ≡ call_of pass.old }
    ensures turned { CallTurned (sizes map.now) (call_of pass.old) (script.Upsert key.now value.now kind argument)
        result (state pass.old) (state pass.new) }
    ensures counted { calls recipe.new ≡ calls recipe.old + times_told result }
{
    recipe.tell(kind, argument);
    Reply::Wrote(map.upsert(rt, pass, bytes_of(key), value.bytes(), recipe))
}

/// Removes a key.
pub fn remove<R: Wait + Drop + Send>(
    rt: &R,
    map: &OakMap<R>,
    pass: &mut MapPass,
    key: &Key,
) -> Reply
    requires ready { IsReady map.now pass.old }
    requires turn { IsNewCall (call_of pass.old) (state pass.old) }
    ensures ready { IsReady map.now pass.new }
    ensures call { call_of pass.new ≡ call_of pass.old }
    ensures turned { CallTurned (sizes map.now) (call_of pass.old) (script.Remove key.now) result (state pass.old) (state pass.new) }
{
    Reply::Wrote(map.remove(rt, pass, bytes_of(key)))
}
