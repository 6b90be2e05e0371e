//! Four threads put a thousand keys into a map that begins as one chunk of 256 entries.
ghost use Rattle.std.specs.Prelude.{◌<◌};

use oak_caller::{Caller, Shape, Store, Wrote};
use std::process::Abort;
use std::sync::Wait;
use std::test::Fail;
use std::thread::{Threads, join_mut};

/// How many keys each thread puts.
const EACH: u16 = 250;

/// Puts every fourth key from this one on, with its own bytes as its value: whether each was new.
fn puts_each<R: Wait + Drop + Send>(rt: &R, caller: &mut Caller<'_, R>, first: u16) -> bool
    requires { first < 4 }
{
    let mut new = true;
    for i in 0..EACH {
        let key = (4 * i + first).to_be_bytes();
        let said = caller.put(rt, &key, &key);
        new = new && matches!(said, Ok(Wrote::New { at: 1 }));
    }
    new
}

/// So do two threads at once, from this key on and from the next: for each whether all of its keys were new.
fn put_together<R: Threads + Wait + Sync + Drop + Send>(
    rt: &R,
    a: &mut Caller<'_, R>,
    b: &mut Caller<'_, R>,
    first: u16,
) -> (bool, bool)
    requires { first < 3 }
{
    join_mut(
        rt,
        &mut move ||
            requires { first < 4 }
        { puts_each(rt, a, first) },
        &mut move ||
            requires { first < 3 }
        { puts_each(rt, b, first + 1) },
    )
}

/// Whether the key has its bytes as its value.
fn finds<R: Wait + Drop + Send>(rt: &R, caller: &mut Caller<'_, R>, key: [u8; 2]) -> bool {
    let found = caller.read(rt, &key, |bytes| bytes == key.as_slice());
    found == Some(true)
}

/// Whether each key has its value.
fn finds_all<R: Wait + Drop + Send>(rt: &R, caller: &mut Caller<'_, R>) -> bool {
    let mut all = true;
    for i in 0..4 * EACH {
        let found = finds(rt, caller, i.to_be_bytes());
        all = all && found;
    }
    all
}

/// The keys of two threads were new.
fn are_new(rt: &impl Abort, new: (bool, bool)) {
    assert!(rt; new == (true, true));
}

/// The caller finds each key with its value.
fn has_all<R: Abort + Wait + Drop + Send>(rt: &R, caller: &mut Caller<'_, R>) {
    assert!(rt; finds_all(rt, caller));
}

/// Four threads put all keys, and each caller finds them then.
fn put_and_find<R: Threads + Abort + Wait + Sync + Drop + Send>(
    rt: &R,
    one: &mut Caller<'_, R>,
    two: &mut Caller<'_, R>,
    three: &mut Caller<'_, R>,
    four: &mut Caller<'_, R>,
) {
    let (low, high) = join_mut(
        rt,
        &mut || put_together(rt, one, two, 0),
        &mut || put_together(rt, three, four, 2),
    );
    are_new(rt, low);
    are_new(rt, high);
    has_all(rt, one);
    has_all(rt, two);
    has_all(rt, three);
    has_all(rt, four);
    assert_eq!(rt; one.count(rt, None, None), 1000);
}

/// The callers are those of one store.
fn split_and_put<R: Threads + Abort + Wait + Sync + Drop + Send + AllocGlobal>(
    rt: &R,
    store: &mut Store<R>,
) -> Result<(), Fail> {
    let mut one = store.caller(rt)?;
    let mut two = one.split(rt)?;
    let mut three = one.split(rt)?;
    let mut four = one.split(rt)?;
    put_and_find(rt, &mut one, &mut two, &mut three, &mut four);
    Ok(())
}

#[test]
fn four_threads_put_a_thousand_keys(rt: HostRuntime) -> Result<(), Fail> {
    let mut store = Store::create(&rt, &Shape::make(5, 16, 256, 1024, [2048, 0, 0, 0])?)?;
    let done = split_and_put(&rt, &mut store);
    done
}
