//! The calls of a caller, each on a map of its own.
use oak_caller::{
    Caller, Copied, InBytes, Number, OakMap, Recipe, RecipeKind, Shape, StepRecipe, Store, Way,
    Wrote,
};
use std::fmt::Debug;
use std::process::Abort;
use std::sync::Wait;
use std::test::Fail;

/// What a call told is what is due.
fn is_due<T: Debug + PartialEq + Drop>(rt: &impl Abort, told: T, due: T) {
    assert_eq!(rt; told, due);
}

/// A store for so many passes, with so many chunks, entries in each, headers, and blocks of 16.
fn make<R: Wait + Clone + Drop + Send + AllocGlobal>(
    rt: &R,
    passes: u32,
    chunks: u32,
    entries: u32,
    headers: u32,
    blocks: u32,
) -> Result<Store<R>, Fail> {
    let shape = Shape::make(passes, chunks, entries, headers, [blocks, 0, 0, 0])?;
    Ok(Store::create(rt, &shape)?)
}

/// Copies the value of a key to a place of six bytes.
fn copies_whole<R: Abort + Wait + Drop + Send>(rt: &R, caller: &mut Caller<'_, R>) {
    let mut out = [7; 6];
    let copied = caller.get_into(rt, b"k", &mut out);
    is_due(rt, copied, Copied::Whole { len: 5, at: 1 });
    is_due(rt, out, *b"three\x07");
}

/// Copies nothing to a place of four.
fn copies_nothing<R: Abort + Wait + Drop + Send>(rt: &R, caller: &mut Caller<'_, R>) {
    let mut short = [7; 4];
    let copied = caller.get_into(rt, b"k", &mut short);
    is_due(rt, copied, Copied::TooLong { len: 5, at: 1 });
    is_due(rt, short, [7; 4]);
}

/// Reads the value where it lies.
fn reads<R: Abort + Wait + Drop + Send>(rt: &R, caller: &mut Caller<'_, R>) {
    is_due(rt, caller.contains(rt, b"k"), true);
    is_due(rt, caller.read(rt, b"k", |bytes| bytes.len()), Some(5));
}

/// Puts, reads and removes a key.
fn goes_through_a_life<R: Abort + Wait + Drop + Send + AllocGlobal>(
    rt: &R,
    store: &mut Store<R>,
) -> Result<(), Fail> {
    let mut caller = store.caller(rt)?;
    is_due(rt, caller.put(rt, b"k", b"three"), Ok(Wrote::New { at: 1 }));
    is_due(
        rt,
        caller.put_if_absent(rt, b"k", b"four"),
        Ok(Wrote::Kept { at: 1 }),
    );
    copies_whole(rt, &mut caller);
    copies_nothing(rt, &mut caller);
    reads(rt, &mut caller);
    is_due(rt, caller.remove(rt, b"k"), Ok(Wrote::Removed { at: 2 }));
    is_due(rt, caller.contains(rt, b"k"), false);
    is_due(rt, caller.last_call(), 3);
    Ok(())
}

#[test]
fn a_life(rt: HostRuntime) -> Result<(), Fail> {
    let mut store = make(&rt, 2, 4, 4, 16, 16)?;
    let done = goes_through_a_life(&rt, &mut store);
    done
}

/// The last byte of a value.
fn last_byte(bytes: &[u8]) -> Option<u8> {
    bytes.last().copied()
}

/// Looks at a number by a view while it is added to, and until it is removed.
fn looks_on<R: Abort + Wait + Drop + Send + AllocGlobal>(
    rt: &R,
    caller: &mut Caller<'_, R>,
) -> Result<(), Fail> {
    let Some(view) = caller.view(rt, b"n") else {
        assert!(rt; false);
        return Ok(());
    };
    is_due(rt, caller.add(rt, b"n", 5)?, Wrote::Done { at: 2 });
    is_due(
        rt,
        caller.get_u64(rt, b"n"),
        Number::Eight { number: 14, at: 2 },
    );
    is_due(rt, caller.look(rt, &view, last_byte), Some(Some(14)));
    is_due(rt, caller.remove(rt, b"n")?, Wrote::Removed { at: 3 });
    is_due(rt, caller.look(rt, &view, last_byte), None);
    Ok(())
}

/// Adds to a number, and looks at it by a view until it is removed.
fn adds_up<R: Abort + Wait + Drop + Send + AllocGlobal>(
    rt: &R,
    store: &mut Store<R>,
) -> Result<(), Fail> {
    let mut caller = store.caller(rt)?;
    is_due(rt, caller.get_u64(rt, b"n"), Number::Absent { at: 0 });
    is_due(rt, caller.add(rt, b"n", 9), Ok(Wrote::New { at: 1 }));
    looks_on(rt, &mut caller)
}

#[test]
fn a_sum(rt: HostRuntime) -> Result<(), Fail> {
    let mut store = make(&rt, 2, 4, 4, 16, 16)?;
    let done = adds_up(&rt, &mut store);
    done
}

/// Turns the bytes of a value round, and puts one with the recipe where there is none.
fn turns_round<R: Abort + Wait + Drop + Send>(
    rt: &R,
    caller: &mut Caller<'_, R>,
    turns: &mut Box<dyn Recipe + Send>,
) {
    is_due(
        rt,
        caller.compute(rt, b"k", turns),
        Ok(Wrote::Absent { at: 0 }),
    );
    is_due(
        rt,
        caller.upsert(rt, b"k", b"abc", turns),
        Ok(Wrote::New { at: 1 }),
    );
    is_due(
        rt,
        caller.compute(rt, b"k", turns),
        Ok(Wrote::Done { at: 2 }),
    );
}

/// The value is turned round.
fn is_round<R: Abort + Wait + Drop + Send>(rt: &R, caller: &mut Caller<'_, R>) {
    let mut out = [0; 3];
    let copied = caller.get_into(rt, b"k", &mut out);
    is_due(rt, copied, Copied::Whole { len: 3, at: 2 });
    is_due(rt, out, *b"cba");
}

/// Turns the bytes of a value round with a recipe, which tells how often it was called.
fn applies<R: Abort + Wait + Drop + Send + AllocGlobal>(
    rt: &R,
    store: &mut Store<R>,
) -> Result<(), Fail> {
    let mut caller = store.caller(rt)?;
    let mut turns: Box<dyn Recipe + Send> = Box::new(rt.alloc(), StepRecipe::make())?;
    turns.tell(RecipeKind::Rev, 0);
    turns_round(rt, &mut caller, &mut turns);
    is_round(rt, &mut caller);
    is_due(rt, turns.calls(), 1);
    Ok(())
}

#[test]
fn a_recipe(rt: HostRuntime) -> Result<(), Fail> {
    let mut store = make(&rt, 2, 4, 4, 16, 16)?;
    let done = applies(&rt, &mut store);
    done
}

/// Puts two keys by one caller, and a third by another.
fn puts_three<R: Abort + Wait + Drop + Send>(
    rt: &R,
    caller: &mut Caller<'_, R>,
    other: &mut Caller<'_, R>,
) {
    for key in [b"a", b"b"] {
        is_due(rt, caller.put(rt, key, key), Ok(Wrote::New { at: 1 }));
    }
    is_due(rt, other.put(rt, b"c", b"cc"), Ok(Wrote::New { at: 1 }));
}

/// Scans the keys from one on, to the end.
fn goes_up<R: Abort + Wait + Drop + Send>(rt: &R, caller: &mut Caller<'_, R>) {
    let mut seen = 0usize;
    let ended = caller.for_each(rt, Some(b"b"), None, Way::Up, |key, value| {
        seen = seen.wrapping_add(key.len());
        seen = seen.wrapping_add(value.len());
        true
    });
    is_due(rt, ended, true);
    is_due(rt, seen, 5);
}

/// Scans them down, until the closure stops the scan.
fn goes_down<R: Abort + Wait + Drop + Send>(rt: &R, caller: &mut Caller<'_, R>) {
    assert!(rt; !caller.for_each(rt, None, None, Way::Down, |_key, value| value.len() == 2));
}

/// How many bytes a scan shows of all values, of each no more than so many.
fn bytes_shown<R: Abort + Wait + Drop + Send>(
    rt: &R,
    caller: &mut Caller<'_, R>,
    most: usize,
) -> usize {
    let mut shown = 0usize;
    caller.for_each_prefix(rt, None, None, Way::Up, most, |_key, value| {
        shown = shown.wrapping_add(value.len());
        true
    });
    shown
}

/// Scans them, and is shown none, one or all bytes of each value.
fn shows_prefixes<R: Abort + Wait + Drop + Send>(rt: &R, caller: &mut Caller<'_, R>) {
    is_due(rt, bytes_shown(rt, caller, 0), 0);
    is_due(rt, bytes_shown(rt, caller, 1), 3);
    is_due(rt, bytes_shown(rt, caller, usize::MAX), 4);
}

/// Counts those below one, and finds the first and the last.
fn finds_ends<R: Abort + Wait + Drop + Send>(rt: &R, caller: &mut Caller<'_, R>) {
    is_due(rt, caller.count(rt, None, Some(b"b")), 2);
    let first = caller.first(rt, |key, _value| key.first().copied());
    is_due(rt, first, Some(Some(b'a')));
    is_due(rt, caller.last(rt, |_key, value| value.len()), Some(2));
}

/// Puts three keys by two callers, and scans them by the first.
fn goes_over<R: Abort + Wait + Drop + Send + AllocGlobal>(
    rt: &R,
    store: &mut Store<R>,
) -> Result<(), Fail> {
    let mut caller = store.caller(rt)?;
    is_due(rt, caller.is_empty(rt), true);
    let mut other = caller.split(rt)?;
    puts_three(rt, &mut caller, &mut other);
    goes_up(rt, &mut caller);
    goes_down(rt, &mut caller);
    shows_prefixes(rt, &mut caller);
    finds_ends(rt, &mut caller);
    Ok(())
}

#[test]
fn a_scan(rt: HostRuntime) -> Result<(), Fail> {
    let mut store = make(&rt, 3, 4, 4, 16, 16)?;
    let done = goes_over(&rt, &mut store);
    done
}

/// Puts two hundred keys.
fn puts_many<R: Abort + Wait + Drop + Send>(rt: &R, caller: &mut Caller<'_, R>) {
    for i in 0..200u8 {
        is_due(rt, caller.put(rt, &[i, 7], b"v"), Ok(Wrote::New { at: 1 }));
    }
}

/// Clears the keys of a range, and leaves those beside it.
fn clears_some<R: Abort + Wait + Drop + Send + AllocGlobal>(rt: &R, caller: &mut Caller<'_, R>) {
    is_due(rt, caller.clear(rt, Some(&[10]), Some(&[179, 7])), Ok(170));
    is_due(rt, caller.count(rt, None, None), 30);
    is_due(rt, caller.contains(rt, &[9, 7]), true);
    is_due(rt, caller.contains(rt, &[10, 7]), false);
    is_due(rt, caller.contains(rt, &[179, 7]), false);
    is_due(rt, caller.contains(rt, &[180, 7]), true);
}

/// Clears the others, behind which there is none to clear.
fn clears_all<R: Abort + Wait + Drop + Send + AllocGlobal>(rt: &R, caller: &mut Caller<'_, R>) {
    is_due(rt, caller.clear(rt, None, None), Ok(30));
    is_due(rt, caller.is_empty(rt), true);
    is_due(rt, caller.clear(rt, None, None), Ok(0));
    is_due(rt, caller.last_call(), 400);
}

/// Puts two hundred keys, removes those of a range, and then the others.
fn clears<R: Abort + Wait + Drop + Send + AllocGlobal>(
    rt: &R,
    store: &mut Store<R>,
) -> Result<(), Fail> {
    let mut caller = store.caller(rt)?;
    puts_many(rt, &mut caller);
    clears_some(rt, &mut caller);
    clears_all(rt, &mut caller);
    Ok(())
}

#[test]
fn a_clearing(rt: HostRuntime) -> Result<(), Fail> {
    let mut store = make(&rt, 2, 64, 16, 256, 512)?;
    let done = clears(&rt, &mut store);
    done
}

/// Shows a caller behind its first put.
fn shows<R: Abort + Wait + Drop + Send + AllocGlobal>(
    rt: &R,
    store: &mut Store<R>,
) -> Result<(), Fail> {
    let mut caller = store.caller(rt)?;
    is_due(rt, caller.put(rt, b"k", b"v"), Ok(Wrote::New { at: 1 }));
    let shown = format!(in rt.alloc(); "{caller:?}")?;
    is_due(rt, shown.as_str(), "Caller { last_call: 1, .. }");
    Ok(())
}

/// Shows a map and its first pass.
fn shows_a_map<R: Abort + Wait + Clone + Drop + Send + AllocGlobal>(rt: &R) -> Result<(), Fail> {
    let (map, pass) = OakMap::create(rt, &Shape::make(2, 4, 4, 16, [16, 0, 0, 0])?)?;
    let shown = format!(in rt.alloc(); "{map:?} {pass:?}");
    pass.leave();
    is_due(rt, shown?.as_str(), "OakMap { .. } MapPass { .. }");
    Ok(())
}

#[test]
fn what_is_shown(rt: HostRuntime) -> Result<(), Fail> {
    let mut store = make(&rt, 2, 4, 4, 16, 16)?;
    let shown = format!(in rt.alloc(); "{store:?}")?;
    is_due(&rt, shown.as_str(), "Store { .. }");
    shows_a_map(&rt)?;
    let done = shows(&rt, &mut store);
    done
}

#[test]
fn the_bytes_of_a_shape(rt: HostRuntime) -> Result<(), Fail> {
    let shape = Shape::make(2, 4, 4, 16, [16, 0, 0, 0])?;
    assert_eq!(rt; shape.bytes(), 8 * (1 + 1 + 32 + 48 + 4 * 35));
    Ok(())
}
