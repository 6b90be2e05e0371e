//! The map as a library: two threads put rows, one row is changed and looked at, and a range of rows is added up.
#![tactic(auto)]

use oak_caller::{Caller, Recipe, RecipeKind, Shape, StepRecipe, Store, Way, Wrote};
use std::sync::Wait;
use std::thread::join_mut;

/// Puts what a shop sold in three hours: whether each row was new.
fn put_rows<R: Wait + Drop + Send>(rt: &R, caller: &mut Caller<'_, R>, shop: u8) -> bool {
    let mut new = true;
    for hour in 8..11u8 {
        let said = caller.put(rt, &[shop, hour], &[0, 0, 0, 0, 0, 0, 0, hour]);
        new = new && matches!(said, Ok(Wrote::New { at: _ }));
    }
    new
}

/// The number that a value's eight bytes are.
fn number_in(value: &[u8]) -> u64 {
    match value {
        [a, b, c, d, e, f, g, h] => u64::from_be_bytes([*a, *b, *c, *d, *e, *f, *g, *h]),
        _ => 0,
    }
}

fn main(rt: HostRuntime) -> anyhow::Result<()> {
    let mut store = Store::create(&rt, &Shape::make(3, 16, 64, 1024, [2048, 0, 0, 0])?)?;
    let mut one = store.caller(&rt)?;
    let mut two = one.split(&rt)?;
    let (north, south) = join_mut(
        &rt,
        &mut || put_rows(&rt, &mut one, b'n'),
        &mut || put_rows(&rt, &mut two, b's'),
    );
    println!(rt; "all rows new: {}", north && south)?;

    let mut recipe: Box<dyn Recipe + Send> = Box::new(rt.alloc(), StepRecipe::make())?;
    recipe.tell(RecipeKind::Add, 4);
    if let Some(view) = one.view(&rt, &[b'n', 9]) {
        one.compute(&rt, &[b'n', 9], &mut recipe)?;
        let sold = one.look(&rt, &view, number_in);
        println!(rt; "north sold {sold:?} at nine")?;
    }

    let mut sum = 0;
    one.for_each(&rt, Some(b"n"), Some(b"o"), Way::Up, |_row, sold| {
        sum = number_in(sold).wrapping_add(sum);
        true
    });
    println!(rt; "north sold {sum} in three hours")?;
    Ok(())
}
