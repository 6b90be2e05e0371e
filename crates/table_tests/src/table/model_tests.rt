//! The model: classes, shapes, recipes, keys, and the answers of a cell.
ghost use Rattle.oak_model.specs.Cell.{HasArgument};
ghost use Rattle.oak_model.specs.Recipe.{IsArgument};

use crate::found::{bytes_are, counts};
use oak_model::{
    Answer, BadShape, CellCall, Class, Key, Lack, Name, OutOfMemory, RecipeKind, Shape, ShapeField,
    Value, Wrote, answer_call, apply_kind, class_of, cmp_keys, is_key, is_value,
};
use std::alloc::Global;
use std::cmp::Ordering;
use std::process::Abort;
use std::test::Fail;

/// Lengths, and the class of the blocks that they fit.
const CLASS_ROWS: [(usize, Option<Class>); 8] = [
    (0, Some(Class::B16)),
    (16, Some(Class::B16)),
    (17, Some(Class::B64)),
    (64, Some(Class::B64)),
    (65, Some(Class::B256)),
    (257, Some(Class::B1024)),
    (1_024, Some(Class::B1024)),
    (1_025, None),
];

/// The length fits into blocks of this class.
fn class_is(rt: &impl Abort, n: usize, class: Option<Class>) {
    assert_eq!(rt; class_of(n), class, "at {n}");
}

#[test]
fn classes_of_lengths(rt: HostRuntime) {
    for &(n, class) in &CLASS_ROWS {
        class_is(&rt, n, class);
    }
    counts(&rt, "bytes of a class", Class::B256.bytes(), 256);
}

/// The shape is refused for this value of the field.
pub(crate) fn is_refused(
    rt: &impl Abort,
    made: Result<Shape, BadShape>,
    field: ShapeField,
    value: u32,
) {
    assert!(rt; made == Err(BadShape { field, value }), "for {value}");
}

#[test]
fn shapes_within_limits(rt: HostRuntime) {
    let entries = Shape::make(2, 4, 3, 16, [2, 0, 0, 0]);
    is_refused(&rt, entries, ShapeField::Entries, 3);
    assert!(rt; Shape::make(2, 4, 4, 16, [2, 0, 0, 0]).is_ok());
    let first = Shape::make(65, 0, 0, 0, [0, 0, 0, 0]);
    is_refused(&rt, first, ShapeField::Passes, 65);
    let blocks = Shape::make(1, 1, 4, 1, [65_536, 65_536, 16_384, 4_097]);
    is_refused(&rt, blocks, ShapeField::Blocks(Class::B1024), 4_097);
}

/// The shape is made, and is this one.
fn is_made(rt: &impl Abort, made: Result<Shape, BadShape>, due: Shape) {
    let headers = due.headers;
    assert!(rt; made == Ok(due), "for {headers}");
}

/// Shapes of few keys and of many.
fn shapes_of_counts(rt: &impl Abort) -> Result<(), Fail> {
    let one_chunk = Shape::make(1, 1, 64, 64, [128, 0, 0, 0])?;
    is_made(rt, Shape::for_keys(64, 8, 16, 1), one_chunk);
    let five_chunks = Shape::make(2, 5, 64, 65, [130, 130, 65, 0])?;
    is_made(rt, Shape::for_keys(65, 64, 100, 2), five_chunks);
    let greater_chunks = Shape::make(4, 256, 256, 16_385, [32_770, 16_385, 0, 0])?;
    is_made(rt, Shape::for_keys(16_385, 8, 64, 4), greater_chunks);
    Ok(())
}

#[test]
fn shapes_for_keys(rt: HostRuntime) -> Result<(), Fail> {
    shapes_of_counts(&rt)?;
    let blocks = Shape::for_keys(16_385, 8, 100, 4);
    is_refused(&rt, blocks, ShapeField::Blocks(Class::B256), 16_385);
    for count in [0, 65_537] {
        let headers = Shape::for_keys(count, 8, 8, 1);
        is_refused(&rt, headers, ShapeField::Headers, count);
    }
    let standard = Shape::make(3, 256, 64, 8_192, [16_384, 4_096, 1_024, 512])?;
    assert!(rt; Shape::standard(3) == standard);
    Ok(())
}

/// Answers, and how they are printed.
const PRINTED: [(Wrote, &str); 9] = [
    (Wrote::New { at: 1 }, "put as new at 1"),
    (Wrote::Over { at: 2 }, "put over another value at 2"),
    (Wrote::Kept { at: 2 }, "kept as it was at 2"),
    (Wrote::Done { at: 3 }, "computed at 3"),
    (Wrote::Removed { at: 4 }, "removed at 4"),
    (Wrote::Absent { at: 4 }, "absent at 4"),
    (
        Wrote::Full(Lack::Block(Class::B64)),
        "refused: no block of 64 bytes is free",
    ),
    (Wrote::Full(Lack::Header), "refused: no header is free"),
    (Wrote::Full(Lack::Room), "refused: no chunk is free"),
];

/// The answer is printed as this text.
fn is_printed(rt: &impl Abort, alloc: Global, answer: Wrote, text: &str) -> Result<(), Fail> {
    let printed = format!(in alloc; "{answer}")?;
    assert!(rt; printed.as_str() == text, "{text}");
    Ok(())
}

#[test]
fn answers_for_people(rt: HostRuntime) -> Result<(), Fail> {
    for &(answer, text) in &PRINTED {
        is_printed(&rt, rt.alloc(), answer, text)?;
    }
    Ok(())
}

/// The recipe makes these bytes of those.
fn becomes(rt: &impl Abort, kind: RecipeKind, argument: u64, bytes: &mut [u8], due: &[u8])
    requires { IsArgument kind argument }
{
    apply_kind(kind, argument, bytes);
    assert!(rt; *bytes == *due, "{due:?}");
}

#[test]
fn recipes_in_place(rt: HostRuntime) {
    becomes(&rt, RecipeKind::Add, 1, &mut [255; 8], &[0; 8]);
    becomes(&rt, RecipeKind::Add, 1, &mut [1, 2, 3], &[1, 2, 3]);
    let mut bytes = [1, 2, 255];
    becomes(&rt, RecipeKind::Xor, 15, &mut bytes, &[14, 13, 240]);
    becomes(&rt, RecipeKind::Rev, 0, &mut bytes, &[240, 13, 14]);
}

/// A key has the bytes that it was made of.
fn key_of_k(rt: &impl Abort, alloc: Global) -> Result<(), OutOfMemory> {
    bytes_are(rt, "key", Key::make(alloc, b"k")?.bytes(), b"k");
    Ok(())
}

/// So has a value.
fn value_of_k(rt: &impl Abort, alloc: Global) -> Result<(), OutOfMemory> {
    bytes_are(rt, "value", Value::make(alloc, b"k")?.bytes(), b"k");
    Ok(())
}

/// So has a name.
fn name_of_k(rt: &impl Abort, alloc: Global) -> Result<(), OutOfMemory> {
    bytes_are(rt, "name", Name::make(alloc, b"k")?.bytes(), b"k");
    Ok(())
}

/// Keys have 1 to 64 bytes.
fn lengths_of_keys(rt: &impl Abort) {
    assert!(rt; is_key(b"k") && !is_key(b"") && is_key(&[97; 64]) && !is_key(&[97; 65]));
}

/// Values have at most 1,024.
fn lengths_of_values(rt: &impl Abort) {
    assert!(rt; is_value(b"") && is_value(&[98; 1_024]) && !is_value(&[98; 1_025]));
}

/// The keys are in this order.
fn is_order(rt: &impl Abort, a: &[u8], b: &[u8], due: Ordering) {
    assert!(rt; cmp_keys(a, b) == due);
}

/// Keys are in the order of their bytes, and bytes have no sign.
fn order_of_keys(rt: &impl Abort) {
    is_order(rt, b"a", b"ab", Ordering::Less);
    is_order(rt, &[0xff], &[0x7f, 0x00], Ordering::Greater);
}

#[test]
fn bytes_with_a_name(rt: HostRuntime) -> Result<(), Fail> {
    key_of_k(&rt, rt.alloc())?;
    value_of_k(&rt, rt.alloc())?;
    name_of_k(&rt, rt.alloc())?;
    lengths_of_keys(&rt);
    lengths_of_values(&rt);
    order_of_keys(&rt);
    Ok(())
}

/// The call on a cell with this value writes, as the first one or not, and leaves the value of the result.
fn writes(
    rt: &impl Abort,
    alloc: Global,
    state: Option<&Value>,
    call: &CellCall,
    new: bool,
) -> Result<Value, Fail>
    requires { HasArgument call.now }
{
    let Answer { reply, after } = answer_call(alloc, state, call)?;
    assert!(rt; reply.is_new() == new && reply.is_write(), "new: {new}");
    let Some(value) = after else {
        panic!(rt; "absent, new: {new}");
    };
    Ok(value)
}

/// The call writes to an empty cell, and to what it left there: 7 then.
fn writes_twice(rt: &impl Abort, alloc: Global, call: &CellCall) -> Result<(), Fail>
    requires { HasArgument call.now }
{
    let first = writes(rt, alloc, None, call, true)?;
    let second = writes(rt, alloc, Some(&first), call, false)?;
    bytes_are(rt, "value", second.bytes(), &[0, 0, 0, 0, 0, 0, 0, 7]);
    Ok(())
}

#[test]
fn a_cell_answers(rt: HostRuntime) -> Result<(), Fail> {
    let call = CellCall::Upsert {
        value: Value::make(rt.alloc(), &[0, 0, 0, 0, 0, 0, 0, 5])?,
        recipe: RecipeKind::Add,
        argument: 2,
    };
    writes_twice(&rt, rt.alloc(), &call)
}
