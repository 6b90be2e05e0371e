//! Hints of an index of minima.
ghost use Rattle.oak_model.specs.Key.{IsKey};

use crate::found::{counts, is_so};
use chunk_index::{ChunkIndex, IndexReader, IndexWriter};
use oak_model::{Hint, OutOfMemory};
use std::process::Abort;
use std::sync::Wait;
use std::test::Fail;
use std::thread::{Threads, join};

/// The hint, which was asked for at this key or bound, names this room.
pub(crate) fn names(rt: &impl Abort, hint: Hint, at: &[u8], room: Option<u32>) {
    assert_eq!(rt; hint.room, room, "at {at:?}");
}

/// The hint of the key names this room, by the index, and by a copy that the reader makes of it.
fn hints(rt: &impl Abort, reader: &mut IndexReader, key: &[u8], room: Option<u32>) {
    names(rt, reader.hint_now(key), key, room);
    reader.forget();
    names(rt, reader.hint(key), key, room);
    names(rt, reader.hint(key), key, room);
}

/// The hint under the bound names this room.
fn hints_under(rt: &impl Abort, reader: &mut IndexReader, bound: Option<&[u8]>, room: Option<u32>) {
    names(rt, reader.hint_under(bound), bound.unwrap_or(b""), room);
}

/// The hint of each key names the room beside it.
fn hint_each(rt: &impl Abort, reader: &mut IndexReader, rows: &[(&[u8], Option<u32>)]) {
    for &(key, room) in rows {
        hints(rt, reader, key, room);
    }
}

/// Keys, and their rooms where `k` is the minimum of room 1, and `p` of room 2.
const HINTS_OF_TWO: [(&[u8], Option<u32>); 4] = [
    (b"j", None),
    (b"k", Some(1)),
    (b"ox", Some(1)),
    (b"p", Some(2)),
];

/// The hints before two minima are set and then.
fn two_minima<R: Abort + Wait + Drop + Send>(
    rt: &R,
    writer: &mut IndexWriter<R>,
    reader: &mut IndexReader,
) -> Result<(), OutOfMemory> {
    hints(rt, reader, b"k", None);
    writer.set(b"p", 2)?;
    writer.set(b"k", 1)?;
    hint_each(rt, reader, &HINTS_OF_TWO);
    hints_under(rt, reader, Some(b"k"), None);
    hints_under(rt, reader, Some(b"p"), Some(1));
    hints_under(rt, reader, None, Some(2));
    Ok(())
}

/// A reader of nothing hints nothing.
fn none_hints_nothing(rt: &impl Abort) {
    hints(rt, &mut IndexReader::none(), b"p", None);
}

#[test]
fn a_hint_is_the_room_of_the_greatest_minimum(rt: HostRuntime) -> Result<(), Fail> {
    let mut writer = IndexWriter::create(&rt, 4, 2)?;
    let mut reader = writer.reader();
    two_minima(&rt, &mut writer, &mut reader)?;
    none_hints_nothing(&rt);
    Ok(())
}

/// Keys, and their rooms where `a\0`, `abcdefgh` and `abcdefgh2` are the minima of rooms 3, 2 and 1.
const HINTS_OF_ONE_HEAD: [(&[u8], Option<u32>); 4] = [
    (b"a", None),
    (b"abc", Some(3)),
    (b"abcdefgh1", Some(2)),
    (b"abcdefgh2\0", Some(1)),
];

/// Sets three minima, of which two have the same eight bytes in front.
fn set_one_head<R: Wait + Drop + Send>(writer: &mut IndexWriter<R>) -> Result<(), OutOfMemory> {
    writer.set(b"abcdefgh2", 1)?;
    writer.set(b"abcdefgh", 2)?;
    writer.set(b"a\0", 3)
}

#[test]
fn minima_of_one_head_are_told_apart(rt: HostRuntime) -> Result<(), Fail> {
    let mut writer = IndexWriter::create(&rt, 4, 2)?;
    let mut reader = writer.reader();
    set_one_head(&mut writer)?;
    hint_each(&rt, &mut reader, &HINTS_OF_ONE_HEAD);
    Ok(())
}

/// Sets the minimum of room 2, and that of room 1 twice.
fn set_two_rooms<R: Wait + Drop + Send>(writer: &mut IndexWriter<R>) -> Result<(), OutOfMemory> {
    writer.set(b"c", 2)?;
    writer.set(b"m", 1)?;
    writer.set(b"b", 1)
}

/// Two rooms have a minimum, and the one is taken from its room by another.
fn pairs_taken_out<R: Abort + Wait + Drop + Send>(
    rt: &R,
    writer: &mut IndexWriter<R>,
    reader: &mut IndexReader,
) -> Result<(), OutOfMemory> {
    set_two_rooms(writer)?;
    hints(rt, reader, b"n", Some(2));
    writer.set(b"c", 3)?;
    hints(rt, reader, b"n", Some(3));
    hints_under(rt, reader, Some(b"c"), Some(1));
    Ok(())
}

#[test]
fn a_pair_takes_out_those_of_its_room_and_minimum(rt: HostRuntime) -> Result<(), Fail> {
    let mut writer = IndexWriter::create(&rt, 4, 2)?;
    let mut reader = writer.reader();
    pairs_taken_out(&rt, &mut writer, &mut reader)?;
    Ok(())
}

/// A new reader hints the key `m` at this room.
fn new_reader_hints<R: Abort + Wait + Drop + Send>(
    rt: &R,
    writer: &mut IndexWriter<R>,
    room: Option<u32>,
) {
    hints(rt, &mut writer.reader(), b"m", room);
}

/// While the one place is taken a second reader hints nothing, and a third does once it is free.
fn one_place<R: Abort + Wait + Drop + Send>(rt: &R, writer: &mut IndexWriter<R>) {
    let mut first = writer.reader();
    let mut second = writer.reader();
    hints(rt, &mut first, b"m", Some(1));
    hints(rt, &mut second, b"m", None);
    drop(first);
    new_reader_hints(rt, writer, Some(1));
}

#[test]
fn a_reader_without_a_place_hints_nothing(rt: HostRuntime) -> Result<(), Fail> {
    let mut writer = IndexWriter::create(&rt, 4, 1)?;
    writer.set(b"m", 1)?;
    one_place(&rt, &mut writer);
    Ok(())
}

/// Sets a pair, and once more where no memory was found, if the reader sees then what it saw.
fn set_at_last<R: Wait + Drop + Send>(
    writer: &mut IndexWriter<R>,
    reader: &mut IndexReader,
    low: &[u8],
    room: u32,
) -> bool
    requires { IsKey low.now }
{
    let seen = reader.hint_now(low).room;
    writer.set(low, room).is_ok()
        || (reader.hint_now(low).room == seen && writer.set(low, room).is_ok())
}

/// Sets a pair at the second try at the latest.
fn sets<R: Abort + Wait + Drop + Send>(
    rt: &R,
    writer: &mut IndexWriter<R>,
    reader: &mut IndexReader,
    low: &[u8],
    room: u32,
)
    requires { IsKey low.now }
{
    assert!(rt; set_at_last(writer, reader, low, room), "of {room}");
}

/// Sets the minima of five rooms.
fn set_five<R: Abort + Wait + Drop + Send>(
    rt: &R,
    writer: &mut IndexWriter<R>,
    reader: &mut IndexReader,
) {
    sets(rt, writer, reader, b"t", 1);
    sets(rt, writer, reader, b"k", 2);
    sets(rt, writer, reader, b"p", 3);
    sets(rt, writer, reader, b"m", 4);
    sets(rt, writer, reader, b"w", 5);
}

/// A reader hints by its copy of the index until it is told that this is an old one.
fn copy_of_one<R: Abort + Wait + Drop + Send>(
    rt: &R,
    writer: &mut IndexWriter<R>,
    reader: &mut IndexReader,
) -> Result<(), OutOfMemory> {
    writer.set(b"k", 1)?;
    hints(rt, reader, b"q", Some(1));
    writer.set(b"p", 2)?;
    names(rt, reader.hint(b"q"), b"q", Some(1));
    names(rt, reader.hint_now(b"q"), b"q", Some(2));
    names(rt, reader.hint(b"q"), b"q", Some(1));
    hints(rt, reader, b"q", Some(2));
    Ok(())
}

#[test]
fn a_reader_keeps_a_copy(rt: HostRuntime) -> Result<(), Fail> {
    let mut writer = IndexWriter::create(&rt, 4, 1)?;
    let mut reader = writer.reader();
    copy_of_one(&rt, &mut writer, &mut reader)?;
    Ok(())
}

/// There are more rooms than the index was made for, so its lists grow, by calls of `set` that may find no memory.
#[test]
fn want_of_memory_leaves_what_readers_see(rt: HostRuntime) -> Result<(), Fail> {
    let mut writer = IndexWriter::create(&rt, 1, 2)?;
    let mut reader = writer.reader();
    set_five(&rt, &mut writer, &mut reader);
    let mut other = writer.reader();
    hints(&rt, &mut other, b"q", Some(3));
    hints_under(&rt, &mut other, None, Some(5));
    Ok(())
}

/// Counts the hints that name no room, or one that the key was never in. Each second one is by a copy of the index that was
/// made for the one before.
fn count_wrong(mut reader: IndexReader) -> u32 {
    let mut wrong = 0u32;
    for i in 0..20_000 {
        if i % 2 == 0 {
            reader.forget();
        }
        let room = reader.hint(b"m").room;
        wrong = wrong.wrapping_add((room != Some(1) && room != Some(2)) as u32);
    }
    wrong
}

/// Moves a minimum to and fro, so that the key `m` is now in the one room and now in the other.
fn publish_again<R: Wait + Drop + Send>(rt: &R, index: &ChunkIndex<R>) -> bool {
    let mut fine = true;
    for _ in 0..2_000 {
        fine = fine && index.publish(rt, b"k", 2).is_ok() && index.publish(rt, b"m", 2).is_ok();
    }
    fine
}

/// Each hint that one thread asks for while another moves the minimum is right.
fn race<R: Abort + Threads + Wait + Drop + Send + Sync>(rt: &R, index: &ChunkIndex<R>) {
    let reader = index.reader(rt);
    let (fine, wrong) = join(rt, || publish_again(rt, index), move || count_wrong(reader));
    is_so(rt, "published", fine);
    counts(rt, "wrong hints", wrong as usize, 0);
}

#[test]
fn a_thread_asks_while_another_sets(rt: HostRuntime) -> Result<(), Fail> {
    let index = ChunkIndex::create(&rt, 4, 2)?;
    index.publish(&rt, b"l", 1)?;
    race(&rt, &index);
    hints(&rt, &mut index.reader(&rt), b"m", Some(2));
    Ok(())
}
