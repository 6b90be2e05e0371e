//! The place of each write in its key's history, which the text shows.
ghost use Rattle.std.specs.Prelude.{◌≡◌, ◌<◌, ◌++◌, [], map, length, IfOk, OnOk, option_copied};
ghost use Rattle.std.specs.Option.{option_map};
ghost use Rattle.oak_script.specs.Places.{key_of, stamp_of, stamp_of_wrote, written_upto};
ghost use Rattle.oak_script.specs.Stamps.{write_in, writes_along, writes_of, as_pair, place_among, AreInOrder, IsEndOf, next_place, places_along};
ghost use Rattle.oak_script.specs.Text.{RepliesAnswer};

use crate::scripts::{Call, Script};
use oak_model::{Key, OutOfMemory, Reply, Wrote};
use std::alloc::Global;

/// A write, by its key and its stamp.
#[derive(Clone, Copy, PartialEq, Eq, PartialOrd, Ord)]
pub struct Stamped<'a> {
    pub key: &'a [u8],
    pub stamp: u64,
}

/// The writes of a run in the order of their keys and stamps, so that a place is found by halving,
/// and the place of each.
#[derive(Drop)]
pub struct Stamps<'a> {
    writes: Vec<Stamped<'a>>,
    places: Vec<usize>,
    ghost in_order: { AreInOrder writes.items },
    ghost numbered: { places.items ≡ places_along [] 0 writes.items },
}

impl Call {
    /// The key that the call names.
    pub fn key(&self) -> Option<&Key>
        ensures { option_copied result ≡ key_of self.now }
    {
        match self {
            Call::Put { key, .. } => Some(key),
            Call::Get { key } => Some(key),
            Call::PutNew { key, .. } => Some(key),
            Call::Compute { key, .. } => Some(key),
            Call::Upsert { key, .. } => Some(key),
            Call::Remove { key } => Some(key),
            Call::Hold { key, .. } => Some(key),
            Call::Look { .. } => None,
            Call::Scan { .. } => None,
            Call::Back { .. } => None,
        }
    }
}

fn stamp_of_wrote(wrote: &Wrote) -> Option<u64>
    ensures { result ≡ stamp_of_wrote wrote.now }
{
    match wrote {
        Wrote::New { at } => Some(*at),
        Wrote::Over { at } => Some(*at),
        Wrote::Kept { .. } => None,
        Wrote::Done { at } => Some(*at),
        Wrote::Removed { at } => Some(*at),
        Wrote::Absent { .. } => None,
        Wrote::Full(_) => None,
    }
}

fn stamp_of(reply: &Reply) -> Option<u64>
    ensures { result ≡ stamp_of reply.now }
{
    match reply {
        Reply::Wrote(wrote) => stamp_of_wrote(wrote),
        Reply::Value { .. } => None,
        Reply::Held { .. } => None,
        Reply::Gone => None,
        Reply::Unheld => None,
        Reply::Pairs(_) => None,
    }
}

/// The write that a reply tells.
fn write_in<'a>(call: &'a Call, reply: &Reply) -> Option<Stamped<'a>>
    ensures { option_map as_pair result ≡ write_in call.now reply.now }
{
    let key = call.key()?;
    let stamp = stamp_of(reply)?;
    Some(Stamped {
        key: key.bytes(),
        stamp,
    })
}

fn add_writes<'a>(
    writes: &mut Vec<Stamped<'a>>,
    calls: &'a [Call],
    replies: &[Reply],
) -> Result<(), OutOfMemory>
    requires { length calls.now ≡ length replies.now }
    ensures { OnOk result (map as_pair writes.new.items ≡ map as_pair writes.old.items ++ writes_along calls.now replies.now) }
{
    for (i, call) in calls.iter().enumerate() {
        if let Some(write) = write_in(call, &replies[i]) {
            writes.push(write)?;
        }
    }
    Ok(())
}

/// The writes of all threads.
fn all_writes<'a>(
    alloc: Global,
    threads: &'a [Vec<Call>],
    replies: &[Vec<Reply>],
) -> Result<Vec<Stamped<'a>>, OutOfMemory>
    requires { RepliesAnswer (map (λ v. v.items) threads.now) (map (λ v. v.items) replies.now) }
    ensures { IfOk result (λ v. map as_pair v.items ≡ writes_of (map (λ v. v.items) threads.now) (map (λ v. v.items) replies.now)) }
{
    let mut writes = Vec::new(alloc);
    for (i, calls) in threads.iter().enumerate() {
        add_writes(&mut writes, calls.as_slice(), replies[i].as_slice())?;
    }
    Ok(writes)
}

/// The place of each write, by counting the writes of its key, where they stand in order.
fn places_along(alloc: Global, writes: &[Stamped]) -> Result<Vec<usize>, OutOfMemory>
    ensures { IfOk result (λ v. v.items ≡ places_along [] 0 writes.now) }
{
    let mut places = Vec::with_capacity(alloc, writes.len())?;
    let mut last: &[u8] = &[];
    let mut place = 0;
    for write in writes {
        place = next_place(last, place, write.key);
        last = write.key;
        places.push(place)?;
    }
    Ok(places)
}

fn next_place(last: &[u8], place: usize, key: &[u8]) -> usize
    requires { place < usize.MAX }
    ensures { result ≡ next_place last.now place key.now }
{
    if key == last { place + 1 } else { 1 }
}

impl<'a> Stamps<'a> {
    /// The writes that the replies to a script tell.
    pub fn of(
        alloc: Global,
        script: &'a Script,
        replies: &[Vec<Reply>],
    ) -> Result<Stamps<'a>, OutOfMemory>
        requires { RepliesAnswer script.now.threads (map (λ v. v.items) replies.now) }
        ensures { IfOk result (λ s. place_among s.writes.items ≡ written_upto script.now.threads (map (λ v. v.items) replies.now)) }
    {
        let mut writes = all_writes(alloc, script.threads.as_slice(), replies)?;
        writes.sort_unstable();
        let places = places_along(alloc, writes.as_slice())?;
        Ok(Stamps { writes, places })
    }

    /// How many writes of the key have a stamp of at most `at`.
    pub fn place(&self, key: &Key, at: u64) -> usize
        ensures { result ≡ place_among self.now.writes.items key.now at }
    {
        let end = self.end(key, at);
        if end == 0 {
            return 0;
        }
        let last = end - 1;
        if self.writes[last].key == key.bytes() {
            self.places[last]
        } else {
            0
        }
    }

    /// How many writes are of lower keys, or of the key with a stamp of at most `at`.
    fn end(&self, key: &Key, at: u64) -> usize
        ensures { IsEndOf key.now at self.now.writes.items result }
    {
        let key = key.bytes();
        let writes = self.writes.as_slice();
        writes.partition_point(|w| w.key.cmp(key).then(w.stamp.cmp(&at)).is_le())
    }
}
