//! Tests of the text of a run.
ghost use Rattle.std.specs.Prelude.{◌≡◌, IfOk, OnOk, map};
ghost use Rattle.oak_model.specs.Key.{IsKey};
ghost use Rattle.oak_model.specs.Name.{IsName};
ghost use Rattle.oak_model.specs.Value.{IsValue};
ghost use Rattle.oak_script.specs.Text.{CanReply, CallsAnswered, RepliesAnswer};

use oak_model::{
    Class, Key, Lack, Name, OutOfMemory, Pair, Pairs, RecipeKind, Reply, Shape, Usage, Value, Wrote,
};
use oak_script::{Call, Script, Threads, print_run};
use std::alloc::Global;
use std::process::Abort;
use std::test::Fail;

/// The calls of a thread, and the replies to them.
#[derive(Drop)]
struct Thread {
    calls: Vec<Call>,
    replies: Vec<Reply>,
}

impl Thread {
    fn new(alloc: Global) -> Thread
        ensures { CallsAnswered result.calls.items result.replies.items }
    {
        Thread {
            calls: Vec::new(alloc),
            replies: Vec::new(alloc),
        }
    }

    fn add(&mut self, call: Call, reply: Reply) -> Result<(), OutOfMemory>
        requires answered { CallsAnswered self.old.calls.items self.old.replies.items }
        requires one { CanReply call reply }
        ensures { OnOk result (CallsAnswered self.new.calls.items self.new.replies.items) }
    {
        self.calls.push(call)?;
        self.replies.push(reply)?;
        Ok(())
    }

    /// Adds a put, answered so.
    fn puts(
        &mut self,
        alloc: Global,
        key: &[u8],
        value: &[u8],
        wrote: Wrote,
    ) -> Result<(), OutOfMemory>
        requires answered { CallsAnswered self.old.calls.items self.old.replies.items }
        requires key { IsKey key.now }
        requires value { IsValue value.now }
        requires one { CanReply (Call.Put key.now value.now) (Reply.Wrote wrote) }
        ensures { OnOk result (CallsAnswered self.new.calls.items self.new.replies.items) }
    {
        let key = Key::make(alloc, key)?;
        let value = Value::make(alloc, value)?;
        self.add(Call::Put { key, value }, Reply::Wrote(wrote))
    }

    /// Adds a get that finds the value, of this stamp.
    fn gets(&mut self, alloc: Global, key: &[u8], value: &[u8], at: u64) -> Result<(), OutOfMemory>
        requires answered { CallsAnswered self.old.calls.items self.old.replies.items }
        requires key { IsKey key.now }
        requires value { IsValue value.now }
        ensures { OnOk result (CallsAnswered self.new.calls.items self.new.replies.items) }
    {
        let reply = shown(alloc, key, value, at)?;
        let key = Key::make(alloc, key)?;
        self.add(Call::Get { key }, reply)
    }

    /// Adds a removal, with this stamp.
    fn removes(&mut self, alloc: Global, key: &[u8], at: u64) -> Result<(), OutOfMemory>
        requires answered { CallsAnswered self.old.calls.items self.old.replies.items }
        requires key { IsKey key.now }
        ensures { OnOk result (CallsAnswered self.new.calls.items self.new.replies.items) }
    {
        let call = Call::Remove {
            key: Key::make(alloc, key)?,
        };
        self.add(call, Reply::Wrote(Wrote::Removed { at }))
    }

    /// Adds a look at the value of a name, answered so.
    fn looks(&mut self, alloc: Global, name: &[u8], reply: Reply) -> Result<(), OutOfMemory>
        requires answered { CallsAnswered self.old.calls.items self.old.replies.items }
        requires name { IsName name.now }
        requires one { CanReply (Call.Look name.now) reply }
        ensures { OnOk result (CallsAnswered self.new.calls.items self.new.replies.items) }
    {
        let name = Name::make(alloc, name)?;
        self.add(Call::Look { name }, reply)
    }
}

fn shown(alloc: Global, key: &[u8], value: &[u8], at: u64) -> Result<Reply, OutOfMemory>
    requires key { IsKey key.now }
    requires value { IsValue value.now }
    ensures { IfOk result (λ r. r ≡ Reply.Value key.now value.now at) }
{
    Ok(Reply::Value {
        key: Key::make(alloc, key)?,
        value: Value::make(alloc, value)?,
        at,
    })
}

fn pair(alloc: Global, key: &[u8], value: &[u8], at: u64) -> Result<Pair, OutOfMemory>
    requires key { IsKey key.now }
    requires value { IsValue value.now }
{
    Ok(Pair {
        key: Key::make(alloc, key)?,
        value: Value::make(alloc, value)?,
        at,
    })
}

/// Two pairs.
fn pairs(alloc: Global, first: Pair, second: Pair) -> Result<Vec<Pair>, OutOfMemory> {
    let mut pairs = Vec::new(alloc);
    pairs.push(first)?;
    pairs.push(second)?;
    Ok(pairs)
}

/// The text of the run is this.
fn expect_text(
    rt: &impl Abort,
    alloc: Global,
    script: &Script,
    replies: &[Vec<Reply>],
    finals: &[Pair],
    usage: &Usage,
    says: &str,
) -> Result<(), Fail>
    requires { RepliesAnswer script.now.threads (map (λ v. v.items) replies.now) }
{
    let text = print_run(alloc, script, replies, finals, usage)?;
    assert_eq!(rt; text.as_slice(), says.as_bytes());
    Ok(())
}

/// A script of one thread, and the replies to it.
fn one_thread(
    alloc: Global,
    shape: Shape,
    thread: Thread,
) -> Result<(Script, Vec<Vec<Reply>>), Fail>
    requires { CallsAnswered thread.calls.items thread.replies.items }
    ensures { IfOk result (λ t. RepliesAnswer t.0.threads (map (λ v. v.items) t.1.items)) }
{
    let Thread { calls, replies } = thread;
    let threads = Threads::of(vec![in alloc; calls]?);
    let replies = vec![in alloc; replies]?;
    Ok((Script { shape, threads }, replies))
}

/// So it is of a run of one thread, with this pair at its end, on a table of which two blocks are used.
fn expect_text_of_one(
    rt: &impl Abort,
    alloc: Global,
    shape: Shape,
    thread: Thread,
    last: Pair,
    says: &str,
) -> Result<(), Fail>
    requires { CallsAnswered thread.calls.items thread.replies.items }
{
    let finals = vec![in alloc; last]?;
    let (script, replies) = one_thread(alloc, shape, thread)?;
    let usage = Usage {
        blocks: [2, 0, 0, 0],
        headers: 1,
        chunks: 1,
    };
    expect_text(rt, alloc, &script, &replies, &finals, &usage, says)
}

const SHORT_TEXT: &str = "\
t1.1 new @1
t1.2 = 7631 @1
map 1
6b31 7631
arena
b16 2 16384
b64 0 4096
b256 0 1024
b1024 0 512
headers 1 8192
chunks 1 256
";

/// A put, and a get that finds it.
fn short_thread(alloc: Global) -> Result<Thread, OutOfMemory>
    ensures { IfOk result (λ t. CallsAnswered t.calls.items t.replies.items) }
{
    let mut thread = Thread::new(alloc);
    thread.puts(alloc, b"k1", b"v1", Wrote::New { at: 1 })?;
    thread.gets(alloc, b"k1", b"v1", 1)?;
    Ok(thread)
}

#[test]
fn prints_a_put_and_a_get(rt: HostRuntime) -> Result<(), Fail> {
    let alloc = rt.alloc();
    let shape = Shape::make(2, 256, 64, 8_192, [16_384, 4_096, 1_024, 512])?;
    let last = pair(alloc, b"k1", b"v1", 1)?;
    let thread = short_thread(alloc)?;
    expect_text_of_one(&rt, alloc, shape, thread, last, SHORT_TEXT)
}

/// A table of two blocks of 16 bytes: the second put lacks one, until the first key is removed.
fn small_thread(alloc: Global) -> Result<Thread, OutOfMemory>
    ensures { IfOk result (λ t. CallsAnswered t.calls.items t.replies.items) }
{
    let mut thread = Thread::new(alloc);
    thread.puts(alloc, &[0x61], &[1], Wrote::New { at: 1 })?;
    thread.puts(alloc, &[0x62], &[2], Wrote::Full(Lack::Block(Class::B16)))?;
    thread.gets(alloc, &[0x61], &[1], 1)?;
    thread.removes(alloc, &[0x61], 2)?;
    thread.puts(alloc, &[0x62], &[2], Wrote::New { at: 3 })?;
    Ok(thread)
}

const SMALL_TEXT: &str = "\
t1.1 new @1
t1.2 full b16
t1.3 = 01 @1
t1.4 removed @2
t1.5 new @1
map 1
62 02
arena
b16 2 2
b64 0 0
b256 0 0
b1024 0 0
headers 1 16
chunks 1 4
";

#[test]
fn prints_a_refused_put(rt: HostRuntime) -> Result<(), Fail> {
    let alloc = rt.alloc();
    let shape = Shape::make(2, 4, 4, 16, [2, 0, 0, 0])?;
    let last = pair(alloc, &[0x62], &[2], 3)?;
    let thread = small_thread(alloc)?;
    expect_text_of_one(&rt, alloc, shape, thread, last, SMALL_TEXT)
}

/// Adds a put of `a` that finds it, and a hold of it.
fn keeps_and_holds(alloc: Global, thread: &mut Thread) -> Result<(), OutOfMemory>
    requires { CallsAnswered thread.old.calls.items thread.old.replies.items }
    ensures { OnOk result (CallsAnswered thread.new.calls.items thread.new.replies.items) }
{
    let key = Key::make(alloc, b"a")?;
    let value = Value::make(alloc, b"1")?;
    thread.add(
        Call::PutNew { key, value },
        Reply::Wrote(Wrote::Kept { at: 4 }),
    )?;
    let name = Name::make(alloc, b"h")?;
    let key = Key::make(alloc, b"a")?;
    thread.add(Call::Hold { name, key }, Reply::Held { at: 5 })
}

/// Adds a look that finds what was held, and a removal.
fn looks_and_removes(alloc: Global, thread: &mut Thread) -> Result<(), OutOfMemory>
    requires { CallsAnswered thread.old.calls.items thread.old.replies.items }
    ensures { OnOk result (CallsAnswered thread.new.calls.items thread.new.replies.items) }
{
    let reply = shown(alloc, b"a", &[3], 7)?;
    thread.looks(alloc, b"h", reply)?;
    thread.removes(alloc, b"a", 9)
}

/// Adds looks at what was held, and at what was not.
fn looks_at_both(alloc: Global, thread: &mut Thread) -> Result<(), OutOfMemory>
    requires { CallsAnswered thread.old.calls.items thread.old.replies.items }
    ensures { OnOk result (CallsAnswered thread.new.calls.items thread.new.replies.items) }
{
    thread.looks(alloc, b"h", Reply::Gone)?;
    thread.looks(alloc, b"i", Reply::Unheld)?;
    let call = Call::Get {
        key: Key::make(alloc, b"a")?,
    };
    thread.add(call, Reply::Wrote(Wrote::Absent { at: 9 }))
}

/// The writes of the key `a` with the stamps 2 and 9, and what stands between them and behind them.
fn first_thread(alloc: Global) -> Result<Thread, OutOfMemory>
    ensures { IfOk result (λ t. CallsAnswered t.calls.items t.replies.items) }
{
    let mut thread = Thread::new(alloc);
    thread.puts(alloc, b"a", b"", Wrote::New { at: 2 })?;
    thread.gets(alloc, b"a", b"", 2)?;
    keeps_and_holds(alloc, &mut thread)?;
    looks_and_removes(alloc, &mut thread)?;
    looks_at_both(alloc, &mut thread)?;
    Ok(thread)
}

/// Adds a compute of `a`, and an upsert of `b` that puts it.
fn computes_and_upserts(alloc: Global, thread: &mut Thread) -> Result<(), OutOfMemory>
    requires { CallsAnswered thread.old.calls.items thread.old.replies.items }
    ensures { OnOk result (CallsAnswered thread.new.calls.items thread.new.replies.items) }
{
    let call = Call::Compute {
        key: Key::make(alloc, b"a")?,
        recipe: RecipeKind::Rev,
        argument: 0,
    };
    thread.add(call, Reply::Wrote(Wrote::Done { at: 7 }))?;
    let key = Key::make(alloc, b"b")?;
    let call = Call::Upsert {
        key,
        value: Value::make(alloc, b"")?,
        recipe: RecipeKind::Xor,
        argument: 1,
    };
    thread.add(call, Reply::Wrote(Wrote::New { at: 3 }))
}

/// Adds a scan up that gives two pairs.
fn scans_up(alloc: Global, thread: &mut Thread) -> Result<(), OutOfMemory>
    requires { CallsAnswered thread.old.calls.items thread.old.replies.items }
    ensures { OnOk result (CallsAnswered thread.new.calls.items thread.new.replies.items) }
{
    let first = pair(alloc, b"a", &[3], 8)?;
    let second = pair(alloc, b"b", &[0x0a, 0xff], 6)?;
    let risen = pairs(alloc, first, second)?;
    let low = Some(Key::make(alloc, b"a")?);
    thread.add(
        Call::Scan { low, high: None },
        Reply::Pairs(Pairs::of(risen)),
    )
}

/// Adds a scan down that gives two pairs, and one up that gives none.
fn scans_down(alloc: Global, thread: &mut Thread) -> Result<(), OutOfMemory>
    requires { CallsAnswered thread.old.calls.items thread.old.replies.items }
    ensures { OnOk result (CallsAnswered thread.new.calls.items thread.new.replies.items) }
{
    let first = pair(alloc, b"b", &[1], 5)?;
    let second = pair(alloc, b"a", b"", 2)?;
    let fallen = pairs(alloc, first, second)?;
    let high = Some(Key::make(alloc, b"b")?);
    thread.add(
        Call::Back { low: None, high },
        Reply::Pairs(Pairs::of(fallen)),
    )?;
    let whole = Call::Scan {
        low: None,
        high: None,
    };
    thread.add(whole, Reply::Pairs(Pairs::of(Vec::new(alloc))))
}

/// The writes of the key `a` with the stamps 5 and 7, those of `b` with 3 and 6, and scans.
fn second_thread(alloc: Global) -> Result<Thread, OutOfMemory>
    ensures { IfOk result (λ t. CallsAnswered t.calls.items t.replies.items) }
{
    let mut thread = Thread::new(alloc);
    thread.puts(alloc, b"a", &[3], Wrote::Over { at: 5 })?;
    computes_and_upserts(alloc, &mut thread)?;
    thread.puts(alloc, b"b", &[0x0a, 0xff], Wrote::Over { at: 6 })?;
    scans_up(alloc, &mut thread)?;
    scans_down(alloc, &mut thread)?;
    Ok(thread)
}

/// A thread that lacks each thing in turn.
fn full_thread(alloc: Global) -> Result<Thread, OutOfMemory>
    ensures { IfOk result (λ t. CallsAnswered t.calls.items t.replies.items) }
{
    let mut thread = Thread::new(alloc);
    for lack in [
        Lack::Block(Class::B16),
        Lack::Block(Class::B64),
        Lack::Block(Class::B256),
        Lack::Block(Class::B1024),
        Lack::Header,
        Lack::Room,
    ] {
        thread.puts(alloc, b"d", b"", Wrote::Full(lack))?;
    }
    Ok(thread)
}

const LONG_TEXT: &str = "\
t1.1 new @1
t1.2 = - @1
t1.3 kept @1
t1.4 held @2
t1.5 = 03 @3
t1.6 removed @4
t1.7 gone
t1.8 unheld
t1.9 none @4
t2.1 over @2
t2.2 done @3
t2.3 new @1
t2.4 over @2
t2.5 pairs 2
+ 61 03 @3
+ 62 0aff @2
t2.6 pairs 2
+ 62 01 @1
+ 61 - @1
t2.7 pairs 0
t3.1 full b16
t3.2 full b64
t3.3 full b256
t3.4 full b1024
t3.5 full header
t3.6 full room
map 2
62 0aff
63 -
arena
b16 6 66
b64 5 55
b256 4 44
b1024 3 33
headers 2 7
chunks 1 9
";

/// A script of three threads, and the replies to them.
fn three_threads(alloc: Global) -> Result<(Script, Vec<Vec<Reply>>), Fail>
    ensures { IfOk result (λ t. RepliesAnswer t.0.threads (map (λ v. v.items) t.1.items)) }
{
    let shape = Shape::make(4, 9, 8, 7, [66, 55, 44, 33])?;
    let first = first_thread(alloc)?;
    let second = second_thread(alloc)?;
    let full = full_thread(alloc)?;
    let threads = Threads::of(vec![in alloc; first.calls, second.calls, full.calls]?);
    let replies = vec![in alloc; first.replies, second.replies, full.replies]?;
    Ok((Script { shape, threads }, replies))
}

/// The pairs that the three threads leave.
fn pairs_of_three(alloc: Global) -> Result<Vec<Pair>, OutOfMemory> {
    let first = pair(alloc, b"b", &[0x0a, 0xff], 6)?;
    let second = pair(alloc, b"c", b"", 1)?;
    pairs(alloc, first, second)
}

#[test]
fn prints_every_reply(rt: HostRuntime) -> Result<(), Fail> {
    let alloc = rt.alloc();
    let finals = pairs_of_three(alloc)?;
    let (script, replies) = three_threads(alloc)?;
    let usage = Usage {
        blocks: [6, 5, 4, 3],
        headers: 2,
        chunks: 1,
    };
    expect_text(&rt, alloc, &script, &replies, &finals, &usage, LONG_TEXT)
}

/// A thread that puts a value under a key of its own.
fn put_thread(alloc: Global, key: &[u8], value: &[u8]) -> Result<Thread, OutOfMemory>
    requires key { IsKey key.now }
    requires value { IsValue value.now }
    ensures { IfOk result (λ t. CallsAnswered t.calls.items t.replies.items) }
{
    let mut thread = Thread::new(alloc);
    thread.puts(alloc, key, value, Wrote::New { at: 1 })?;
    Ok(thread)
}

/// A script of two threads, and the replies to them.
fn two_threads(alloc: Global) -> Result<(Script, Vec<Vec<Reply>>), Fail>
    ensures { IfOk result (λ t. RepliesAnswer t.0.threads (map (λ v. v.items) t.1.items)) }
{
    let shape = Shape::make(3, 256, 64, 8_192, [16_384, 4_096, 1_024, 512])?;
    let first = put_thread(alloc, &[0x61], &[1])?;
    let second = put_thread(alloc, &[0x62], &[2])?;
    let threads = Threads::of(vec![in alloc; first.calls, second.calls]?);
    let replies = vec![in alloc; first.replies, second.replies]?;
    Ok((Script { shape, threads }, replies))
}

const TWO_THREADS_TEXT: &str = "\
t1.1 new @1
t2.1 new @1
map 2
61 01
62 02
arena
b16 4 16384
b64 0 4096
b256 0 1024
b1024 0 512
headers 2 8192
chunks 1 256
";

/// The pairs that the two threads leave.
fn pairs_of_two(alloc: Global) -> Result<Vec<Pair>, OutOfMemory> {
    let first = pair(alloc, &[0x61], &[1], 1)?;
    let second = pair(alloc, &[0x62], &[2], 1)?;
    pairs(alloc, first, second)
}

#[test]
fn prints_the_replies_of_two_threads(rt: HostRuntime) -> Result<(), Fail> {
    let alloc = rt.alloc();
    let finals = pairs_of_two(alloc)?;
    let (script, replies) = two_threads(alloc)?;
    let usage = Usage {
        blocks: [4, 0, 0, 0],
        headers: 2,
        chunks: 1,
    };
    let says = TWO_THREADS_TEXT;
    expect_text(&rt, alloc, &script, &replies, &finals, &usage, says)
}
