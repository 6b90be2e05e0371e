//! Copies of what is lent.
ghost use Rattle.std.specs.Prelude.{◌≡◌, IfOk};
ghost use Rattle.oak_model.specs.declared.replies.Reply.TheVariants as replies;
ghost use Rattle.value_ops.specs.Reading.{IsReading, ReadsOn, value};
ghost use Rattle.oak_run.specs.CallTurns.{TellsCopy};

use oak_map::Reading;
use oak_model::{Key, OutOfMemory, Reply, Value};
use std::alloc::Global;

/// A copy of the value that is read.
pub fn copy_value(alloc: Global, reading: &mut Reading<'_>) -> Result<Value, OutOfMemory>
    requires { IsReading reading.old }
    ensures same_reference { reading.new.pass.ghost_name ≡ reading.old.pass.ghost_name }
    ensures reads { ReadsOn reading.old reading.new }
    ensures value { IfOk result (λ v. v ≡ value reading.old) }
{
    let mut bytes = vec![in alloc; 0u8; reading.len()]?;
    reading.copy_into(bytes.as_mut_slice());
    Value::make(alloc, bytes.as_slice())
}

/// Tells a value that was copied, if it was.
pub fn told(
    alloc: Global,
    key: &Key,
    copy: Result<Value, OutOfMemory>,
    at: u64,
) -> Result<Reply, OutOfMemory>
    ensures { TellsCopy key.now copy at result }
{
    match copy {
        Err(e) => Err(e),
        Ok(value) => named(alloc, key, value, at),
    }
}

fn named(alloc: Global, key: &Key, value: Value, at: u64) -> Result<Reply, OutOfMemory>
    ensures { IfOk result (λ y. y ≡ replies.Value key.now value at) }
{
    let key = key.copy(alloc)?;
    Ok(Reply::Value { key, value, at })
}
