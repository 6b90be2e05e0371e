//! The one-thread cell: what a call on one key answers, and the state behind it.
ghost use Rattle.std.specs.Prelude.{◌≡◌, IfOk};
ghost use Rattle.std.specs.Option.{option_map};
ghost use Rattle.oak_model.specs.Cell.{reply_of, state_after, HasArgument};

use crate::memory::OutOfMemory;
use crate::recipes::RecipeKind;
use crate::values::Value;
use std::alloc::Global;

/// What a call asks of its key.
#[derive(Debug, Drop)]
pub enum CellCall {
    Get,
    Put {
        value: Value,
    },
    PutNew {
        value: Value,
    },
    Compute {
        recipe: RecipeKind,
        argument: u64,
    },
    Upsert {
        value: Value,
        recipe: RecipeKind,
        argument: u64,
    },
    Remove,
}

/// What a cell replies. A get of a key that is present tells its bytes.
#[derive(Debug, Drop)]
pub enum CellReply {
    New,
    Over,
    Kept,
    Done,
    Removed,
    Absent,
    Holds(Value),
}

impl CellReply {
    ghost use Rattle.oak_model.specs.Cell.{is_write, is_new};

    /// Whether it is the reply of a write.
    pub fn is_write(&self) -> bool
        ensures { result ≡ is_write self.now }
    {
        match self {
            CellReply::New | CellReply::Over | CellReply::Done | CellReply::Removed => true,
            CellReply::Kept | CellReply::Absent | CellReply::Holds(_) => false,
        }
    }

    /// Whether it is the reply of a write that inserts.
    pub fn is_new(&self) -> bool
        ensures { result ≡ is_new self.now }
    {
        match self {
            CellReply::New => true,
            _ => false,
        }
    }
}

/// A cell's reply, and its state behind the call.
#[derive(Debug, Drop)]
pub struct Answer {
    pub reply: CellReply,
    pub after: Option<Value>,
}

/// The answer of a cell that is absent, or holds `state`: the definition as a plain program, slow
/// for its copies.
pub fn answer_call(
    alloc: Global,
    state: Option<&Value>,
    call: &CellCall,
) -> Result<Answer, OutOfMemory>
    requires { HasArgument call.now }
    ensures reply { IfOk result (λ a. a.reply ≡ reply_of (option_map (λ v. v.now) state.entry) call.now) }
    ensures after { IfOk result (λ a. a.after ≡ state_after (option_map (λ v. v.now) state.entry) call.now) }
{
    match state {
        None => answer_of_absent(alloc, call),
        Some(value) => answer_of_present(alloc, value, call),
    }
}

fn answer_of_absent(alloc: Global, call: &CellCall) -> Result<Answer, OutOfMemory>
    ensures reply { IfOk result (λ a. a.reply ≡ reply_of None call.now) }
    ensures after { IfOk result (λ a. a.after ≡ state_after None call.now) }
{
    let (reply, after) = match call {
        CellCall::Put { value } => (CellReply::New, Some(value.copy(alloc)?)),
        CellCall::PutNew { value } => (CellReply::New, Some(value.copy(alloc)?)),
        CellCall::Upsert { value, .. } => (CellReply::New, Some(value.copy(alloc)?)),
        CellCall::Get => (CellReply::Absent, None),
        CellCall::Compute { .. } => (CellReply::Absent, None),
        CellCall::Remove => (CellReply::Absent, None),
    };
    Ok(Answer { reply, after })
}

fn answer_of_present(alloc: Global, old: &Value, call: &CellCall) -> Result<Answer, OutOfMemory>
    requires { HasArgument call.now }
    ensures reply { IfOk result (λ a. a.reply ≡ reply_of (Some old.now) call.now) }
    ensures after { IfOk result (λ a. a.after ≡ state_after (Some old.now) call.now) }
{
    let (reply, after) = match call {
        CellCall::Get => (CellReply::Holds(old.copy(alloc)?), Some(old.copy(alloc)?)),
        CellCall::Put { value } => (CellReply::Over, Some(value.copy(alloc)?)),
        CellCall::PutNew { .. } => (CellReply::Kept, Some(old.copy(alloc)?)),
        CellCall::Compute { recipe, argument } => {
            (
                CellReply::Done,
                Some(old.computed(alloc, *recipe, *argument)?),
            )
        }
        CellCall::Upsert {
            recipe,
            argument,
            ..
        } => {
            (
                CellReply::Done,
                Some(old.computed(alloc, *recipe, *argument)?),
            )
        }
        CellCall::Remove => (CellReply::Removed, None),
    };
    Ok(Answer { reply, after })
}
