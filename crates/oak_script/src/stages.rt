//! How far the reading of a script has come, and what a line does to it.
ghost use Rattle.std.specs.Prelude.{◌≡◌, ◌<◌, ◌++◌, ◌∷◌, [], Some, None, map, length, true, false, OnOk, IfOk, IfErr};
ghost use Rattle.std.specs.List.{flat_map};
ghost use Rattle.oak_script.specs.Grammar.{oak_line, end_line, thread_lines};
ghost use Rattle.oak_script.specs.ShapeLine.{shape_line, SizesFit};
ghost use Rattle.oak_script.specs.Forms.{is_thread};
ghost use Rattle.oak_script.specs.Faults.{faults};
ghost use Rattle.oak_script.specs.Stops.{Stops};
ghost use Rattle.oak_script.specs.Reading.{so_far, past_at, CallsFit, AreCalls};

use crate::call_lines::read_call;
use crate::calls::Calls;
use crate::faults::What;
use crate::forms::{has_empty_word, is_end, is_oak, is_shape, is_thread};
use crate::shape_lines::shape_of;
use crate::stops::Stop;
use oak_model::Shape;
use std::alloc::Global;

/// How far a script was read, and the shape that it asked for.
#[derive(Clone, Copy, PartialEq, Eq)]
pub enum Stage {
    Start,
    Headed,
    Shaped(Shape),
    Opened(Option<Shape>),
    Ended(Option<Shape>),
}

/// Takes a line behind the first `thread` line. Whether it was `end`. Whether a `shape` line came makes no difference.
fn take_open(alloc: Global, calls: &mut Calls, words: &[&[u8]]) -> Result<bool, Stop>
    requires some { 0 < length calls.old }
    ensures fine { OnOk result (faults (past_at (Stage.Opened None) calls.old) (Some (map (λ w. w.now) words.now)) ≡ []) }
    ensures more { IfOk result (λ e. e ≡ false → flat_map thread_lines calls.new ≡ flat_map thread_lines
        calls.old ++ map (λ w. w.now) words.now ∷ []) }
    ensures ended { IfOk result (λ e. e ≡ true → (calls.new ≡ calls.old) × (map (λ w. w.now) words.now ≡ end_line)) }
    ensures fit { IfOk result (λ e. e ≡ false → (0 < length calls.new) × AreCalls calls.new) }
    ensures err { IfErr result (λ e. Stops e (faults (past_at (Stage.Opened None) calls.old) (Some (map (λ w. w.now) words.now)))) }
{
    if is_thread(words) {
        calls.begin_thread(alloc)?;
        return Ok(false);
    }
    if is_end(words) {
        return Ok(true);
    }
    let call = read_call(alloc, words)?;
    calls.push(call)?;
    Ok(false)
}

/// The shape that a `shape` line asks for.
fn shape_in(words: &[&[u8]]) -> Result<Shape, Stop>
    requires { is_thread (map (λ w. w.now) words.now) ≡ false }
    ensures line { IfOk result (λ s. map (λ w. w.now) words.now ≡ shape_line s) }
    ensures fit { IfOk result SizesFit }
    ensures fine { OnOk result (faults (past_at Stage.Headed []) (Some (map (λ w. w.now) words.now)) ≡ []) }
    ensures err { IfErr result (λ e. Stops e (faults (past_at Stage.Headed []) (Some (map (λ w. w.now) words.now)))) }
{
    if has_empty_word(words) || !is_shape(words) || words.len() != 8 {
        return Err(Stop::Fault(What::Word));
    }
    match shape_of(&words[1..]) {
        Some(shape) => Ok(shape),
        None => Err(Stop::Fault(What::Shape)),
    }
}

/// Takes line 2, which is a `shape` line or `thread`.
fn take_second(alloc: Global, calls: &mut Calls, words: &[&[u8]]) -> Result<Stage, Stop>
    requires { calls.old ≡ [] }
    ensures fine { OnOk result (faults (past_at Stage.Headed []) (Some (map (λ w. w.now) words.now)) ≡ []) }
    ensures grown { IfOk result (λ next. so_far next calls.new ≡ oak_line ∷ map (λ w. w.now) words.now ∷ []) }
    ensures fit { IfOk result (λ next. CallsFit next calls.new) }
    ensures err { IfErr result (λ e. Stops e (faults (past_at Stage.Headed []) (Some (map (λ w. w.now) words.now)))) }
{
    if is_thread(words) {
        calls.begin_thread(alloc)?;
        return Ok(Stage::Opened(None));
    }
    let shape = shape_in(words)?;
    Ok(Stage::Shaped(shape))
}

/// Takes the next line.
pub fn take_line(
    alloc: Global,
    stage: Stage,
    calls: &mut Calls,
    words: &[&[u8]],
) -> Result<Stage, Stop>
    requires { CallsFit stage calls.old }
    ensures fine { OnOk result (faults (past_at stage calls.old) (Some (map (λ w. w.now) words.now)) ≡ []) }
    ensures grown { IfOk result (λ next. so_far next calls.new ≡ so_far stage calls.old ++ map (λ w. w.now) words.now ∷ []) }
    ensures fit { IfOk result (λ next. CallsFit next calls.new) }
    ensures err { IfErr result (λ e. Stops e (faults (past_at stage calls.old) (Some (map (λ w. w.now) words.now)))) }
{
    match stage {
        Stage::Start => {
            if is_oak(words) {
                Ok(Stage::Headed)
            } else {
                Err(Stop::Fault(What::Head))
            }
        }
        Stage::Headed => take_second(alloc, calls, words),
        Stage::Shaped(shape) => {
            if is_thread(words) {
                calls.begin_thread(alloc)?;
                Ok(Stage::Opened(Some(shape)))
            } else {
                Err(Stop::Fault(What::Word))
            }
        }
        Stage::Opened(shape) => {
            if take_open(alloc, calls, words)? {
                Ok(Stage::Ended(shape))
            } else {
                Ok(Stage::Opened(shape))
            }
        }
        Stage::Ended(_) => Err(Stop::Fault(What::AfterEnd)),
    }
}
