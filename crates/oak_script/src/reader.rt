//! Reading a script: its lines in their order, to a script or to its first fault.
ghost use Rattle.std.specs.Prelude.{◌≡◌, ◌<◌, ◌≤◌, ◌+◌, [], length, map, true, false, if◌then◌else◌, OnOk, OnErr, IfOk, IfErr, IfSome};
ghost use Rattle.oak_script.specs.declared.limits.TheConstants.{GREATEST_CALLS, GREATEST_THREADS};
ghost use Rattle.oak_script.specs.declared.scripts.Script.{Script};
ghost use Rattle.oak_script.specs.Lines.{lines_of, text_words};
ghost use Rattle.oak_script.specs.ShapeLine.{SizesFit};
ghost use Rattle.oak_script.specs.Grammar.{IsScript, Spells, AreLinesOf, default_sizes};
ghost use Rattle.oak_script.specs.Reading.{so_far, sizes_for, CallsFit, AreCalls, AreFine, Took, StopsAt};
ghost use Rattle.oak_script.specs.Answers.{Tells, Gives, IsTold};

use crate::calls::Calls;
use crate::faults::{NoScript, ScriptFault, What};
use crate::lines::{Lines, cut_words};
use crate::scripts::{Call, Script, Threads};
use crate::stages::{Stage, take_line};
use crate::stops::Stop;
use oak_model::Shape;
use std::alloc::Global;

/// The shape that a script without a `shape` line asks for.
pub fn default_shape(threads: u32) -> Shape
    requires least { 1 ≤ threads }
    requires greatest { threads ≤ GREATEST_THREADS }
    ensures is { result ≡ default_sizes threads }
    ensures fit { SizesFit result }
{
    Shape::standard(threads + 1)
}

/// The shape that a script asks for by its `shape` line, or without one.
fn shape_for(shape: Option<Shape>, threads: u32) -> Shape
    requires least { 1 ≤ threads }
    requires greatest { threads ≤ GREATEST_THREADS }
    requires fit { IfSome shape SizesFit }
    ensures is { result ≡ sizes_for shape threads }
    ensures fit { SizesFit result }
{
    match shape {
        Some(shape) => Shape {
            passes: threads + 1,
            ..shape
        },
        None => default_shape(threads),
    }
}

/// The script of these threads.
fn script_of(shape: Option<Shape>, threads: Vec<Vec<Call>>) -> Script
    requires some { 0 < length threads.items }
    requires calls { AreCalls (map (λ v. v.items) threads.items) }
    requires shape { IfSome shape SizesFit }
    ensures script { IsScript result }
    ensures threads { result.threads ≡ map (λ v. v.items) threads.items }
    ensures shape { result.shape ≡ sizes_for shape (length threads.items) }
{
    Script {
        shape: shape_for(shape, threads.len() as u32),
        threads: Threads::of(threads),
    }
}

/// What is told of a stop behind so many lines.
fn told(number: u32, stop: Stop) -> NoScript
    requires { number ≤ GREATEST_CALLS + GREATEST_THREADS + 3 }
    ensures { IsTold result stop (number + 1) }
{
    match stop {
        Stop::Fault(what) => NoScript::Fault(ScriptFault {
            line: number + 1,
            what,
        }),
        Stop::OutOfMemory => NoScript::OutOfMemory,
    }
}

/// A script that is being read.
#[derive(Drop)]
struct Reader<'a> {
    alloc: Global,
    lines: Lines<'a>,
    number: u32,
    stage: Stage,
    calls: Calls,
}

impl<'a> Reader<'a> {
    fn start(alloc: Global, text: &'a [u8]) -> Reader<'a>
        ensures lines { result.lines ≡ lines_of text.now }
        ensures state { (result.number ≡ 0) × (result.stage ≡ Stage.Start) × (result.calls ≡ []) }
    {
        Reader {
            alloc,
            lines: Lines::of(text),
            number: 0,
            stage: Stage::Start,
            calls: Calls::new(alloc),
        }
    }

    /// Takes the next line. Whether there was one.
    fn step(&mut self) -> Result<bool, Stop>
        requires fit { CallsFit self.old.stage self.old.calls }
        requires count { self.old.number ≡ length (so_far self.old.stage self.old.calls) }
        ensures number { IfOk result (λ more. self.new.number ≡ (if more then self.old.number + 1 else self.old.number)) }
        ensures fit { OnOk result (CallsFit self.new.stage self.new.calls) }
        ensures went { IfOk result (λ more. more ≡ true → Took (so_far self.old.stage self.old.calls) self.old.lines
            (so_far self.new.stage self.new.calls) self.new.lines) }
        ensures ended { IfOk result (λ more. more ≡ false → (self.old.lines ≡ []) × (self.new.lines ≡ [])
            × (so_far self.new.stage self.new.calls ≡ so_far self.old.stage self.old.calls)) }
        ensures err { IfErr result (λ e. StopsAt e (so_far self.old.stage self.old.calls) self.old.lines) }
        ensures same { OnErr result (self.new.number ≡ self.old.number) }
    {
        match self.lines.next_line() {
            None => Ok(false),
            Some(line) => {
                let words = cut_words(self.alloc, line)?;
                match take_line(self.alloc, self.stage, &mut self.calls, &words) {
                    Ok(stage) => {
                        self.stage = stage;
                        self.number += 1;
                        Ok(true)
                    }
                    Err(stop) => Err(stop),
                }
            }
        }
    }

    /// The script, behind the last line.
    fn finish(self) -> Result<Script, NoScript>
        requires fit { CallsFit self.stage self.calls }
        requires count { self.number ≡ length (so_far self.stage self.calls) }
        requires fine { AreFine (so_far self.stage self.calls) }
        ensures exact { Tells result (so_far self.entry.stage self.entry.calls) }
        ensures script { IfOk result IsScript }
        ensures lines { IfOk result (λ s. AreLinesOf (so_far self.entry.stage self.entry.calls) s) }
    {
        let Reader {
            number,
            stage,
            calls,
            ..
        } = self;
        match stage {
            Stage::Start => Err(NoScript::Fault(ScriptFault {
                line: 1,
                what: What::Head,
            })),
            Stage::Ended(shape) => Ok(script_of(shape, calls.into_vec())),
            _ => Err(told(number, Stop::Fault(What::NoEnd))),
        }
    }
}

fn read_lines(alloc: Global, text: &[u8]) -> Result<Script, NoScript>
    ensures exact { Tells result (text_words text.now) }
    ensures found { IfOk result (λ s. Spells text.now s) }
{
    let mut reader = Reader::start(alloc, text);
    'lines: loop {
        match reader.step() {
            Ok(true) => {}
            Ok(false) => break,
            Err(stop) => return Err(told(reader.number, stop)),
        }
    }
    reader.finish()
}

/// The script that a text is, or its first fault.
pub fn read_script(alloc: Global, text: &[u8]) -> Result<Script, NoScript>
    // What is told is the first fault of the text, and there is none where a script is read.
    ensures exact { Tells result (text_words text.now) }
    // What is read is a script, and the lines of the text are its lines.
    ensures found { IfOk result (λ s. Spells text.now s) }
    // A script that the text is the text of is read, unless memory runs out.
    ensures only { (s : Script) → Spells text.now s → Gives result s }
{
    read_lines(alloc, text)
}
