//! The calls that were read so far, thread by thread.
ghost use Rattle.std.specs.Prelude.{◌≡◌, ◌<◌, ◌++◌, ◌∷◌, [], map, length, OnOk, OnErr, IfErr};
ghost use Rattle.oak_script.specs.Grammar.{CallFits, is_scan};
ghost use Rattle.oak_script.specs.Stops.{Stops};
ghost use Rattle.oak_script.specs.Reading.{AreCalls, with_call, thread_faults, count_faults};

use crate::faults::What;
use crate::limits::{GREATEST_CALLS, GREATEST_SCANS, GREATEST_THREADS};
use crate::scripts::Call;
use crate::stops::Stop;
use std::alloc::Global;
use std::marker::Model;

fn is_scan(call: &Call) -> bool
    ensures { result ≡ is_scan call.now }
{
    matches!(call, Call::Scan { .. } | Call::Back { .. })
}

/// Adds a call to the last of some threads.
fn push_to_last(threads: &mut Vec<Vec<Call>>, call: Call) -> Result<(), Stop>
    requires some { 0 < length threads.old.items }
    ensures ok { OnOk result (map (λ v. v.items) threads.new.items ≡ with_call (map (λ v. v.items) threads.old.items) call) }
    ensures same { OnErr result (map (λ v. v.items) threads.new.items ≡ map (λ v. v.items) threads.old.items) }
    ensures err { IfErr result (λ e. e ≡ Stop.OutOfMemory) }
{
    let last = threads.len() - 1;
    threads[last].push(call)?;
    Ok(())
}

/// The calls of a script so far, thread by thread, with the number of them and of the scans among them.
#[derive(Drop)]
pub struct Calls {
    threads: Vec<Vec<Call>>,
    calls: usize,
    scans: usize,
}

impl Model for Calls {
    ghost use Rattle.std.specs.Prelude.{List, map};
    ghost use Rattle.oak_script.specs.declared.scripts.Call.{Call};
    ghost use Rattle.oak_script.specs.Reading.{AreCounted};

    ghost Value = { List (List Call) };

    ghost view = { λ c. map (λ v. v.items) c.threads.items };

    ghost invariant = { λ c. AreCounted (map (λ v. v.items) c.threads.items) c.calls c.scans };
}

impl Calls {
    pub fn new(alloc: Global) -> Calls
        ensures { result ≡ [] }
    {
        Calls {
            threads: Vec::new(alloc),
            calls: 0,
            scans: 0,
        }
    }

    /// Begins the next thread, unless it is one too many.
    pub fn begin_thread(&mut self, alloc: Global) -> Result<(), Stop>
        ensures ok { OnOk result (self.new ≡ self.old ++ [] ∷ []) }
        ensures fine { OnOk result (thread_faults self.old ≡ []) }
        ensures fit { OnOk result (AreCalls self.new) }
        ensures err { IfErr result (λ e. Stops e (thread_faults self.old)) }
    {
        if self.threads.len() == GREATEST_THREADS {
            return Err(Stop::Fault(What::Threads));
        }
        self.threads.push(Vec::new(alloc))?;
        Ok(())
    }

    /// Adds a call to the last thread, unless it is one call or one scan too many.
    pub fn push(&mut self, call: Call) -> Result<(), Stop>
        requires some { 0 < length self.old }
        requires call { CallFits call }
        ensures ok { OnOk result (self.new ≡ with_call self.old call) }
        ensures fine { OnOk result (count_faults self.old call ≡ []) }
        ensures fit { OnOk result (AreCalls self.new) }
        ensures err { IfErr result (λ e. Stops e (count_faults self.old call)) }
    {
        if self.calls == GREATEST_CALLS {
            return Err(Stop::Fault(What::Calls));
        }
        let is_scan = is_scan(&call);
        if is_scan && self.scans == GREATEST_SCANS {
            return Err(Stop::Fault(What::Scans));
        }
        push_to_last(&mut self.threads, call)?;
        self.calls += 1;
        if is_scan {
            self.scans += 1;
        }
        Ok(())
    }

    pub fn into_vec(self) -> Vec<Vec<Call>>
        ensures { map (λ v. v.items) result.items ≡ self }
    {
        self.threads
    }
}
