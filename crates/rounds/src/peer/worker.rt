//! What one thread does.
ghost use Rattle.std.specs.Prelude.{◌<◌, ◌≤◌};

use crate::peer::keys::{
    MOST_BYTES, NUMBER, counter_of, key_of, next_state, number_in, set_number, sum_of,
};
use crate::peer::told::Told;
use crate::peer::words::{Asked, Work};
use oak_caller::{Caller, Copied, SplitFault, Way, Wrote};
use std::sync::Wait;

/// A thread of this number, with its caller, the state that names the next counter, the bytes of a value, and what its
/// calls came to.
#[derive(Drop)]
pub struct Worker<'m, R: Wait + Drop + Send> {
    number: u16,
    caller: Caller<'m, R>,
    state: u16,
    value: [u8; MOST_BYTES],
    pub told: Told,
}

impl<'m, R: Wait + Drop + Send> Worker<'m, R> {
    /// A thread that has done nothing.
    pub fn make(number: u16, caller: Caller<'m, R>) -> Worker<'m, R> {
        Worker {
            number,
            caller,
            state: number,
            value: [b'v'; MOST_BYTES],
            told: Told::NONE,
        }
    }

    /// Another thread on the same map.
    pub fn split(&mut self, rt: &R, number: u16) -> Result<Worker<'m, R>, SplitFault>
    where
        R: AllocGlobal,
    {
        Ok(Worker::make(number, self.caller.split(rt)?))
    }

    /// Does its share of the work.
    pub fn work(&mut self, rt: &R, asked: &Asked)
    where
        R: AllocGlobal,
    {
        let (_maps, rounds) = asked.maps_and_rounds();
        for round in 0..rounds {
            let told = self.go_round(rt, asked, u64::from(round));
            self.told = self.told.and(told);
        }
    }

    /// Does its share of a round, of which it knows how many came before.
    fn go_round(&mut self, rt: &R, asked: &Asked, round: u64) -> Told
    where
        R: AllocGlobal,
    {
        match asked.work {
            Work::Add => self.add(rt, asked.keys),
            Work::Ingest => self.put(rt, asked, asked.threads, 0),
            Work::Over => self.put(rt, asked, asked.threads, round.wrapping_add(1)),
            Work::Get => {
                let from = u32::from(self.number).wrapping_mul(
                    asked.keys / u32::from(asked.threads),
                );
                let told = self.get(rt, from, asked.keys);
                told.and(self.get(rt, 0, from))
            }
            Work::Scan(way) => self.scan(rt, way),
        }
    }

    /// Adds 1 to one counter after the other, in so many calls.
    fn add(&mut self, rt: &R, calls: u32) -> Told
    where
        R: AllocGlobal,
    {
        let mut told = Told::NONE;
        for _ in 0..calls {
            self.state = next_state(self.state);
            let said = self.caller.add(rt, &counter_of(self.state), 1);
            if let Ok(Wrote::New { at: _ } | Wrote::Done { at: _ }) = said {
                told = told.then(0);
            }
        }
        told
    }

    /// Puts one of so many keys, from its number on. The value of a key is its number and this many more.
    pub fn put(&mut self, rt: &R, asked: &Asked, step: u16, more: u64) -> Told
        requires { 0 < step }
    {
        let mut told = Told::NONE;
        for number in (u32::from(self.number)..asked.keys).step_by(usize::from(step)) {
            set_number(&mut self.value, more.wrapping_add(u64::from(number)));
            let value = &self.value[..asked.bytes];
            let said = self.caller.put(rt, &key_of(number), value);
            if let Ok(Wrote::New { at: _ } | Wrote::Over { at: _ }) = said {
                told = told.then(0);
            }
        }
        told
    }

    /// Gets the values of the keys of these numbers, in turn.
    fn get(&mut self, rt: &R, from: u32, to: u32) -> Told {
        let mut told = Told::NONE;
        for number in from..to {
            let copied = self.caller.get_into(rt, &key_of(number), &mut self.value);
            if let Copied::Whole { len, at: _ } = copied {
                told = told.then(sum_of(&self.value[..len]));
            }
        }
        told
    }

    /// Scans the whole map, and reads the numbers of the values.
    pub fn scan(&mut self, rt: &R, way: Way) -> Told {
        let mut told = Told::NONE;
        self.caller
            .for_each_prefix(rt, None, None, way, NUMBER, |_key, value| {
                told = told.then(number_in(value));
                true
            });
        told
    }
}
