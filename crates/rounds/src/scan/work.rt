//! What is done with the map that was filled.
ghost use Rattle.std.specs.Prelude.{◌≡◌};
ghost use Rattle.oak_map.specs.Maps.{IsReady, state};

use crate::scan::looks::{Look, look_all};
use crate::scan::rounds::scan;
use oak_map::{MapPass, OakMap, Way};
use std::sync::Wait;

/// What a round does.
#[derive(Clone, Copy)]
pub enum Work {
    /// A scan of the whole map, in this way.
    Scan(Way),
    /// A look for each key that was put.
    Look(Look),
    /// The map is settled.
    Settle,
}

impl Work {
    /// The work that a word names.
    pub fn named(word: &str) -> Option<Work> {
        match word {
            "up" => Some(Work::Scan(Way::Up)),
            "down" => Some(Work::Scan(Way::Down)),
            "get" => Some(Work::Look(Look::Get)),
            "next" => Some(Work::Look(Look::Next)),
            "settle" => Some(Work::Settle),
            _ => None,
        }
    }
}

/// Does the work once, on a map that has the keys of so many numbers: how many pairs it read, and their values, added up.
fn go_round<R: Wait + Drop + Send>(
    rt: &R,
    map: &OakMap<R>,
    pass: &mut MapPass,
    keys: u32,
    work: Work,
) -> (u64, u64)
    requires own { IsReady map.now pass.old }
    ensures own { IsReady map.now pass.new }
    ensures numbers { (state pass.new).numbers ≡ (state pass.old).numbers }
{
    match work {
        Work::Scan(way) => scan(rt, map, pass.pass_mut(), way),
        Work::Look(which) => look_all(rt, map, pass, keys, which),
        Work::Settle => {
            map.settle(rt, pass);
            (0, 0)
        }
    }
}

/// Does the work so many times: how many pairs were read in all, and their values, added up.
pub fn go_rounds<R: Wait + Drop + Send>(
    rt: &R,
    map: &OakMap<R>,
    pass: &mut MapPass,
    keys: u32,
    work: Work,
    rounds: u32,
) -> (u64, u64)
    requires own { IsReady map.now pass.old }
    ensures own { IsReady map.now pass.new }
    ensures numbers { (state pass.new).numbers ≡ (state pass.old).numbers }
{
    let mut pairs = 0u64;
    let mut sum = 0u64;
    for _ in 0..rounds {
        let (more, added) = go_round(rt, map, pass, keys, work);
        pairs = pairs.wrapping_add(more);
        sum = sum.wrapping_add(added);
    }
    (pairs, sum)
}
