//! The call that C makes.
ghost use Rattle.std.specs.Prelude.{◌≡◌, ◌≢◌, ◌↔◌};
ghost use Rattle.oak_model.specs.Key.{IsKey};
ghost use Rattle.oak_model.specs.Value.{IsValue};

use crate::told::Told;
use crate::trips::{NoTrip, put_and_get};
use oak_model::{is_key, is_value};
use std::alloc::Global;

const DONE: u32 = 0;

const BAD_WORDS: u32 = 1;

const NO_MEMORY: u32 = 2;

const FULL: u32 = 3;

const BUSY: u32 = 4;

/// Makes a map of the usual shape, puts the value of the key, gets it, and closes the map. Answered is 0, or 1 exactly
/// where the key has not 1 to 64 bytes or the value more than 1,024, 2 where there is no memory, 3 where the map was
/// full, and 4 where another pass was at work there; `told` is as before then.
#[unsafe(no_mangle)]
pub extern "C" fn oak_c_put_and_get(alloc: Global, key: &[u8], value: &[u8], told: &mut Told) -> u32
    ensures bad { (IsKey key.now × IsValue value.now → ⊥) ↔ result ≡ 1 }
    ensures same { result ≢ 0 → told.new ≡ told.old }
{
    if !is_key(key) || !is_value(value) {
        return BAD_WORDS;
    }
    match put_and_get(alloc, key, value) {
        Ok(all) => {
            *told = all;
            DONE
        }
        Err(NoTrip::OutOfMemory) => NO_MEMORY,
        Err(NoTrip::Full) => FULL,
        Err(NoTrip::Busy) => BUSY,
    }
}
