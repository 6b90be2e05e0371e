//! The states of a header, as they stand in its pin word.
ghost use Rattle.std.specs.Prelude.{◌≡◌, ◌-◌, ◌^◌};

/// May be claimed where no pin stands.
pub const FREE: u8 = 0;

/// One pass fills it.
pub const OWNED: u8 = 1;

/// Holds a value, and may be pinned.
pub const LIVE: u8 = 2;

/// One pass holds its lock.
pub const LOCKED: u8 = 3;

/// Its life was removed, and the remover takes it back.
pub const DEAD: u8 = 4;

/// At the last generation, never used again.
pub const RETIRED: u8 = 5;

/// The last generation. A header that comes to it is retired.
pub const LAST_GENERATION: u32 = u32::MAX;

/// A law: the numbers of the states and the last generation, as the pin words have them.
pub fn state_numbers()
    ensures free { FREE ≡ 0 }
    ensures owned { OWNED ≡ 1 }
    ensures live { LIVE ≡ 2 }
    ensures locked { LOCKED ≡ 3 }
    ensures dead { DEAD ≡ 4 }
    ensures retired { RETIRED ≡ 5 }
    ensures last { LAST_GENERATION ≡ 2 ^ 32 - 1 }
{}
