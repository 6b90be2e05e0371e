//! The states of a room, as they stand in its pin word. The generation of a room stays 0.
ghost use Rattle.std.specs.Prelude.{◌≡◌};

/// May be claimed where no pin stands.
pub const FREE: u8 = 0;

/// Covers its range, and may be pinned.
pub const OPEN: u8 = 1;

/// Covers its range; its freezer waits until no pin stands, or opens it again.
pub const FROZEN: u8 = 2;

/// One pass has it alone.
pub const HELD: u8 = 3;

/// A law: the numbers of the states, as the pin words have them.
pub fn state_numbers()
    ensures free { FREE ≡ 0 }
    ensures open { OPEN ≡ 1 }
    ensures frozen { FROZEN ≡ 2 }
    ensures held { HELD ≡ 3 }
{}
