//! A source in memory that never fails.
ghost use Rattle.std.specs.Prelude.{◌≡◌, ◌≤◌, ◌-◌, ℕ, List, Some, IsOk, IfOk, take, drop, length, min, vec_len};
ghost use Rattle.std.specs.Io.{ReadsAtMost};
ghost use Rattle.std.specs.Io.KnownBytes.{ReadConsumes};
ghost use Rattle.outside.specs.Cause.{HasCause};

use crate::{Failed, Source};
use std::marker::Model;

/// Bytes in memory, whose reads never fail. Contracts see it as the bytes that are left.
#[derive(Drop)]
pub struct SureSource {
    bytes: Vec<u8>,
    place: usize,
}

impl Model for SureSource {
    ghost Value = { List ℕ };

    ghost view = { λ s. drop s.place s.bytes.items };

    ghost invariant = { λ s. s.place ≤ vec_len s.bytes };
}

impl SureSource {
    /// A source that gives these bytes.
    pub fn make(bytes: Vec<u8>) -> SureSource
        ensures { result ≡ bytes.items }
    {
        SureSource { bytes, place: 0 }
    }
}

impl Source for SureSource {
    ghost left = { λ s. Some s };

    ghost faults = { λ _. 0 };

    /// Gives as many bytes as are left and fit into the piece. The rest of the piece stays as it is.
    fn read(&mut self, piece: &mut [u8]) -> Result<usize, Failed>
        ensures bound { ReadsAtMost result piece.new }
        ensures bytes { ReadConsumes (Some self.old) (Some self.new) result piece.new }
        ensures cause { HasCause 0 0 result }

        ensures ok { IsOk result }
        ensures count { IfOk result (λ n. n ≡ min (length piece.old) (length self.old)) }
        ensures rest { IfOk result (λ n. drop n piece.new ≡ drop n piece.old) }
    {
        let count = copy_front(&self.bytes, self.place, piece);
        self.place += count;
        Ok(count)
    }
}

/// Copies as many bytes from a place on as fit to the front of the piece.
fn copy_front(bytes: &[u8], place: usize, piece: &mut [u8]) -> usize
    requires { place ≤ length bytes.now }
    ensures count { result ≡ min (length piece.old) (length bytes.now - place) }
    ensures same { take result piece.new ≡ take result (drop place bytes.now) }
    ensures rest { drop result piece.new ≡ drop result piece.old }
{
    let count = piece.len().min(bytes.len() - place);
    piece[..count].copy_from_slice(&bytes[place..place + count]);
    count
}
