//! Reading a source to its end, and writing all bytes to a sink.
ghost use Rattle.std.specs.Prelude.{◌≤◌, ◌+◌, OnOk, OnErr};
ghost use Rattle.std.specs.Io.KnownBytes.{Appends};
ghost use Rattle.outside.specs.Cause.{HasCause};
ghost use Rattle.outside.specs.Taken.{AppendsFront};
ghost use Rattle.outside.specs.Whole.{ConsumesUpTo, ReadsWhole};

use crate::{Failed, Sink, Source};
use std::alloc::Global;

/// The most bytes that one read asks for.
const PIECE: usize = 8192;

/// Why a source was not read to its end.
#[derive(Clone, Copy, Debug, PartialEq, Eq)]
pub enum ReadStop {
    /// A read failed.
    Failed,
    /// More bytes came than there may be.
    TooLong,
    /// There was no memory for the bytes that came.
    OutOfMemory,
}

/// Reads a source to its end, but takes no more than one byte past the first `most`: if that one
/// comes, the answer is `TooLong`, and a fault that would come later is not met, so `Failed` comes
/// only where no more than those came. After a stop the bytes that were read are lost, and no others.
pub fn read_whole<S: Source>(
    alloc: Global,
    source: &mut S,
    most: usize,
) -> Result<Vec<u8>, ReadStop>
    ensures bytes { ReadsWhole (S.left source.old) (S.left source.new)
        (S.faults source.old) (S.faults source.new) most result }
    ensures lost { OnErr result (ConsumesUpTo (S.left source.old) (S.left source.new) (most + 1)) }
    ensures later { S.faults source.old ≤ S.faults source.new }
{
    let mut all = Vec::new(alloc);
    let mut piece = [0u8; PIECE];
    'pieces: while all.len() <= most {
        let asked = (most - all.len()).saturating_add(1).min(PIECE);
        match source.read(&mut piece[..asked]) {
            Err(Failed) => return Err(ReadStop::Failed),
            Ok(0) => return Ok(all),
            Ok(count) => {
                if all.extend_from_slice(&piece[..count]).is_err() {
                    return Err(ReadStop::OutOfMemory);
                }
            }
        }
    }
    Err(ReadStop::TooLong)
}

/// Writes all of the bytes. After `Failed` some first bytes were written, or none.
pub fn write_whole<K: Sink>(sink: &mut K, bytes: &[u8]) -> Result<(), Failed>
    ensures ok { OnOk result (Appends (K.written sink.old) (K.written sink.new) bytes.now) }
    ensures err { OnErr result (AppendsFront (K.written sink.old) (K.written sink.new) bytes.now) }
    ensures cause { HasCause (K.faults sink.old) (K.faults sink.new) result }
{
    let mut done = 0;
    'pieces: while done < bytes.len() {
        let count = sink.write(&bytes[done..])?;
        done += count;
    }
    Ok(())
}
