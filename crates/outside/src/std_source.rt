//! A source over any reader of std.
ghost use Rattle.std.specs.Prelude.{◌≡◌};
ghost use Rattle.std.specs.Io.{ReadsAtMost};
ghost use Rattle.std.specs.Io.KnownBytes.{ReadConsumes};
ghost use Rattle.outside.specs.Cause.{HasCause, faults_after};
ghost use Rattle.outside.specs.Std.{reader_of, read_faults};

use crate::{Failed, Source};
use std::io::Read;

/// A source over a reader of std. It tells its bytes where the reader does.
#[derive(Drop)]
pub struct StdSource<R: Read + Drop> {
    inner: R,
    /// How many reads failed. It stands still at its type's end.
    faults: u64,
}

impl<R: Read + Drop> StdSource<R> {
    /// A source over this reader, with no fault so far.
    pub fn make(inner: R) -> StdSource<R>
        ensures reader { reader_of result ≡ inner }
        ensures faults { read_faults result ≡ 0 }
    {
        StdSource { inner, faults: 0 }
    }
}

impl<R: Read + Drop> Source for StdSource<R> {
    ghost left = { λ s. R.remaining s.inner };

    ghost faults = { λ s. s.faults };

    /// Reads once. Each `Err` of the reader is a fault, also of the kind `Interrupted`.
    fn read(&mut self, piece: &mut [u8]) -> Result<usize, Failed>
        ensures bound { ReadsAtMost result piece.new }
        ensures bytes { ReadConsumes (R.remaining (reader_of self.old))
            (R.remaining (reader_of self.new)) result piece.new }
        ensures cause { HasCause (read_faults self.old) (read_faults self.new) result }
        ensures counted { read_faults self.new ≡ faults_after (read_faults self.old) result }
    {
        match self.inner.read(piece) {
            Ok(count) => Ok(count),
            Err(_) => {
                self.faults = self.faults.saturating_add(1);
                Err(Failed)
            }
        }
    }
}

#[cfg(test)]
mod tests {
    use super::*;
    use crate::tests;
    use std::io::{self, Error, ErrorKind};
    use std::process::Abort;

    /// Fails at every other read, from the first on, and gives one byte at the others.
    #[derive(Drop)]
    struct Flaky {
        fails: bool,
    }

    impl Read for Flaky {
        fn read(&mut self, buf: &mut [u8]) -> io::Result<usize> {
            self.fails = !self.fails;
            if !self.fails {
                return Err(Error::from(ErrorKind::Interrupted));
            }
            match buf.first_mut() {
                None => Ok(0),
                Some(first) => {
                    *first = 7;
                    Ok(1)
                }
            }
        }
    }

    /// Reads into the piece, and asserts the answer and the count of faults.
    fn expect_counted<R: Read + Drop>(
        rt: &impl Abort,
        source: &mut StdSource<R>,
        piece: &mut [u8; 2],
        answer: Result<usize, Failed>,
        faults: u64,
    ) {
        tests::expect_read(rt, source, piece, answer);
        assert_eq!(rt; source.faults, faults);
    }

    /// How many bytes a read gives, and the piece behind it.
    const READS: [(usize, &[u8; 2]); 3] = [(2, b"oa"), (1, b"ka"), (0, b"ka")];

    #[test]
    fn gives_what_the_reader_gives(rt: HostRuntime) {
        let mut source = StdSource::make(b"oak".as_slice());
        let mut piece = [0u8; 2];
        for (count, bytes) in &READS {
            expect_counted(&rt, &mut source, &mut piece, Ok(*count), 0);
            assert!(rt; piece == **bytes);
        }
    }

    /// What a read answers, and how many reads failed so far.
    const FLAKY_READS: [(Result<usize, Failed>, u64); 4] = [
        (Err(Failed), 1),
        (Ok(1), 1),
        (Err(Failed), 2),
        (Ok(1), 2),
    ];

    #[test]
    fn counts_each_error_of_the_reader(rt: HostRuntime) {
        let mut source = StdSource::make(Flaky { fails: true });
        let mut piece = [0u8; 2];
        for (answer, faults) in &FLAKY_READS {
            expect_counted(&rt, &mut source, &mut piece, *answer, *faults);
        }
        source.faults = u64::MAX;
        expect_counted(&rt, &mut source, &mut piece, Err(Failed), u64::MAX);
    }
}
