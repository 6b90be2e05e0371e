//! A sink over any writer of std.
ghost use Rattle.std.specs.Prelude.{◌≡◌};
ghost use Rattle.outside.specs.Cause.{HasCause, faults_after};
ghost use Rattle.outside.specs.Std.{writer_of, write_faults};
ghost use Rattle.outside.specs.Taken.{WriteTakes};

use crate::{Failed, Sink};
use std::io::Write;

/// A sink over a writer of std. It tells its bytes where the writer does.
#[derive(Drop)]
pub struct StdSink<W: Write + Drop> {
    inner: W,
    /// How many writes failed. It stands still at its type's end.
    faults: u64,
}

impl<W: Write + Drop> StdSink<W> {
    /// A sink over this writer, with no fault so far.
    pub fn make(inner: W) -> StdSink<W>
        ensures writer { writer_of result ≡ inner }
        ensures faults { write_faults result ≡ 0 }
    {
        StdSink { inner, faults: 0 }
    }
}

impl<W: Write + Drop> Sink for StdSink<W> {
    ghost written = { λ s. W.contents s.inner };

    ghost faults = { λ s. s.faults };

    /// Writes once, and does not flush. Each `Err` of the writer is a fault, and so is an answer of
    /// 0 for a piece that is not empty.
    fn write(&mut self, piece: &[u8]) -> Result<usize, Failed>
        ensures bytes { WriteTakes (W.contents (writer_of self.old))
            (W.contents (writer_of self.new)) result piece.now }
        ensures cause { HasCause (write_faults self.old) (write_faults self.new) result }
        ensures counted { write_faults self.new ≡ faults_after (write_faults self.old) result }
    {
        match self.inner.write(piece) {
            Ok(count) if count > 0 || piece.is_empty() => Ok(count),
            _ => {
                self.faults = self.faults.saturating_add(1);
                Err(Failed)
            }
        }
    }
}

#[cfg(test)]
mod tests {
    use super::*;
    use crate::tests;
    use std::io::{self, Error, ErrorKind};
    use std::process::Abort;
    use std::test::Fail;

    /// Takes one byte of a piece, then none, then fails, and so on.
    #[derive(Drop)]
    struct Flaky {
        turn: u8,
    }

    impl Write for Flaky {
        fn write(&mut self, buf: &[u8]) -> io::Result<usize> {
            self.turn = (self.turn % 3) + 1;
            match self.turn {
                1 => Ok(buf.len().min(1)),
                2 => Ok(0),
                _ => Err(Error::from(ErrorKind::BrokenPipe)),
            }
        }

        fn flush(&mut self) -> io::Result<()> {
            Ok(())
        }
    }

    /// Writes the piece, and asserts the answer and the count of faults.
    fn expect_counted<W: Write + Drop>(
        rt: &impl Abort,
        sink: &mut StdSink<W>,
        piece: &str,
        answer: Result<usize, Failed>,
        faults: u64,
    ) {
        tests::expect_write(rt, sink, piece, answer);
        assert_eq!(rt; sink.faults, faults);
    }

    #[test]
    fn hands_the_bytes_to_the_writer(rt: HostRuntime) -> Result<(), Fail> {
        let mut sink = StdSink::make(Vec::new(rt.alloc()));
        expect_counted(&rt, &mut sink, "oak", Ok(3), 0);
        expect_counted(&rt, &mut sink, "", Ok(0), 0);
        expect_counted(&rt, &mut sink, " 1", Ok(2), 0);
        assert_eq!(rt; sink.inner.as_slice(), b"oak 1".as_slice());
        Ok(())
    }

    /// A piece, what its write answers, and how many writes failed so far.
    const WRITES: [(&str, Result<usize, Failed>, u64); 5] = [
        ("oak", Ok(1), 0),
        ("oak", Err(Failed), 1),
        ("oak", Err(Failed), 2),
        ("oak", Ok(1), 2),
        ("", Ok(0), 2),
    ];

    #[test]
    fn counts_each_error_and_each_write_of_nothing(rt: HostRuntime) {
        let mut sink = StdSink::make(Flaky { turn: 0 });
        for (piece, answer, faults) in &WRITES {
            expect_counted(&rt, &mut sink, piece, *answer, *faults);
        }
    }
}
