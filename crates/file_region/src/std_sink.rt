// Standard output, as a sink.
ghost use Rattle.std.specs.Prelude.{◌≡◌, ◌≤◌, None};
ghost use Rattle.region_words.specs.Outside.{Rose};

use crate::tries::write_again;
use region_words::{Failed, Sink};

/// Standard output. It tells nothing of what was written.
#[derive(Drop)]
pub struct StdSink<'a, R: Print> {
    rt: &'a R,
    faults: u64,
}

impl<'a, R: Print> StdSink<'a, R> {
    /// No call has failed on it.
    pub fn new(rt: &'a R) -> StdSink<'a, R>
        ensures { result.faults ≡ 0 }
    {
        StdSink { rt, faults: 0 }
    }
}

impl<R: Print> Sink for StdSink<'_, R> {
    ghost faults = { λ s. s.faults };

    ghost written = { λ s. None };

    fn write(&mut self, piece: &[u8]) -> Result<usize, Failed> {
        match write_again(self.rt, piece) {
            Ok(n) if n > 0 || piece.is_empty() => Ok(n),
            _ => {
                self.faults = self.faults.saturating_add(1);
                Err(Failed)
            }
        }
    }
}

#[cfg(test)]
mod tests {
    use super::*;
    use crate::tries::MOST_TRIES;
    use std::cell::{Cell, RefCell};
    use std::fmt::Display;
    use std::io;
    use std::io::{Error, ErrorKind};

    // An output that takes two bytes at a time and holds no more than three, or is broken. So many of its first writes
    // are interrupted.
    #[derive(Drop)]
    struct Tape {
        held: RefCell<Vec<u8>>,
        broken: bool,
        interrupts: Cell<u32>,
    }

    impl Print for Tape {
        fn print<D: Display + Drop>(&self, _value: D) -> io::Result<()> {
            Err(Error::from(ErrorKind::Unsupported))
        }

        fn println<D: Display + Drop>(&self, _value: D) -> io::Result<()> {
            Err(Error::from(ErrorKind::Unsupported))
        }

        fn write_all(&self, _bytes: &[u8]) -> io::Result<()> {
            Err(Error::from(ErrorKind::Unsupported))
        }

        fn write_some(&self, bytes: &[u8]) -> io::Result<usize> {
            let Ok(mut held) = self.held.try_borrow_mut() else {
                return Err(Error::from(ErrorKind::ResourceBusy));
            };
            if let Some(left) = self.interrupts.get().checked_sub(1) {
                self.interrupts.set(left);
                return Err(Error::from(ErrorKind::Interrupted));
            }
            if self.broken {
                return Err(Error::from(ErrorKind::BrokenPipe));
            }
            let room = 3usize.saturating_sub(held.len());
            let taken = bytes.len().min(room).min(2);
            held.extend_from_slice(&bytes[..taken])?;
            Ok(taken)
        }
    }

    fn blank_tape(rt: &impl AllocGlobal, broken: bool, interrupts: u32) -> Tape {
        Tape {
            held: RefCell::new(Vec::new(rt.alloc())),
            broken,
            interrupts: Cell::new(interrupts),
        }
    }

    #[test]
    fn a_piece_of_which_nothing_is_taken_is_a_fault(rt: HostRuntime) {
        let tape = blank_tape(&rt, false, 0);
        let mut sink = StdSink::new(&tape);
        for (piece, want, faults) in [
            (&b"abc"[..], Ok(2), 0),
            (b"", Ok(0), 0),
            (b"cd", Ok(1), 0),
            (b"d", Err(Failed), 1),
            (b"", Ok(0), 1),
            (b"d", Err(Failed), 2),
        ] {
            assert_eq!(rt; sink.write(piece), want, "for {piece:?}");
            assert_eq!(rt; sink.faults, faults, "for {piece:?}");
        }
        assert_eq!(rt; tape.held.into_inner().as_slice(), b"abc".as_slice());
    }

    #[test]
    fn each_write_to_a_broken_output_is_one_fault(rt: HostRuntime) {
        let tape = blank_tape(&rt, true, 0);
        let mut sink = StdSink::new(&tape);
        for (piece, faults) in [(&b"a"[..], 1), (b"", 2)] {
            assert_eq!(rt; sink.write(piece), Err(Failed));
            assert_eq!(rt; sink.faults, faults);
        }
    }

    #[test]
    fn an_interrupted_write_is_made_again(rt: HostRuntime) {
        let tape = blank_tape(&rt, false, MOST_TRIES - 1);
        let mut sink = StdSink::new(&tape);
        assert_eq!(rt; sink.write(b"abc"), Ok(2));
        assert_eq!(rt; sink.faults, 0);
        tape.interrupts.set(MOST_TRIES);
        assert_eq!(rt; sink.write(b"c"), Err(Failed));
        assert_eq!(rt; sink.faults, 1);
        assert_eq!(rt; sink.write(b"c"), Ok(1));
    }
}
