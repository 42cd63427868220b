// Standard input, as a source.
ghost use Rattle.std.specs.Prelude.{◌≡◌, None};

use crate::tries::read_again;
use region_words::{Failed, Source};
use std::io::Input;

/// Standard input. It tells nothing of what is left.
#[derive(Drop)]
pub struct StdSource<R: Input> {
    reader: R::Reader,
    faults: u64,
    ends: u64,
}

impl<R: Input> StdSource<R> {
    /// No call has failed on it, and none has met its end.
    pub fn new(rt: &R) -> StdSource<R>
        ensures faults { result.faults ≡ 0 }
        ensures ends { result.ends ≡ 0 }
    {
        StdSource {
            reader: rt.reader(),
            faults: 0,
            ends: 0,
        }
    }
}

impl<R: Input> Source for StdSource<R> {
    ghost faults = { λ s. s.faults };

    ghost ends = { λ s. s.ends };

    ghost left = { λ s. None };

    fn read(&mut self, buffer: &mut [u8]) -> Result<usize, Failed> {
        match read_again(&mut self.reader, buffer) {
            Ok(n) => {
                if n == 0 && !buffer.is_empty() {
                    self.ends = self.ends.saturating_add(1);
                }
                Ok(n)
            }
            Err(_) => {
                self.faults = self.faults.saturating_add(1);
                Err(Failed)
            }
        }
    }
}

#[cfg(test)]
mod tests {
    use super::*;
    use crate::tries::MOST_TRIES;
    use std::alloc::Allocator;
    use std::io;
    use std::io::{BufRead, ErrorKind, Lines, Read};

    // An input of a few bytes, behind which it ends or is broken. So many of its first reads are interrupted.
    #[derive(Clone, Copy)]
    struct Typed {
        left: &'static [u8],
        broken: bool,
        interrupts: u32,
    }

    impl Read for Typed {
        fn read(&mut self, buf: &mut [u8]) -> io::Result<usize> {
            if let Some(left) = self.interrupts.checked_sub(1) {
                self.interrupts = left;
                return Err(io::Error::from(ErrorKind::Interrupted));
            }
            if self.left.is_empty() && self.broken {
                return Err(io::Error::from(ErrorKind::BrokenPipe));
            }
            self.left.read(buf)
        }
    }

    impl BufRead for Typed {
        fn fill_buf(&mut self) -> io::Result<&[u8]> {
            Ok(self.left)
        }

        fn consume(&mut self, amount: usize) {
            self.left.consume(amount);
        }
    }

    impl Input for Typed {
        type Reader = Typed;

        fn read_line<A: Allocator + Clone>(&self, _buf: &mut String<A>) -> io::Result<usize> {
            Err(io::Error::from(ErrorKind::Unsupported))
        }

        fn lines<A: Allocator>(&self, alloc: A) -> Lines<Typed, A> {
            BufRead::lines(*self, alloc)
        }

        fn reader(&self) -> Typed {
            *self
        }
    }

    // The next two bytes, over a buffer of dots.
    fn two_of(source: &mut StdSource<Typed>) -> Result<(usize, [u8; 2]), Failed> {
        let mut buffer = *b"..";
        let n = source.read(&mut buffer)?;
        Ok((n, buffer))
    }

    #[test]
    fn the_bytes_come_in_their_order_and_then_the_end(rt: HostRuntime) {
        let mut source = StdSource::new(&Typed {
            left: b"abc",
            broken: false,
            interrupts: 0,
        });
        for want in [(2, *b"ab"), (1, *b"c."), (0, *b"..")] {
            assert_eq!(rt; two_of(&mut source), Ok(want));
        }
        assert_eq!(rt; source.faults, 0);
        assert_eq!(rt; source.ends, 1);
    }

    #[test]
    fn each_read_of_a_broken_input_is_one_fault(rt: HostRuntime) {
        let mut source = StdSource::new(&Typed {
            left: b"a",
            broken: true,
            interrupts: 0,
        });
        assert_eq!(rt; two_of(&mut source), Ok((1, *b"a.")));
        for faults in [1, 2] {
            assert_eq!(rt; two_of(&mut source), Err(Failed));
            assert_eq!(rt; source.faults, faults);
        }
    }

    #[test]
    fn an_interrupted_read_is_made_again(rt: HostRuntime) {
        for (interrupts, want, faults) in [
            (MOST_TRIES - 1, Ok((1, *b"a.")), 0),
            (MOST_TRIES, Err(Failed), 1),
        ] {
            let mut source = StdSource::new(&Typed {
                left: b"a",
                broken: false,
                interrupts,
            });
            assert_eq!(rt; two_of(&mut source), want);
            assert_eq!(rt; source.faults, faults);
        }
    }
}
