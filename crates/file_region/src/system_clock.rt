// The system's clock, as a clock of seconds.
ghost use Rattle.std.specs.Prelude.{◌≡◌, ◌-◌, ◌^◌, min};

use region_words::Clock;
use std::time;

/// The clock of the system. A moment before 1970, or one that the system doesn't give, counts as 0; one past the last
/// second that 32 bits can count, as that second.
#[derive(Drop)]
pub struct SystemClock<'a, R: time::Clock> {
    rt: &'a R,
    last: u32,
}

impl<'a, R: time::Clock> SystemClock<'a, R> {
    /// It gave no moment yet.
    pub fn new(rt: &'a R) -> SystemClock<'a, R>
        ensures { result.last ≡ 0 }
    {
        SystemClock { rt, last: 0 }
    }
}

impl<R: time::Clock> Clock for SystemClock<'_, R> {
    ghost last = { λ c. c.last };

    fn now(&mut self) -> u32 {
        self.last = match self.rt.since_1970() {
            Ok(since) => cut(since.as_secs()),
            Err(_) => 0,
        };
        self.last
    }
}

// As far as 32 bits can count.
fn cut(seconds: u64) -> u32
    ensures { result ≡ min seconds (2 ^ 32 - 1) }
{
    u32::try_from(seconds).unwrap_or(u32::MAX)
}

#[cfg(test)]
mod tests {
    use super::*;
    use std::io;
    use std::io::ErrorKind;
    use std::time::Duration;

    // A clock of the system that says this, if anything.
    #[derive(Clone, Copy)]
    struct Dial(Option<u64>);

    impl time::Clock for Dial {
        fn monotonic(&self) -> io::Result<Duration> {
            Err(io::Error::from(ErrorKind::Unsupported))
        }

        fn since_1970(&self) -> io::Result<Duration> {
            match self.0 {
                Some(secs) => Ok(Duration::new(secs, 999_999_999)),
                None => Err(io::Error::from(ErrorKind::InvalidData)),
            }
        }
    }

    #[test]
    fn whole_seconds_are_counted_as_far_as_32_bits_go(rt: HostRuntime) {
        for (says, want) in [
            (Some(0), 0),
            (Some(1_764_657_600), 1_764_657_600),
            (Some(u64::from(u32::MAX)), u32::MAX),
            (Some(1 << 32), u32::MAX),
            (Some(u64::MAX), u32::MAX),
            (None, 0),
        ] {
            let dial = Dial(says);
            let mut clock = SystemClock::new(&dial);
            assert_eq!(rt; clock.now(), want, "at {says:?}");
        }
    }

    // 2025-01-01, and 2100-01-01.
    #[test]
    fn the_systems_own_clock_is_set(rt: HostRuntime) {
        let mut clock = SystemClock::new(&rt);
        let now = clock.now();
        assert!(rt; now > 1_735_689_600);
        assert!(rt; now < 4_102_444_800);
    }
}
