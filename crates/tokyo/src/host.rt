//! The real clock. It tells nothing of content.
ghost use Rattle.std.specs.Prelude.{None};

use std::rt;
use std::time::SystemTime;
use tc_io::Clock;

/// The machine's clock: microseconds since 1970, and 0 where it can't be read.
#[derive(Drop)]
pub struct HostClock<'a, R> {
    rt: &'a R,
}

impl<'a, R: rt::Clock> HostClock<'a, R> {
    pub fn new(rt: &'a R) -> HostClock<'a, R> {
        HostClock { rt }
    }
}

impl<'a, R: rt::Clock> Clock for HostClock<'a, R> {
    ghost answers = { λ _. None };

    fn now(&mut self) -> u64 {
        let Ok(time) = SystemTime::now(self.rt) else {
            return 0;
        };
        let Ok(since) = time.duration_since(SystemTime::UNIX_EPOCH) else {
            return 0;
        };
        u64::try_from(since.as_micros()).unwrap_or(u64::MAX)
    }
}
