ghost use Rattle.std.specs.Prelude.{◌≡◌};
ghost use Rattle.stretches.specs.Failures.{after_failure, is_broken};

/// Within how many milliseconds failures of a listener are counted together.
pub const FAILURE_WINDOW_MILLIS: u64 = 10_000;

/// How many failures within that time break a listener.
pub const MOST_WINDOW_FAILURES: u32 = 16;

/// The failures of a listener. Only those within a short time count, so that passing ones do no
/// harm, however long it serves.
#[derive(Clone, Copy, PartialEq, Eq)]
pub struct FailureWindow {
    /// The time of the first failure that is counted, in milliseconds, and how many are counted.
    pub since: u64,
    pub count: u32,
}

impl FailureWindow {
    /// Nothing has failed yet.
    pub const NONE: FailureWindow = FailureWindow { since: 0, count: 0 };

    /// Whether too many came within the time. The listener then stays broken.
    pub fn is_broken(self) -> bool
        ensures { result ≡ is_broken self }
    {
        self.count >= MOST_WINDOW_FAILURES
    }

    /// Counts a failure at this time, in milliseconds.
    pub fn fail(&mut self, now: u64)
        ensures { self.new ≡ after_failure self.old now }
    {
        if self.is_broken() {
            return;
        }
        if self.count == 0 || now.saturating_sub(self.since) >= FAILURE_WINDOW_MILLIS {
            self.since = now;
            self.count = 1;
        } else {
            self.count += 1;
        }
    }
}
