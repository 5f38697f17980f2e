//! How long an exchange with another server may take.
use std::io;
use std::io::{Error, ErrorKind};
use std::time::{Clock, Duration, Instant};

/// For how many seconds an exchange waits for its peer to take or to send a byte.
pub const PROGRESS_WAIT_SECONDS: u64 = 10;

/// For how many seconds an exchange lasts at most.
pub const EXCHANGE_SECONDS: u64 = 60;

/// The time since an exchange began.
#[derive(Drop)]
pub struct Patience {
    since: Instant,
}

impl Patience {
    /// An exchange that begins now.
    pub fn from_now<R: Clock>(rt: &R) -> io::Result<Patience> {
        let since = Instant::now(rt)?;
        Ok(Patience { since })
    }

    /// For how long the next call may wait. It fails once the exchange took all its time.
    pub fn left<R: Clock>(&self, rt: &R) -> io::Result<Duration> {
        let whole = Duration::from_secs(EXCHANGE_SECONDS);
        match whole.checked_sub(self.since.elapsed(rt)?) {
            Some(left) if left > Duration::ZERO => {
                Ok(left.min(Duration::from_secs(PROGRESS_WAIT_SECONDS)))
            }
            _ => Err(Error::from(ErrorKind::TimedOut)),
        }
    }
}
