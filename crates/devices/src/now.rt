use std::time::Duration;

/// A moment of a listener: the time by its clock in milliseconds, and the number of a turn. Each
/// poll, accept and returned connection has the next number, so that turns within one millisecond
/// have an order.
#[derive(Clone, Copy)]
pub struct Now {
    pub millis: u64,
    pub turn: u64,
}

/// The processor time of this thread in microseconds, if the system reports it.
pub fn thread_micros() -> Option<u64> {
    let mut time = libc::types::timespec {
        tv_sec: 0,
        tv_nsec: 0,
    };
    if libc::clock_gettime(libc::CLOCK_THREAD_CPUTIME_ID, &mut time) != 0 {
        return None;
    }
    let seconds = u64::try_from(time.tv_sec).ok()?;
    let nanos = u64::try_from(time.tv_nsec).ok()?;
    Some(
        seconds
            .saturating_mul(1_000_000)
            .saturating_add(nanos / 1_000),
    )
}

/// A reading of a clock in microseconds.
pub fn micros(time: Duration) -> u64 {
    u64::try_from(time.as_micros()).unwrap_or(u64::MAX)
}
