ghost use Rattle.std.specs.Prelude.{◌≡◌};
ghost use Rattle.stretches.specs.Shares.{accepts};

/// For how many milliseconds a listener with more than its share leaves new connections to others.
pub const GRACE_MILLIS: u64 = 2;

/// Whether a listener accepts a connection that has waited for so many milliseconds at the socket
/// of so many listeners. With no more than its share of all connections it accepts at once, else
/// only what no other took.
pub fn accepts(own: u32, all: u64, doors: u32, waited: u64) -> bool
    ensures { result ≡ accepts own all doors waited }
{
    u64::from(own) * u64::from(doors) <= all || waited >= GRACE_MILLIS
}
