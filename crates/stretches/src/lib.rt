//! What a listener decides about connections that no worker serves. A worker gets a connection for
//! a *stretch* of whole heads, and so waits for no peer. [`Intake`] says which received bytes may
//! be given in it, [`turn_limit`] and [`WorkerTurn`] when it ends by the clock, [`fate_after`] what
//! becomes of the connection then. [`Shared`] says which queue is served next, [`is_costly`] and
//! [`is_long_turn`] what waits in the queue of costly requests. [`Life`] says how long a connection
//! may rest, [`Timeouts`] which one is closed when descriptors or memory run short.
//! [`FailureWindow`] says when a listener is broken, [`accepts`] which of several takes a new
//! connection.
//!
//! It stands on `http_request`, which finds the end of a head; `devices` calls it. Nothing here
//! waits or calls the system.
#![tactic(auto)]

// What was received, and what may be given of it.
mod intake;
mod looking;

// What becomes of a connection, how long it rests, and which one is closed for another.
mod fate;
mod life;
mod timeouts;

// When a turn ends, and which connection has the next.
mod costs;
mod queues;
mod turn;

// When failures break a listener.
mod failing;

// Which listener takes a new connection.
mod share;

// Laws, and what may cross threads.
mod laws;
mod send_sync;

pub use costs::{MOST_QUICK_SLASHES, is_costly};
pub use failing::{FAILURE_WINDOW_MILLIS, FailureWindow, MOST_WINDOW_FAILURES};
pub use fate::{Fate, fate_after};
pub use intake::Intake;
pub use laws::{fronts_stay, loses_nothing, none_starves, ready_is_answered};
pub use life::{
    HEAD_MILLIS, IDLE_MILLIS, LINGER_MILLIS, Life, PROGRESS_MILLIS, Phase, STALLED_MILLIS,
};
pub use looking::{Look, look_at};
pub use queues::{Queue, Shared, Waiting};
pub use share::{GRACE_MILLIS, accepts};
pub use timeouts::Timeouts;
pub use turn::{
    FIRST_TURN_MICROS, LONG_TURN_MICROS, ROUND_MICROS, SHORT_TURN_MICROS, WorkerTurn, is_long_turn,
    turn_limit,
};

#[cfg(test)]
mod tests;
