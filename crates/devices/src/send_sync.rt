//! The types that cross threads may be sent.
use crate::{GateConn, GateDoor, RealConn, RealDoor};

fn is_sent<T: Send>() {}

fn types_are_sent<R: Send, S: Send>() {
    is_sent::<RealConn<S, R>>();
    is_sent::<RealDoor<R>>();
    is_sent::<GateConn>();
    is_sent::<GateDoor>();
}
