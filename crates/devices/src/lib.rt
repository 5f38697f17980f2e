//! The real objects behind the traits of `td_base`, and a pair of listeners in memory for tests of
//! two threads. [`RealSource`] and [`RealSink`] are streams, [`RealStore`] the files of the system.
//! [`RealNetwork`], [`RealDoor`] and [`RealConn`] are a TCP listener with its connections,
//! [`RealUpstream`] is another server, [`RealSpawner`] starts threads. Contracts see only how many
//! of their calls failed (`specs/Opened.antt`, `specs/RealDoors.antt`).
//!
//! A listener keeps the connections that no worker serves. `stretches` decides about them, and
//! `specs/Flows.antt` says that no byte of one is lost or moved. [`gate_pair`] makes the listeners
//! in memory (`specs/Gates.antt`). `process_edge` and the program `tzdistd` call this crate.
#![tactic(auto)]

// Streams and files.
mod blocking;
mod real_sink;
mod real_source;
mod real_store;

// Threads.
mod real_spawner;

// One connection: its stream, what it holds, and a stretch of it.
mod incoming;
mod now;
mod outgoing;
mod real_conn;
mod socket;
mod unsent;
mod wire;

// The listeners at a TCP socket, and the connections that wait at them.
mod acceptor;
mod idle_connections;
mod listening;
mod passing;
mod real_door;
mod real_network;
mod shares;

// Another server, and one exchange with it.
mod exchanging;
mod patience;
mod real_upstream;

// Two listeners in memory, for tests of two threads.
mod gate_conn;
mod gate_door;
mod gate_state;
mod gates;

// What may move to another thread.
mod send_sync;

pub use acceptor::IDLE_ANSWER_MILLIS;
pub use blocking::Blocking;
pub use gate_conn::GateConn;
pub use gate_door::GateDoor;
pub use gates::gate_pair;
pub use idle_connections::MOST_HELD_OF_ALL;
pub use outgoing::{MOST_UNSENT, STRETCH_BYTES};
pub use patience::{EXCHANGE_SECONDS, PROGRESS_WAIT_SECONDS};
pub use real_conn::RealConn;
pub use real_door::{RealDoor, drain};
pub use real_network::{ListenFailure, RealNetwork};
pub use real_sink::RealSink;
pub use real_source::RealSource;
pub use real_spawner::RealSpawner;
pub use real_store::{LookFailure, RealStore};
pub use real_upstream::RealUpstream;
pub use shares::RESERVED_DESCRIPTORS;
pub use wire::LINGER_BYTES;
