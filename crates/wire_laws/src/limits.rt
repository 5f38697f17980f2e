//! The limits of sockets, each with its number.
ghost use Rattle.std.specs.Prelude.{◌≡◌, pos};
ghost use Rattle.devices.specs.declared.listening.TheConstants as listening;
ghost use Rattle.devices.specs.declared.outgoing.TheConstants as outgoing;
ghost use Rattle.devices.specs.declared.patience.TheConstants as patience;
ghost use Rattle.devices.specs.declared.idle_connections.TheConstants as idle;
ghost use Rattle.devices.specs.declared.shares.TheConstants as shares;
ghost use Rattle.devices.specs.declared.wire.TheConstants as wire;

/// The limits of sockets, in bytes, counts and seconds: what is held for one peer and for all, what
/// ends a batch, what is read after a close, and how long an exchange of a mirror may take. Fails
/// if one of them gets another number.
pub fn socket_limits_are_these()
    ensures unsent_bytes { outgoing.MOST_UNSENT ≡ 8388608 }
    ensures batch_bytes { outgoing.STRETCH_BYTES ≡ 1048576 }
    ensures lingering_bytes { wire.LINGER_BYTES ≡ 1048576 }
    ensures held_bytes_of_all { idle.MOST_HELD_OF_ALL ≡ 67108864 }
    ensures waiting_connections { listening.MOST_WAITING ≡ pos 4096 }
    ensures reserved_descriptors { shares.RESERVED_DESCRIPTORS ≡ 64 }
    ensures seconds_without_progress { patience.PROGRESS_WAIT_SECONDS ≡ 10 }
    ensures seconds_of_an_exchange { patience.EXCHANGE_SECONDS ≡ 60 }
{}
