//! The types of this crate are `Send` and `Sync`; generic ones are when their parts are.
use crate::{
    Accepted, Ask, Begin, Bytes, Door, DoorAnswer, DoorStep, End, Exchange, Exchanged, Faulty,
    FaultyConn, FaultyDoor, FileRead, HandedBackConn, Items, Made, MemoryConn, MemoryDoor,
    MemoryNetwork, MemorySink, MemorySource, MemorySpawner, MemoryStore, MemoryUpstream, NoMemory,
    Opened, Places, ReadStep, Report, Role, ShortText, SourceFault, Token, Upstream, WriteStep,
    Written,
};

fn is_shared<T: Send + Sync>() {}

fn types_are_shared() {
    is_shared::<Bytes>();
    is_shared::<Token>();
    is_shared::<NoMemory>();
    is_shared::<SourceFault>();
    is_shared::<ReadStep>();
    is_shared::<WriteStep>();
    is_shared::<FileRead>();
    is_shared::<Written>();
    is_shared::<End>();
    is_shared::<Places>();
    is_shared::<Report>();
    is_shared::<Role>();
    is_shared::<Ask>();
    is_shared::<MemorySource>();
    is_shared::<MemorySink>();
    is_shared::<MemoryStore>();
    is_shared::<MemoryConn>();
    is_shared::<DoorAnswer>();
    is_shared::<DoorStep>();
    is_shared::<HandedBackConn>();
    is_shared::<MemoryDoor>();
    is_shared::<Opened>();
    is_shared::<MemorySpawner>();
    is_shared::<Begin>();
    is_shared::<Exchange>();
    is_shared::<Exchanged>();
    is_shared::<MemoryUpstream>();
}

fn generic_types_are_shared<T: Send + Sync, const N: usize>() {
    is_shared::<Items<T>>();
    is_shared::<ShortText<N>>();
    is_shared::<Faulty<T>>();
    is_shared::<FaultyConn<T>>();
    is_shared::<FaultyDoor<T>>();
    is_shared::<Accepted<T>>();
    is_shared::<Made<T>>();
}

fn networks_are_shared<D: Door + Send + Sync, U: Upstream + Send + Sync>() {
    is_shared::<MemoryNetwork<D, U>>();
}
