//! The objects in memory over which a case runs.
ghost use Rattle.std.specs.Prelude.{◌≡◌, ◌<◌, IfOk, []};
ghost use Rattle.run_plans.specs.Doors.{IsNew, IsUnaskedDoor};
ghost use Rattle.td_base.specs.MemoryDoors.{IsFresh};
ghost use Rattle.td_base.specs.MemoryNetworks.{TellsNone};
ghost use Rattle.td_base.specs.MemoryUpstreams.{faulty_upstream, memory_upstream};

use crate::plan::{ConnPlan, DoorPlan, NetworkPlan, StepPlan, UpstreamPlan};
use std::alloc::Global;
use td_base::{
    Bytes, Faulty, FaultyConn, FaultyDoor, Items, MemoryConn, MemoryDoor, MemoryNetwork,
    MemorySink, MemorySource, MemoryStore, MemoryUpstream, NoMemory,
};

/// A file of the store.
#[derive(Drop)]
pub struct File {
    pub path: Vec<u8>,
    pub bytes: Vec<u8>,
}

/// The most bytes of each call.
#[derive(Clone, Copy)]
pub struct Sizes {
    pub read: usize,
    pub write: usize,
}

/// Room for the longest output, in bytes.
pub const ROOM: usize = 400_000;

/// For how many writes to a connection their size is limited.
const SMALL_WRITES: usize = 10_000;

/// A store of the files.
pub fn store_of(alloc: Global, files: &[File]) -> Result<MemoryStore, NoMemory> {
    let mut store = MemoryStore::new(alloc);
    for file in files {
        put(alloc, &mut store, file)?;
    }
    Ok(store)
}

fn put(alloc: Global, store: &mut MemoryStore, file: &File) -> Result<(), NoMemory> {
    let path = Bytes::from_slice(alloc, file.path.as_slice())?;
    let bytes = Bytes::from_slice(alloc, file.bytes.as_slice())?;
    store.put(path, bytes)
}

/// A source of these bytes, whose first read gives this many.
pub fn source_of(
    alloc: Global,
    bytes: &[u8],
    first: usize,
    size: usize,
) -> Result<MemorySource, NoMemory>
    ensures { IfOk result (λ source. source.given ≡ []) }
{
    let sizes = piece_sizes(alloc, first, size, bytes.len())?;
    let bytes = Bytes::from_slice(alloc, bytes)?;
    Ok(MemorySource::in_pieces(bytes, sizes))
}

/// A sink with this much room, which takes at most `size` bytes in each of its first `writes`
/// calls.
pub fn sink_of(
    alloc: Global,
    room: usize,
    size: usize,
    writes: usize,
) -> Result<MemorySink, NoMemory>
    ensures { IfOk result (λ sink. sink.taken ≡ []) }
{
    let pieces = piece_sizes(alloc, size, size, writes)?;
    MemorySink::in_pieces(alloc, room, pieces)
}

/// A door in which chosen calls fail.
pub type CaseDoor = FaultyDoor<MemoryDoor>;

/// An upstream in which chosen exchanges fail.
pub type CaseUpstream = Faulty<MemoryUpstream>;

/// A network of doors and upstreams.
pub fn network_of(
    alloc: Global,
    plan: &NetworkPlan,
    sizes: Sizes,
) -> Result<MemoryNetwork<CaseDoor, CaseUpstream>, NoMemory> {
    let mut network = MemoryNetwork::new(alloc);
    for door in plan.doors.as_slice() {
        push_door(alloc, &mut network, door, sizes)?;
    }
    for upstream in plan.upstreams.as_slice() {
        push_upstream(alloc, &mut network, upstream)?;
    }
    Ok(network)
}

fn push_door(
    alloc: Global,
    network: &mut MemoryNetwork<CaseDoor, CaseUpstream>,
    plan: &DoorPlan,
    sizes: Sizes,
) -> Result<(), NoMemory> {
    let door = door_of(alloc, plan, sizes)?;
    network.push(door)
}

fn push_upstream(
    alloc: Global,
    network: &mut MemoryNetwork<CaseDoor, CaseUpstream>,
    plan: &UpstreamPlan,
) -> Result<(), NoMemory> {
    let upstream = upstream_of(alloc, plan)?;
    network.push_upstream(upstream)
}

fn upstream_of(alloc: Global, plan: &UpstreamPlan) -> Result<CaseUpstream, NoMemory>
    ensures { IfOk result (λ upstream. TellsNone
        (faulty_upstream memory_upstream upstream)) }
{
    let failing = calls(alloc, &plan.failing)?;
    let upstream = with_answers(alloc, plan)?;
    Ok(Faulty::new(upstream, failing))
}

/// An upstream in which no exchange fails.
fn with_answers(alloc: Global, plan: &UpstreamPlan) -> Result<MemoryUpstream, NoMemory>
    ensures { IfOk result (λ upstream. upstream.told ≡ []) }
{
    let mut upstream = MemoryUpstream::new(alloc);
    for answer in plan.answers.as_slice() {
        upstream.push(Bytes::from_slice(alloc, answer.as_slice())?)?;
    }
    Ok(upstream)
}

fn door_of(alloc: Global, plan: &DoorPlan, sizes: Sizes) -> Result<CaseDoor, NoMemory>
    ensures { IfOk result IsNew }
{
    let failing = calls(alloc, &plan.failing)?;
    let door = with_steps(alloc, plan, sizes)?;
    Ok(FaultyDoor::new(door, failing))
}

/// A door in which no call fails.
fn with_steps(alloc: Global, plan: &DoorPlan, sizes: Sizes) -> Result<MemoryDoor, NoMemory>
    ensures { IfOk result IsUnaskedDoor }
{
    let mut door = MemoryDoor::new(alloc, plan.steps.len())?;
    for step in plan.steps.as_slice() {
        push_step(alloc, &mut door, step, sizes)?;
    }
    Ok(door)
}

/// Adds a step to a door that has room for it.
fn push_step(
    alloc: Global,
    door: &mut MemoryDoor,
    step: &StepPlan,
    sizes: Sizes,
) -> Result<(), NoMemory>
    ensures { IsUnaskedDoor door.old → IsUnaskedDoor door.new }
{
    match step {
        StepPlan::Conn(conn) if door.room() > 0 => push_conn(alloc, door, conn, sizes),
        StepPlan::Conn(_) => Ok(()),
        StepPlan::Idle => door.push_idle(),
    }
}

/// Adds a connection to a door that has room for it.
fn push_conn(
    alloc: Global,
    door: &mut MemoryDoor,
    plan: &ConnPlan,
    sizes: Sizes,
) -> Result<(), NoMemory>
    requires room { 0 < door.old.room }
    ensures { IsUnaskedDoor door.old → IsUnaskedDoor door.new }
{
    let conn = conn_of(alloc, plan, sizes)?;
    door.push_conn(conn)
}

fn conn_of(alloc: Global, plan: &ConnPlan, sizes: Sizes) -> Result<FaultyConn<MemoryConn>, NoMemory>
    ensures { IfOk result IsFresh }
{
    let conn = sound_conn(alloc, plan, sizes)?;
    let (reads, writes) = failing_calls(alloc, plan)?;
    Ok(FaultyConn::new(conn, reads, writes))
}

/// The numbers of the reads and of the writes that must fail.
fn failing_calls(alloc: Global, plan: &ConnPlan) -> Result<(Items<u64>, Items<u64>), NoMemory> {
    let reads = calls(alloc, &plan.reads_failing)?;
    Ok((reads, calls(alloc, &plan.writes_failing)?))
}

/// A connection in which no call fails.
fn sound_conn(alloc: Global, plan: &ConnPlan, sizes: Sizes) -> Result<MemoryConn, NoMemory>
    ensures given { IfOk result (λ conn. conn.source.given ≡ []) }
    ensures taken { IfOk result (λ conn. conn.sink.taken ≡ []) }
{
    let sink = sink_of(alloc, ROOM, sizes.write, SMALL_WRITES)?;
    let source = source_of(alloc, plan.input.as_slice(), sizes.read, sizes.read)?;
    Ok(MemoryConn::new(source, sink))
}

/// The numbers of the calls that must fail.
pub fn calls(alloc: Global, numbers: &Vec<u64>) -> Result<Items<u64>, NoMemory> {
    Ok(Items::from(Vec::from_slice(alloc, numbers.as_slice())?))
}

/// These numbers of calls, and a further one.
pub fn calls_with(
    alloc: Global,
    numbers: &Vec<u64>,
    further: Option<usize>,
) -> Result<Items<u64>, NoMemory> {
    let mut calls = calls(alloc, numbers)?;
    if let Some(number) = further {
        calls.push(number as u64)?;
    }
    Ok(calls)
}

/// The first size, then one small size for each byte, if small sizes are requested.
pub fn piece_sizes(
    alloc: Global,
    first: usize,
    size: usize,
    bytes: usize,
) -> Result<Items<usize>, NoMemory> {
    let mut sizes = Items::new(alloc);
    sizes.push(first)?;
    if size < bytes {
        for _ in 0..bytes {
            sizes.push(size)?;
        }
    }
    Ok(sizes)
}
