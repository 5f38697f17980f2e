//! The objects in memory over which a case runs.
ghost use Rattle.std.specs.Prelude.{map};
ghost use Rattle.admission.specs.Rules.{KeepsAll};
ghost use Rattle.subscribers.specs.Wishes.{WantsAll};

use admission::Kept;
use run_plans::{
    Case, CaseDoor, CaseUpstream, ConnEnd, DoorEnd, File, PastExchange, RunResult, Trial,
    WatchedNetwork, WatchedSpawner, calls, network_of, store_of,
};
use std::alloc::Global;
use std::sync::Wait;
use std::thread::Threads;
use subscribers::Want;
use td_base::{
    Bytes, Door, Exchange, Faulty, HandedBackConn, MemoryDoor, MemoryNetwork, MemorySink,
    MemorySource, MemorySpawner, MemoryStore, Network, NoMemory, Sink, Source, Spawner, Store,
};
use td_top::Outcome;

type CaseNetwork = WatchedNetwork<Faulty<MemoryNetwork<CaseDoor, CaseUpstream>>>;

/// Runs a case over the files.
pub fn run<R: Threads + Wait + Copy + Send + 'static>(
    rt: &R,
    alloc: Global,
    kept: &[Kept],
    wants: &[Want],
    files: &[File],
    case: &Case,
    trial: Trial,
) -> Result<RunResult, NoMemory>
    requires rules { KeepsAll (map (λ k. k.kind) kept.now) }
    requires wants { WantsAll (map (λ w. w.kind) wants.now) }
{
    let mut stage = RunStage::new(alloc, case, files, trial)?;
    let outcome = stage.play(rt, alloc, case.words.as_slice(), kept, wants);
    stage.result(alloc, &outcome)
}

/// The objects of a run.
#[derive(Drop)]
struct RunStage {
    store: Faulty<MemoryStore>,
    streams: Streams,
    peers: Peers,
}

/// The streams of a run.
#[derive(Drop)]
struct Streams {
    input: Faulty<MemorySource>,
    output: Faulty<MemorySink>,
}

/// What a run reaches by the network, and what starts its works.
#[derive(Drop)]
struct Peers {
    network: CaseNetwork,
    spawner: WatchedSpawner<Faulty<MemorySpawner>>,
}

impl Streams {
    fn new(alloc: Global, case: &Case, trial: Trial) -> Result<Streams, NoMemory> {
        let input = case.source(alloc, trial)?;
        Ok(Streams {
            input,
            output: case.sink(alloc, trial)?,
        })
    }
}

impl Peers {
    fn new(alloc: Global, case: &Case) -> Result<Peers, NoMemory> {
        let spawner = spawner(alloc, case)?;
        Ok(Peers {
            network: network(alloc, case)?,
            spawner,
        })
    }
}

impl RunStage {
    /// The objects of a run of a case over the files.
    fn new(alloc: Global, case: &Case, files: &[File], trial: Trial) -> Result<RunStage, NoMemory> {
        let store = store(alloc, case, files)?;
        let streams = Streams::new(alloc, case, trial)?;
        Ok(RunStage {
            store,
            streams,
            peers: Peers::new(alloc, case)?,
        })
    }

    /// Runs the top call over them.
    fn play<R: Threads + Wait + Copy + Send + 'static>(
        &mut self,
        rt: &R,
        alloc: Global,
        words: &[Bytes],
        kept: &[Kept],
        wants: &[Want],
    ) -> Outcome<CaseDoor, CaseUpstream>
        requires rules { KeepsAll (map (λ k. k.kind) kept.now) }
        requires wants { WantsAll (map (λ w. w.kind) wants.now) }
    {
        top_call(
            rt,
            alloc,
            words,
            kept,
            wants,
            &mut self.store,
            &mut self.streams.input,
            &mut self.streams.output,
            &mut self.peers.network,
            &mut self.peers.spawner,
        )
    }

    /// How the run ended. It takes the requests that the network recorded.
    fn result(
        &mut self,
        alloc: Global,
        outcome: &Outcome<CaseDoor, CaseUpstream>,
    ) -> Result<RunResult, NoMemory> {
        let output = Vec::from_slice(alloc, self.streams.output.inner().taken())?;
        let exchanges = exchanges_of(alloc, &outcome.up)?;
        let doors = ends_of(alloc, outcome.doors.as_slice())?;
        let calls = self.peers.network.take_calls(alloc);
        Ok(RunResult {
            status: outcome.status,
            output,
            begun: self.peers.spawner.starts(),
            asked: calls.asked,
            reached: calls.reached,
            doors,
            exchanges,
        })
    }
}

fn store(alloc: Global, case: &Case, files: &[File]) -> Result<Faulty<MemoryStore>, NoMemory> {
    let failing = calls(alloc, &case.store_failing)?;
    Ok(Faulty::new(store_of(alloc, files)?, failing))
}

fn network(alloc: Global, case: &Case) -> Result<CaseNetwork, NoMemory> {
    let failing = calls(alloc, &case.network.failing)?;
    let network = network_of(alloc, &case.network, case.sizes)?;
    Ok(WatchedNetwork::new(alloc, Faulty::new(network, failing)))
}

fn spawner(alloc: Global, case: &Case) -> Result<WatchedSpawner<Faulty<MemorySpawner>>, NoMemory> {
    let failing = calls(alloc, &case.spawner_failing)?;
    Ok(WatchedSpawner::new(Faulty::new(MemorySpawner::new(), failing)))
}

/// The ends of the doors that were handed back.
fn ends_of(alloc: Global, doors: &[CaseDoor]) -> Result<Vec<DoorEnd>, NoMemory> {
    let mut ends = Vec::new(alloc);
    for door in doors {
        push_end(alloc, &mut ends, door.inner())?;
    }
    Ok(ends)
}

fn push_end(alloc: Global, ends: &mut Vec<DoorEnd>, door: &MemoryDoor) -> Result<(), NoMemory> {
    let served = served_by(alloc, door)?;
    ends.push(DoorEnd {
        coming: door.coming() as u64,
        served,
    })?;
    Ok(())
}

fn served_by(alloc: Global, door: &MemoryDoor) -> Result<Vec<ConnEnd>, NoMemory> {
    let mut served = Vec::new(alloc);
    for conn in door.finished() {
        push_conn(alloc, &mut served, conn)?;
    }
    Ok(served)
}

fn push_conn(
    alloc: Global,
    served: &mut Vec<ConnEnd>,
    conn: &HandedBackConn,
) -> Result<(), NoMemory> {
    let conn = conn_end(alloc, conn)?;
    served.push(conn)?;
    Ok(())
}

fn conn_end(alloc: Global, conn: &HandedBackConn) -> Result<ConnEnd, NoMemory> {
    let places = Vec::from_slice(alloc, conn.report.places.as_slice())?;
    Ok(ConnEnd {
        end: conn.report.end,
        places,
        output: Vec::from_slice(alloc, conn.conn.inner().sink.taken())?,
    })
}

/// The exchanges that the upstream recorded, if one was handed back.
fn exchanges_of(
    alloc: Global,
    up: &Option<CaseUpstream>,
) -> Result<Option<Vec<PastExchange>>, NoMemory> {
    match up {
        Some(upstream) => Ok(Some(past_exchanges(alloc, upstream)?)),
        None => Ok(None),
    }
}

fn past_exchanges(alloc: Global, upstream: &CaseUpstream) -> Result<Vec<PastExchange>, NoMemory> {
    let mut exchanges = Vec::new(alloc);
    for exchange in upstream.inner().told() {
        push_exchange(alloc, &mut exchanges, exchange)?;
    }
    Ok(exchanges)
}

fn push_exchange(
    alloc: Global,
    exchanges: &mut Vec<PastExchange>,
    exchange: &Exchange,
) -> Result<(), NoMemory> {
    let request = Vec::from_slice(alloc, exchange.request.as_slice())?;
    exchanges.push(PastExchange {
        request,
        most: exchange.most,
        after: 0,
    })?;
    Ok(())
}

/// The top call. Its contract is not needed here, and is long over objects with a full view.
fn top_call<R, S, C, K, N, W>(
    rt: &R,
    alloc: Global,
    words: &[Bytes],
    kept: &[Kept],
    wants: &[Want],
    store: &mut S,
    input: &mut C,
    output: &mut K,
    net: &mut N,
    spawner: &mut W,
) -> Outcome<N::Door, N::Up>
where
    R: Threads + Wait + Copy + Send + 'static,
    S: Store,
    C: Source,
    K: Sink,
    N: Network,
    N::Door: Send + Drop + 'static,
    <N::Door as Door>::Conn: Send + 'static,
    W: Spawner,
    requires rules { KeepsAll (map (λ k. k.kind) kept.now) }
    requires wants { WantsAll (map (λ w. w.kind) wants.now) }
{
    td_top::run(
        rt, alloc, words, kept, wants, store, input, output, net, spawner,
    )
}
