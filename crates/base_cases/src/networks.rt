//! A network and another server in memory, some of whose calls fail.
use crate::given;
use case_lines::{Answer, AnswerBuilder, CaseFault, Row, debug_text};
use std::alloc::Global;
use td_base::{
    Bytes, Exchanged, Faulty, Made, MemoryDoor, MemoryNetwork, MemoryUpstream, Network, Upstream,
};

type Tried = MemoryNetwork<MemoryDoor, MemoryUpstream>;

/// `network DOORS UPSTREAMS FAILING ADDRESS WHAT`, with more addresses: the result of each call. A
/// call requests WHAT doors, or an upstream if WHAT is `up`. Then how many doors are left, and at
/// which addresses doors were opened and upstreams reached.
pub fn network(alloc: Global, row: &Row) -> Answer {
    let mut network = faulty(alloc, row)?;
    let mut builder = AnswerBuilder::new(alloc);
    for at in 1..row.words().len().saturating_sub(1) / 2 {
        builder.add_answer(call(alloc, &mut network, row, at * 2 + 1));
    }
    add_network(&mut builder, network.inner());
    builder.finish()
}

fn faulty(alloc: Global, row: &Row) -> Result<Faulty<Tried>, CaseFault> {
    let failing = given::calls(alloc, row, 2)?;
    let mut network = MemoryNetwork::new(alloc);
    fill(alloc, &mut network, row)?;
    Ok(Faulty::new(network, failing))
}

/// Adds doors and upstreams that have no connection and no answer.
fn fill(alloc: Global, network: &mut Tried, row: &Row) -> Result<(), CaseFault> {
    for _ in 0..row.number(0)? {
        network.push(MemoryDoor::new(alloc, 1)?)?;
    }
    for _ in 0..row.number(1)? {
        network.push_upstream(MemoryUpstream::new(alloc))?;
    }
    Ok(())
}

/// The result of the call whose address is at a position.
fn call<N: Network>(alloc: Global, network: &mut N, row: &Row, at: usize) -> Answer
where
    N::Door: Drop,
    N::Up: Drop,
{
    let (address, next) = (row.word(at)?, at.saturating_add(1));
    if row.word(next)? == b"up".as_slice() {
        return reach(alloc, network, address);
    }
    open(alloc, network, address, given::small(row, next)?)
}

fn open<N: Network>(alloc: Global, network: &mut N, address: &[u8], number: u32) -> Answer
where
    N::Door: Drop,
{
    match network.doors(alloc, address, number) {
        Made::Given(doors) => debug_text(alloc, &doors.len()),
        Made::Failed => case_lines::bytes(alloc, b"failed"),
        Made::NoMemory => Err(CaseFault::NoMemory),
    }
}

fn reach<N: Network>(alloc: Global, network: &mut N, address: &[u8]) -> Answer
where
    N::Up: Drop,
{
    match network.upstream(alloc, address) {
        Made::Given(_) => case_lines::bytes(alloc, b"reached"),
        Made::Failed => case_lines::bytes(alloc, b"failed"),
        Made::NoMemory => Err(CaseFault::NoMemory),
    }
}

/// Appends the state of a network.
fn add_network(builder: &mut AnswerBuilder, network: &Tried) {
    builder.add_bytes(b" left ");
    builder.add_debug(&network.len());
    for opened in network.opened() {
        builder.add_bytes(b" opened ");
        builder.add_bytes(opened.address.as_slice());
        builder.add_bytes(b" ");
        builder.add_debug(&opened.doors);
    }
    for address in network.reached() {
        builder.add_bytes(b" reached ");
        builder.add_bytes(address.as_slice());
    }
}

/// `upstream ANSWERS FAILING MOST REQUEST ..`, with answers separated by commas: the answer to each
/// request, of at most MOST bytes, and which requests were answered.
pub fn upstream(alloc: Global, row: &Row) -> Answer {
    let most = row.number(2)?;
    let mut server = faulty_server(alloc, row)?;
    let mut builder = AnswerBuilder::new(alloc);
    for request in given::words(row, 3) {
        builder.add_answer(ask(alloc, &mut server, request.as_slice(), most));
    }
    add_exchanges(&mut builder, server.inner());
    builder.finish()
}

fn faulty_server(alloc: Global, row: &Row) -> Result<Faulty<MemoryUpstream>, CaseFault> {
    let failing = given::calls(alloc, row, 1)?;
    let mut server = MemoryUpstream::new(alloc);
    add_answers(alloc, &mut server, row)?;
    Ok(Faulty::new(server, failing))
}

fn add_answers(alloc: Global, server: &mut MemoryUpstream, row: &Row) -> Result<(), CaseFault> {
    for answer in row.word(0)?.split(|byte| *byte == b',') {
        server.push(Bytes::from_slice(alloc, answer)?)?;
    }
    Ok(())
}

/// The result of one exchange.
fn ask<U: Upstream>(alloc: Global, server: &mut U, request: &[u8], most: u64) -> Answer {
    match server.exchange(alloc, request, most) {
        Exchanged::Got(answer) => Ok(answer.into_vec()),
        Exchanged::Failed => case_lines::bytes(alloc, b"(failed)"),
        Exchanged::NoMemory => Err(CaseFault::NoMemory),
    }
}

/// Appends which requests were answered, and with what.
fn add_exchanges(builder: &mut AnswerBuilder, server: &MemoryUpstream) {
    for exchange in server.told() {
        builder.add_bytes(b" ");
        builder.add_bytes(exchange.request.as_slice());
        builder.add_bytes(b">");
        builder.add_bytes(exchange.answer.as_slice());
    }
}
