ghost use Rattle.std.specs.Prelude.{◌≡◌, ◌<◌, length, IfOk, OnOk};
ghost use Rattle.catalogue.specs.Holdings.{history_of};
ghost use Rattle.made_load.specs.Counts.{CountsReply, with_release};
ghost use Rattle.made_load.specs.Requests.{made_requests};
ghost use Rattle.td_base.specs.MemoryDoors.{memory_conn};
ghost use Rattle.run_ends.specs.Running.Loading.{AreCounted, IsFirstHead};
ghost use Rattle.plain_commands.specs.LoadSteps.{AnswersCounted, ClosesOver};

use catalogue::Catalogue;
use http_request::{Scan, Search, find_end, searches};
use made_load::{LoadCounts, requests};
use publication::Desk;
use std::alloc::Global;
use td_base::texts::skip;
use td_base::{Bytes, End, MemoryConn, MemorySink, MemorySource, NoMemory, Role};
use zone_meaning::Zone;

/// The buffer of a connection, in bytes. It is larger than all replies to the requests of a
/// release.
const ROOM: usize = 65_536;

/// Makes requests for the last release that a desk has seen, serves them over a connection in
/// memory, and counts the replies from its bytes. `Err` when memory or the buffer of the connection
/// runs out.
pub fn serve_release(
    alloc: Global,
    desk: &mut Desk<Catalogue<Zone>>,
    counts: &mut LoadCounts,
) -> Result<(), NoMemory>
    ensures counted { OnOk result (AreCounted (history_of desk.old.seen)
        (made_requests (history_of desk.old.seen)) (with_release counts.old) counts.new) }
    ensures seen { OnOk result (desk.new.seen ≡ desk.old.seen) }
    ensures pair { desk.new.pair ≡ desk.old.pair }
{
    let catalogue = desk.value();
    let asked = requests(alloc, catalogue, catalogue.count())?;
    let nothing = MemorySource::new(Bytes::new(alloc));
    let mut conn = MemoryConn::new(nothing, MemorySink::new(alloc, ROOM)?);
    counts.add_release();
    serve_requests(alloc, desk, &mut conn, asked.as_slice(), counts)?;
    Ok(())
}

/// Serves requests one after another, each to its end before the next one. So the bytes that the
/// connection took meanwhile are the reply.
fn serve_requests(
    alloc: Global,
    desk: &mut Desk<Catalogue<Zone>>,
    conn: &mut MemoryConn,
    asked: &[u8],
    counts: &mut LoadCounts,
) -> Result<(), NoMemory>
    ensures counted { OnOk result (AreCounted (history_of desk.old.seen) asked.now
        counts.old counts.new) }
    ensures seen { OnOk result (desk.new.seen ≡ desk.old.seen) }
    ensures pair { desk.new.pair ≡ desk.old.pair }
{
    let mut left = asked;
    'heads: while 0 < left.len() {
        let (request, rest) = first_head(left)?;
        serve_request(alloc, desk, conn, request, counts)?;
        left = rest;
    }
    Ok(())
}

/// The first head, and the bytes after it. `Err` if no head ends in the bytes.
fn first_head(heads: &[u8]) -> Result<(&[u8], &[u8]), NoMemory>
    ensures first { IfOk result (λ p. IsFirstHead heads.now p.0.now p.1.now) }
    ensures fewer { IfOk result (λ p. length p.1.now < length heads.now) }
{
    searches();
    match find_end(heads, Scan::start()) {
        Search::End(len, _) => Ok(heads.split_at(len)),
        Search::Open(_) => Err(NoMemory),
    }
}

/// Serves a request, and counts the reply.
fn serve_request(
    alloc: Global,
    desk: &mut Desk<Catalogue<Zone>>,
    conn: &mut MemoryConn,
    request: &[u8],
    counts: &mut LoadCounts,
) -> Result<(), NoMemory>
    ensures counted { OnOk result (AnswersCounted (history_of desk.old.seen) request.now
        counts.old counts.new) }
    ensures seen { OnOk result (desk.new.seen ≡ desk.old.seen) }
    ensures pair { desk.new.pair ≡ desk.old.pair }
{
    bring(alloc, conn, request)?;
    let begin = conn.sink.taken().len();
    serve_one(alloc, desk, conn)?;
    count_reply(alloc, skip(conn.sink.taken(), begin), counts)?;
    Ok(())
}

/// Gives a connection these bytes to read, and nothing after them.
fn bring(alloc: Global, conn: &mut MemoryConn, bytes: &[u8]) -> Result<(), NoMemory>
    ensures { OnOk result (conn.new.source.left ≡ bytes.now) }
{
    conn.source = MemorySource::new(Bytes::from_slice(alloc, bytes)?);
    Ok(())
}

/// Counts a reply. `Err` if the bytes are not a reply.
fn count_reply(alloc: Global, reply: &[u8], counts: &mut LoadCounts) -> Result<(), NoMemory>
    ensures { OnOk result (CountsReply reply.now counts.old counts.new) }
{
    match counts.add_reply(alloc, reply) {
        Ok(()) => Ok(()),
        Err(_) => Err(NoMemory),
    }
}

/// Serves a connection of one request until it closes, over what the desk has seen. Nothing else is
/// published meanwhile: a desk that saw more would change the load.
fn serve_one(
    alloc: Global,
    desk: &mut Desk<Catalogue<Zone>>,
    conn: &mut MemoryConn,
) -> Result<(), NoMemory>
    ensures closes { OnOk result (ClosesOver (history_of desk.old.seen) (memory_conn conn.old)
        (memory_conn conn.new)) }
    ensures seen { OnOk result (desk.new.seen ≡ desk.old.seen) }
    ensures pair { desk.new.pair ≡ desk.old.pair }
{
    let before = desk.value().count();
    let report = connection::serve(alloc, &Role::Primary, desk, conn);
    if desk.value().count() != before {
        return Err(NoMemory);
    }
    if report.places.as_slice().len() != 1 {
        return Err(NoMemory);
    }
    match report.end {
        End::Closed => Ok(()),
        _ => Err(NoMemory),
    }
}
