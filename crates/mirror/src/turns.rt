ghost use Rattle.std.specs.Prelude.{◌≡◌, IfOk};
ghost use Rattle.http_client.specs.Requests.{request_text};
ghost use Rattle.sync_core.specs.Mirrors.{ask_of};
ghost use Rattle.mirror.specs.Turns as turns;
ghost use Rattle.mirror.specs.Understanding.{Means};

use crate::limits::MOST_ANSWER;
use crate::taken_type::Taken;
use crate::understanding::understand;
use crate::{SyncFault, Understood};
use http_client::request;
use std::alloc::Global;
use sync_core::{Mirror, Settled};
use td_base::{Ask, Bytes, Exchanged, NoMemory, Upstream};

/// The exchange of this number: it sends the next request of the mirror and takes the answer.
#[tactic(auto, using(crate::proofs::lemmas::Walks::got_turn, crate::proofs::lemmas::Walks::failed_turn, crate::proofs::lemmas::Walks::starved_turn, crate::proofs::lemmas::Walks::no_turn))]
pub fn turn<U: Upstream>(
    alloc: Global,
    mirror: &mut Mirror,
    host: &[u8],
    upstream: &mut U,
    number: u64,
) -> Result<Taken, SyncFault>
    ensures { turns.TurnsOn (request_text host.now) Means mirror.old mirror.new
        (U.seen upstream.old) (U.seen upstream.new) number result }
{
    let ask = mirror.ask(alloc)?;
    let text = written(alloc, &ask, host)?;
    match upstream.exchange(alloc, text.as_slice(), MOST_ANSWER as u64) {
        Exchanged::Got(answer) => take_answer(alloc, mirror, &ask, number, answer),
        Exchanged::Failed => Err(SyncFault::UpstreamFault),
        Exchanged::NoMemory => Err(SyncFault::NoMemory),
    }
}

/// The bytes of a request.
fn written(alloc: Global, ask: &Ask, host: &[u8]) -> Result<Bytes, NoMemory>
    ensures { IfOk result (λ text. text ≡ request_text host.now ask.now) }
{
    let mut text = Bytes::new(alloc);
    request(alloc, &mut text, ask, host)?;
    Ok(text)
}

/// Takes the answer of this number to the request of the mirror.
fn take_answer(
    alloc: Global,
    mirror: &mut Mirror,
    ask: &Ask,
    number: u64,
    answer: Bytes,
) -> Result<Taken, SyncFault>
    requires { ask.now ≡ ask_of mirror.old }
    ensures { turns.Takes Means ask.now mirror.old mirror.new answer number result }
{
    match understand(alloc, ask, answer.as_slice())? {
        Understood::Hears(heard) => {
            let settled = mirror.take(heard)?;
            Ok(taken_by(ask, settled))
        }
        Understood::Unreadable(place) => Err(SyncFault::BadAnswer(number, place, answer)),
        Understood::Refuses(status) => Err(SyncFault::Refused(number, status)),
    }
}

/// What the answer to a request brought.
pub fn taken_by(ask: &Ask, settled: Settled) -> Taken
    ensures { result ≡ turns.taken_by ask.now settled }
{
    match (ask, settled) {
        (_, Settled::Holds) => Taken::Settled,
        (Ask::List(_), Settled::More) => Taken::List,
        (Ask::Get(_), Settled::More) => Taken::File,
    }
}
