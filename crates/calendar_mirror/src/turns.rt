ghost use Rattle.std.specs.Prelude.{◌≡◌, IfOk};
ghost use Rattle.http_client.specs.CalendarRequests.{calendar_request_text};
ghost use Rattle.sync_core.specs.Mirrors.{ask_of};
ghost use Rattle.calendar_mirror.specs.CalendarTurns as turns;
ghost use Rattle.calendar_mirror.specs.Judging.{MeansSound};

use crate::judging::judge;
use crate::{CalendarSyncFault, Judged};
use http_client::request_calendar;
use mirror::{MOST_ANSWER, SyncFault, Taken, Understood, taken_by};
use std::alloc::Global;
use sync_core::Mirror;
use td_base::{Ask, Bytes, Exchanged, NoMemory, Upstream};

/// The exchange of this number: sends the request that the mirror needs, and applies the answer.
#[tactic(auto, using(crate::proofs::Walks::got_turn, mirror::proofs::lemmas::Walks::failed_turn, mirror::proofs::lemmas::Walks::starved_turn, mirror::proofs::lemmas::Walks::no_turn))]
pub fn turn<U: Upstream>(
    alloc: Global,
    mirror: &mut Mirror,
    host: &[u8],
    upstream: &mut U,
    number: u64,
) -> Result<Taken, CalendarSyncFault>
    ensures { turns.CalendarTurn (calendar_request_text host.now) mirror.old mirror.new
        (U.seen upstream.old) (U.seen upstream.new) number result }
{
    let ask = mirror.ask(alloc)?;
    let text = written(alloc, &ask, host)?;
    match upstream.exchange(alloc, text.as_slice(), MOST_ANSWER as u64) {
        Exchanged::Got(answer) => take_answer(alloc, mirror, &ask, number, answer),
        Exchanged::Failed => Err(CalendarSyncFault::Sync(SyncFault::UpstreamFault)),
        Exchanged::NoMemory => Err(CalendarSyncFault::Sync(SyncFault::NoMemory)),
    }
}

/// The bytes of the request for what the mirror needs.
fn written(alloc: Global, ask: &Ask, host: &[u8]) -> Result<Bytes, NoMemory>
    ensures { IfOk result (λ text. text ≡ calendar_request_text host.now ask.now) }
{
    let mut text = Bytes::new(alloc);
    request_calendar(alloc, &mut text, ask, host)?;
    Ok(text)
}

/// Applies the answer of this number to what the mirror needs.
fn take_answer(
    alloc: Global,
    mirror: &mut Mirror,
    ask: &Ask,
    number: u64,
    answer: Bytes,
) -> Result<Taken, CalendarSyncFault>
    requires { ask.now ≡ ask_of mirror.old }
    ensures { turns.TakesCalendar ask.now mirror.old mirror.new answer number result }
{
    match judge(alloc, ask, answer.as_slice())? {
        Judged::Sound(understood) => take_sound(mirror, ask, number, answer, understood),
        Judged::BadCalendar(fault) => Err(CalendarSyncFault::BadCalendar(number, fault)),
        Judged::WrongName => Err(CalendarSyncFault::WrongName(number)),
    }
}

/// Applies the answer of this number, which any mirror would decode to this.
fn take_sound(
    mirror: &mut Mirror,
    ask: &Ask,
    number: u64,
    answer: Bytes,
    understood: Understood,
) -> Result<Taken, CalendarSyncFault>
    requires asked { ask.now ≡ ask_of mirror.old }
    requires meant { MeansSound ask.now answer understood }
    ensures { turns.TakesCalendar ask.now mirror.old mirror.new answer number result }
{
    match understood {
        Understood::Hears(heard) => {
            let settled = mirror.take(heard)?;
            Ok(taken_by(ask, settled))
        }
        Understood::Unreadable(place) => {
            Err(CalendarSyncFault::Sync(SyncFault::BadAnswer(number, place, answer)))
        }
        Understood::Refuses(status) => {
            Err(CalendarSyncFault::Sync(SyncFault::Refused(number, status)))
        }
    }
}
