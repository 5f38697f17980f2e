ghost use Rattle.std.specs.Prelude.{◌≡◌, ◌<◌, ◌≤◌, ◌+◌, ◌++◌, ◌∷◌, ℕ, List, length, [], true};
ghost use Rattle.std.specs.Prelude.{IsTrue, OnOk, OnErr};
ghost use Rattle.std.specs.Prelude.{Ok, Some, None, if◌then◌else◌};
ghost use Rattle.std.specs.List.{AllByRecursion};
ghost use mathlib.Core.List.{IsPrefix};
ghost use Rattle.catalogue.specs.declared.holding.Catalogue.{Catalogue};
ghost use Rattle.connection.specs.Answering.{AnswersOne, EntersOn, IsServing, ServesOn};
ghost use Rattle.connection.specs.Entering.{EntersEach, EntersFor, EntersUpTo, HasCounted};
ghost use Rattle.connection.specs.FaultCounts.{AreLater, faults_of};
ghost use Rattle.connection.specs.Hearing.{most_held};
ghost use Rattle.connection.specs.Keeping.{ComputesFew, ComputesFirst, IsEmptyCache, KeepsAnswers};
ghost use Rattle.connection.specs.Replies.{is_last};
ghost use Rattle.connection.specs.Serving.{ServesConn, ServesUpTo};
ghost use Rattle.json_forms.specs.PlainTexts.{IsPlainRole};
ghost use Rattle.publication.specs.Views.{DeskView};
ghost use Rattle.td_base.specs.TargetForm.{has_form};
ghost use Rattle.td_base.specs.Views.{ConnView};
ghost use Rattle.td_base.specs.declared.report.End.TheVariants as end;
ghost use Rattle.td_base.specs.declared.report.TheConstants.{MOST_PLACES};

use crate::hearing::{Arrival, CLEARED, Room, hear};
use crate::kept_answers::KeptAnswers;
use crate::places::place_of;
use crate::replying::reply_to;
use crate::sending::{give_up, refuse};
use catalogue::Catalogue;
use http_request::{Head, Heads};
use publication::Desk;
use std::alloc::Global;
use td_base::{Conn, End, MOST_PLACES, NoMemory, Places, Report, Role, Written};
use zone_meaning::Zone;

/// Serves a connection over a desk. It ends at the end of the input, at a closing request, at a
/// refused head, after the 1,000th request, or at a fault. Nothing is read or answered after that.
///
/// The desk enters once for each request, before it is answered. The place of the request is the
/// number of releases in the catalogue that the desk then holds. An enter that is refused ends the
/// connection as out of memory does.
pub fn serve<C: Conn>(
    alloc: Global,
    role: &Role,
    desk: &mut Desk<Catalogue<Zone>>,
    conn: &mut C,
) -> Report
    requires role { IsPlainRole role.now }
    ensures served { ServesConn desk.new role.now (C.seen conn.old) (C.seen conn.new)
        result.places result.end }
    ensures enters { EntersFor desk.old result.places desk.new result.end }
    ensures later { AreLater (faults_of (C.seen conn.old)) (faults_of (C.seen conn.new)) }
    ensures pair { desk.new.pair ≡ desk.old.pair }
    ensures seen { IsPrefix desk.old.seen desk.new.seen }
    ensures first { AllByRecursion (λ p. length desk.old.seen ≤ p) result.places }
    ensures counted { HasCounted desk.old.enters result.places desk.new.enters result.end }
    ensures computed { result.computed ≤ length result.places }
    ensures first_computed { 1 ≤ length result.places → 1 ≤ result.computed }
    ensures ended { desk.old.ended ≡ true → (desk.new.seen ≡ desk.old.seen)
        × (desk.new.ended ≡ true)
        × AllByRecursion (λ p. p ≡ length desk.old.seen) result.places }
{
    let mut kept = KeptAnswers::new(alloc);
    serve_over(alloc, role, desk, &mut kept, conn)
}

/// Like [`serve`], with a response cache that it borrows: a cached answer is not computed, and a
/// computed one is cached. The cached answers must be right for the desk and the role, and stay so.
pub fn serve_over<C: Conn>(
    alloc: Global,
    role: &Role,
    desk: &mut Desk<Catalogue<Zone>>,
    kept: &mut KeptAnswers,
    conn: &mut C,
) -> Report
    requires role { IsPlainRole role.now }
    requires kept { KeepsAnswers desk.old role.now kept.old }
    ensures served { ServesConn desk.new role.now (C.seen conn.old) (C.seen conn.new)
        result.places result.end }
    ensures enters { EntersFor desk.old result.places desk.new result.end }
    ensures later { AreLater (faults_of (C.seen conn.old)) (faults_of (C.seen conn.new)) }
    ensures pair { desk.new.pair ≡ desk.old.pair }
    ensures seen { IsPrefix desk.old.seen desk.new.seen }
    ensures first { AllByRecursion (λ p. length desk.old.seen ≤ p) result.places }
    ensures counted { HasCounted desk.old.enters result.places desk.new.enters result.end }
    ensures computed { result.computed ≤ length result.places }
    ensures first_computed { IsEmptyCache kept.old → 1 ≤ length result.places
        → 1 ≤ result.computed }
    ensures stated { result.computed ≡ kept.new.computed }
    ensures kept { KeepsAnswers desk.new role.now kept.new }
    ensures ended { desk.old.ended ≡ true → (desk.new.seen ≡ desk.old.seen)
        × (desk.new.ended ≡ true)
        × AllByRecursion (λ p. p ≡ length desk.old.seen) result.places }
{
    kept.computed = 0;
    let mut places = Places::new(alloc);
    let end = serve_requests(alloc, role, desk, kept, conn, &mut places);
    Report {
        end,
        places,
        computed: kept.computed,
    }
}

/// Answers request by request, and records the places. When memory runs out, the client gets a 503.
fn serve_requests<C: Conn>(
    alloc: Global,
    role: &Role,
    desk: &mut Desk<Catalogue<Zone>>,
    kept: &mut KeptAnswers,
    conn: &mut C,
    places: &mut Places,
) -> End
    requires role { IsPlainRole role.now }
    requires kept { KeepsAnswers desk.old role.now kept.old }
    requires none { places.old ≡ [] }
    ensures served { ServesConn desk.new role.now (C.seen conn.old) (C.seen conn.new)
        places.new result }
    ensures enters { EntersFor desk.old places.new desk.new result }
    ensures kept { KeepsAnswers desk.new role.now kept.new }
    ensures computed { ComputesFew kept.old.computed kept.new.computed places.old places.new }
    ensures first { ComputesFirst kept.old kept.new places.old places.new }
{
    match answer_requests(alloc, role, desk, kept, conn, places) {
        Ok(end) => end,
        Err(_) => {
            give_up(conn);
            End::NoMemory
        }
    }
}

/// Answers request by request, and records the places. When memory runs out, nothing was sent about
/// it yet.
fn answer_requests<C: Conn>(
    alloc: Global,
    role: &Role,
    desk: &mut Desk<Catalogue<Zone>>,
    kept: &mut KeptAnswers,
    conn: &mut C,
    places: &mut Places,
) -> Result<End, NoMemory>
    requires role { IsPlainRole role.now }
    requires kept { KeepsAnswers desk.old role.now kept.old }
    requires none { places.old ≡ [] }
    ensures served { ServesUpTo desk.new role.now (C.seen conn.old) (C.seen conn.new)
        places.new result }
    ensures enters { EntersUpTo desk.old places.new desk.new result }
    ensures kept { KeepsAnswers desk.new role.now kept.new }
    ensures computed { ComputesFew kept.old.computed kept.new.computed places.old places.new }
    ensures first { ComputesFirst kept.old kept.new places.old places.new }
{
    let mut heads = Heads::new(alloc);
    let mut room = CLEARED;
    'requests: loop {
        let more = answer_next(alloc, role, desk, kept, conn, &mut heads, &mut room, places)?;
        if let Some(end) = more {
            return Ok(end);
        }
    }
}

/// Receives one head and answers it. `None` when the connection stays open.
fn answer_next<C: Conn>(
    alloc: Global,
    role: &Role,
    desk: &mut Desk<Catalogue<Zone>>,
    kept: &mut KeptAnswers,
    conn: &mut C,
    heads: &mut Heads,
    room: &mut Room,
    places: &mut Places,
) -> Result<Option<End>, NoMemory>
    requires role { IsPlainRole role.now }
    requires kept { KeepsAnswers desk.old role.now kept.old }
    requires held { heads.old.size ≤ most_held }
    requires fits { length places.old < MOST_PLACES }
    ensures served { (before : ConnView)
        → IsServing desk.old role.now before (C.seen conn.old) heads.old.rest places.old
        → ServesOn desk.new role.now before (C.seen conn.new) heads.new.rest places.new result }
    ensures enters { (before : DeskView (Catalogue (List ℕ)))
        → EntersEach before places.old desk.old → EntersOn before places.new desk.new result }
    ensures held { heads.new.size ≤ most_held }
    ensures more { result ≡ Ok None → length places.new ≡ length places.old + 1 }
    ensures kept { KeepsAnswers desk.new role.now kept.new }
    ensures computed { ComputesFew kept.old.computed kept.new.computed places.old places.new }
    ensures first { ComputesFirst kept.old kept.new places.old places.new }
{
    match hear(alloc, heads, conn, room)? {
        Arrival::Request(head) => answer_one(alloc, role, desk, kept, conn, head, places),
        Arrival::Refused(status) => Ok(Some(refuse(conn, status))),
        Arrival::Ended => Ok(Some(End::Closed)),
        Arrival::ReadFault => Ok(Some(End::ReadFault)),
    }
}

/// Lets the desk enter, records the place and replies. `None` when the connection stays open.
fn answer_one<C: Conn>(
    alloc: Global,
    role: &Role,
    desk: &mut Desk<Catalogue<Zone>>,
    kept: &mut KeptAnswers,
    conn: &mut C,
    head: Head,
    places: &mut Places,
) -> Result<Option<End>, NoMemory>
    requires role { IsPlainRole role.now }
    requires kept { KeepsAnswers desk.old role.now kept.old }
    requires form { IsTrue (has_form head.target) }
    requires room { length places.old < MOST_PLACES }
    ensures answers { AnswersOne desk.old desk.new role.now head (C.seen conn.old) (C.seen conn.new)
        places.old places.new result }
    ensures kept { KeepsAnswers desk.new role.now kept.new }
    ensures computed { ComputesFew kept.old.computed kept.new.computed places.old places.new }
    ensures first { ComputesFirst kept.old kept.new places.old places.new }
{
    let close = is_last(places, &head);
    enter(desk, places)?;
    match reply_to(alloc, role, desk, kept, conn, head, close)? {
        Written::Whole => Ok(ended_by(close)),
        Written::Cut => Ok(Some(End::WriteFault)),
    }
}

/// Lets the desk enter, and records the place of the catalogue that it then holds. Room for the
/// place is made first, so that each enter has its place.
fn enter(desk: &mut Desk<Catalogue<Zone>>, places: &mut Places) -> Result<(), NoMemory>
    requires { length places.old < MOST_PLACES }
    ensures ok { OnOk result ((desk.new.enters ≡ desk.old.enters + 1)
        × (desk.new.seen ≡ desk.new.entered)) }
    ensures err { OnErr result ((desk.new.seen ≡ desk.old.seen)
        × (desk.new.ended ≡ desk.old.ended) × (desk.old.enters ≤ desk.new.enters)
        × (desk.new.enters ≤ desk.old.enters + 1)) }
    ensures placed { OnOk result ((places.new ≡ places.old ++ length desk.new.seen ∷ [])
        × (1 ≤ length desk.new.seen)) }
    ensures unplaced { OnErr result (places.new ≡ places.old) }
    ensures pair { desk.new.pair ≡ desk.old.pair }
    ensures seen { IsPrefix desk.old.seen desk.new.seen }
    ensures ended { desk.old.ended ≡ true
        → (desk.new.seen ≡ desk.old.seen) × (desk.new.ended ≡ true) }
{
    places.push(0)?;
    if desk.enter().is_err() {
        places.pop();
        return Err(NoMemory);
    }
    places.replace_last(place_of(desk));
    Ok(())
}

/// How the connection ends after a whole reply, if it ends.
fn ended_by(close: bool) -> Option<End>
    ensures { result ≡ if close then Some end.Closed else None }
{
    if close { Some(End::Closed) } else { None }
}

/// Whether the connection closes after this request.
fn is_last(places: &Places, head: &Head) -> bool
    ensures { result ≡ is_last (length places.now) head.now }
{
    head.close || places.as_slice().len() + 1 == MOST_PLACES
}
