ghost use Rattle.std.specs.Prelude.{◌≡◌, ℕ, ℤ, List, map, Some};
ghost use Rattle.std.specs.List.{AllByRecursion};
ghost use Rattle.std.specs.Option.{option_map};
ghost use Rattle.catalogue.specs.Order.{IsRising};
ghost use Rattle.sync_core.specs.Mirrors.{entry_name};
ghost use Rattle.td_base.specs.Views.{SourceView, StoreView};
ghost use Rattle.run_ends.specs.Commands.{IsRangeAsked, calmirror};
ghost use Rattle.run_ends.specs.Outside.{outside, world};
ghost use Rattle.run_ends.specs.Running.{Completes, RunsAs};
ghost use Rattle.run_ends.specs.Running.CalendarMirroring.{KeepsCalendar, PrintsCalendars};
ghost use Rattle.plain_commands.specs.CalendarSteps.{PrintsZone};
ghost use Rattle.plain_commands.specs.CalendarSteps.{RefusesCalendars, SyncsOnce};

pub(crate) mod zone_text;

use crate::calendar_mirroring::zone_text::text_of_zone;
use calendar_mirror::{CalendarSyncFault, sync};
use calendar_world::{calendars_are_told, syncs_hold, syncs_settle};
use json_forms::ListZone;
use mirror::SyncFault;
use run_ends::{Ending, Served, Status, refuse_shown};
use std::alloc::Global;
use sync_core::Mirror;
use td_base::{Made, Network, Sink, Upstream, Written, write_whole};
use td_civil::Moment;

/// The address of a server of calendars, and the range to print.
#[derive(Clone, Copy)]
pub struct CalendarPlan<'w> {
    pub upstream: &'w [u8],
    pub start: Moment,
    pub end: Moment,
}

/// Syncs once with the server of calendars at an address. Then prints the observances of each
/// zone's calendar in a range, one zone at a time.
pub fn mirror_calendars<N: Network, K: Sink>(
    alloc: Global,
    plan: &CalendarPlan<'_>,
    net: &mut N,
    output: &mut K,
) -> Ending<N::Door, N::Up>
    requires { IsRangeAsked plan.now.start.seconds plan.now.end.seconds }
    // The store, the input and the spawner, whatever they are, are left alone.
    ensures { (store : StoreView) (input : SourceView) (spawner : ℕ) → RunsAs
        (Some (calmirror plan.now.upstream.now plan.now.start.seconds plan.now.end.seconds))
        (world (outside store input (K.seen output.old)) (N.seen net.old) spawner)
        (world (outside store input (K.seen output.new)) (N.seen net.new) spawner)
        (map N.Door.seen result.doors.items) (option_map N.Up.seen result.up) result.status }
{
    syncs_hold();
    calendars_are_told();
    match net.upstream(alloc, plan.upstream) {
        Made::Given(server) => {
            let mut server = server;
            let status = print_calendars(alloc, plan, &mut server, output);
            Served::closed(alloc, status).after(Some(server))
        }
        Made::Failed => Ending::closed(alloc, Status::NoNetwork),
        Made::NoMemory => Ending::closed(alloc, Status::NoMemory),
    }
}

/// Syncs once, and prints the calendars kept, or why the sync failed.
fn print_calendars<U: Upstream, K: Sink>(
    alloc: Global,
    plan: &CalendarPlan<'_>,
    server: &mut U,
    output: &mut K,
) -> Status
    requires { IsRangeAsked plan.now.start.seconds plan.now.end.seconds }
    ensures { SyncsOnce plan.now.upstream.now plan.now.start.seconds plan.now.end.seconds
        (U.seen server.old) (U.seen server.new) (K.seen output.old) (K.seen output.new) result }
{
    let mut mirror = Mirror::empty(alloc);
    match sync(alloc, &mut mirror, plan.upstream, server) {
        Ok(()) => print_zones(alloc, plan, &mirror, mirror.entries(), output),
        Err(fault) => refuse_sync(alloc, &fault, output),
    }
}

/// Prints the calendar of each zone that the mirror knows, in the order of the zones.
fn print_zones<K: Sink>(
    alloc: Global,
    plan: &CalendarPlan<'_>,
    mirror: &Mirror,
    zones: &[ListZone],
    output: &mut K,
) -> Status
    requires range { IsRangeAsked plan.now.start.seconds plan.now.end.seconds }
    requires known { zones.now ≡ mirror.now.entries }
    requires rising { IsRising (map entry_name zones.now) }
    requires kept { AllByRecursion (λ z. KeepsCalendar mirror.now.files z.tzid) zones.now }
    ensures { PrintsCalendars mirror.now plan.now.start.seconds plan.now.end.seconds
        (K.seen output.old) (K.seen output.new) result }
{
    for zone in zones {
        match print_zone(alloc, plan, mirror, zone, output) {
            Ok(()) => {}
            Err(status) => return status,
        }
    }
    Status::Done
}

/// Prints the calendar of a zone, or returns the status that ends the run.
#[tactic(auto, using(crate::proofs::CalendarLemmas::zone_printed))]
fn print_zone<K: Sink>(
    alloc: Global,
    plan: &CalendarPlan<'_>,
    mirror: &Mirror,
    zone: &ListZone,
    output: &mut K,
) -> Result<(), Status>
    requires range { IsRangeAsked plan.now.start.seconds plan.now.end.seconds }
    requires kept { KeepsCalendar mirror.now.files zone.now.tzid }
    ensures { PrintsZone mirror.now.files plan.now.start.seconds plan.now.end.seconds zone.now
        (K.seen output.old) (K.seen output.new) result }
{
    let Ok(text) = text_of_zone(alloc, plan, mirror, zone) else {
        return Err(Status::NoMemory);
    };
    match write_whole(output, text.as_slice()) {
        Written::Whole => Ok(()),
        Written::Cut => Err(Status::NotWritten),
    }
}

/// Ends a run because its sync ended with a fault.
fn refuse_sync<K: Sink>(alloc: Global, fault: &CalendarSyncFault, output: &mut K) -> Status
    ensures { RefusesCalendars fault.now (K.seen output.old) (K.seen output.new) result }
{
    match fault {
        CalendarSyncFault::Sync(SyncFault::NoMemory) => Status::NoMemory,
        _ => refuse_shown(alloc, Status::NotSynced, fault, output),
    }
}

/// Law: if nothing failed and the primary's second list is an empty list of changes, `calmirror`
/// prints each calendar, or memory runs out.
pub fn calendars_complete()
    ensures { (upstream : List ℕ) (start last : ℤ) → Completes (calmirror upstream start last) }
{
    syncs_settle();
}
