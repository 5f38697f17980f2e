ghost use Rattle.std.specs.Prelude.{◌≡◌, [], map, All, IfOk, OnOk};
ghost use Rattle.std.specs.Prelude.{false};
ghost use mathlib.Core.List.{IsPrefix};
ghost use Rattle.catalogue.specs.Holdings.{history_of};
ghost use Rattle.json_forms.specs.PlainTexts.{IsPlainRole};
ghost use Rattle.run_ends.specs.Opening.{HasDesks};
ghost use Rattle.run_ends.specs.Site.{console, site_names, site_of};
ghost use Rattle.td_top.specs.ServerSteps.{Concludes, ServesBeside, ServesOpened};
ghost use Rattle.td_top.specs.Works.{HasWorks, Learnt};

use crate::console_beside::{Console, TalkOver};
use crate::release_feed::ReleaseFeed;
use crate::works::{learn_all, works_for};
use catalogue::Catalogue;
use connection::{DoorDone, DoorWork};
use desk_pool::{PoolEnd, StopFlag, run_beside};
use installer::InstallPolicy;
use publication::{Desk, Ended};
use run_ends::{OpenedServer, RunIo, Served, Session, Status, TalkEnd, status_for};
use std::alloc::Global;
use std::sync::Wait;
use std::thread::Threads;
use td_base::{Door, Made, Network, NoMemory, Role, Sink, Source, Spawner};
use zone_meaning::Zone;

/// The role in which doors are served, and the address. Each door has a separate worker.
#[derive(Clone, Copy)]
pub struct Serving<'d> {
    pub role: &'d Role,
    pub address: &'d [u8],
    pub workers: u32,
}

/// Serves such doors, once a first history is published, while an operator uses the console over
/// the input and output.
pub fn serve_opened<R, G, C, K, N, W>(
    rt: &R,
    serving: &Serving<'_>,
    opened: OpenedServer,
    asked: &InstallPolicy<'_>,
    feed: &mut G,
    site: &mut RunIo<'_, C, K, N, W>,
) -> Served<N::Door>
where
    R: Threads + Wait + Copy + Send + 'static,
    G: ReleaseFeed,
    C: Source,
    K: Sink,
    N: Network,
    N::Door: Send + Drop + 'static,
    <N::Door as Door>::Conn: Send + 'static,
    W: Spawner,
    requires role { IsPlainRole serving.now.role.now }
    requires desks { HasDesks serving.now.workers opened }
    ensures kept { site_names site.new ≡ site_names site.old }
    ensures ends { ServesOpened serving.now.role.now serving.now.address.now serving.now.workers
        (history_of opened.session.installer.list)
        (site_of (G.seen feed.old asked.now.rules.chosen) C.seen K.seen N.seen W.faults site.old)
        (site_of (G.seen feed.new asked.now.rules.chosen) C.seen K.seen N.seen W.faults site.new)
        (map N.Door.seen result.doors.items) result.status }
{
    let OpenedServer { session, desks } = opened;
    let alloc = session.alloc;
    match site.net.doors(alloc, serving.address, serving.workers) {
        Made::Given(doors) => match works_for(alloc, serving.role, doors, desks) {
            Ok((works, flag)) => {
                let staff = Staff {
                    session,
                    asked,
                    works,
                    flag,
                };
                serve_beside(rt, staff, feed, site.input, site.output, site.spawner)
            }
            Err(NoMemory) => give_up(rt, session, Status::NoMemory),
        },
        Made::Failed => give_up(rt, session, Status::NoNetwork),
        Made::NoMemory => give_up(rt, session, Status::NoMemory),
    }
}

/// What serves: a session, the rules and tests it borrows, the works of the workers, and their
/// flag.
struct Staff<'s, 'k, D: Door> {
    session: Session,
    asked: &'s InstallPolicy<'k>,
    works: Vec<DoorWork<D>>,
    flag: StopFlag,
}

/// Serves doors by their works, next to a console session.
fn serve_beside<R, G, C, K, D, W>(
    rt: &R,
    staff: Staff<'_, '_, D>,
    feed: &mut G,
    input: &mut C,
    output: &mut K,
    spawner: &mut W,
) -> Served<D>
where
    R: Threads + Wait + Copy + Send + 'static,
    G: ReleaseFeed,
    C: Source,
    K: Sink,
    D: Door + Send + Drop + 'static,
    D::Conn: Send + 'static,
    W: Spawner,
    requires flag { staff.flag.raised ≡ false }
    requires signs { All (λ w. w.stop ≡ staff.flag) staff.works.items }
    requires nobody { staff.session.installer.subscribers ≡ [] }
    requires works { HasWorks staff.session.installer.pair staff.works.items }
    ensures { ServesBeside staff.entry.session staff.entry.works.items
        (console (G.seen feed.old staff.entry.asked.now.rules.chosen) (C.seen input.old)
        (K.seen output.old))
        (console (G.seen feed.new staff.entry.asked.now.rules.chosen) (C.seen input.new)
        (K.seen output.new))
        (W.faults spawner.old) (W.faults spawner.new)
        (map D.seen result.doors.items) result.status }
{
    let Staff {
        mut session,
        asked,
        works,
        flag,
    } = staff;
    let alloc = session.alloc;
    let mut over = TalkOver { end: None, flag };
    let mut console = Console::new(&mut session, asked, feed, input, output, &mut over);
    let pool = run_beside(rt, alloc, spawner, works, &mut console);
    match pool {
        PoolEnd::All(dones) => match over.end {
            Some(end) => conclude(rt, session, end, dones),
            None => give_up(rt, session, Status::NoMemory),
        },
        PoolEnd::NotStarted(_) => give_up(rt, session, Status::NotStarted),
        PoolEnd::NoMemory => give_up(rt, session, Status::NoMemory),
    }
}

/// Ends the history of a session once the workers are done and the console session is over. All
/// desks learn the end.
fn conclude<R: Wait, D: Door + Drop>(
    rt: &R,
    session: Session,
    end: TalkEnd,
    dones: Vec<DoorDone<D>>,
) -> Served<D>
    requires { All (λ d. d.desk.pair ≡ session.installer.pair) dones.items }
    ensures { Concludes session dones.items end result.doors.items result.status }
{
    let Session {
        alloc,
        installer,
        mut desk,
    } = session;
    // The last release stands for a history in which each release may follow those before it.
    installer.last();
    let Ok(mut ended) = installer.end(rt) else {
        return Served::closed(alloc, Status::NoMemory);
    };
    let learnt = learn_last(alloc, &mut ended, &mut desk, dones);
    ended.close(rt);
    match learnt {
        Ok((doors, worn)) => Served {
            status: status_for(end, worn),
            doors,
        },
        Err(NoMemory) => Served::closed(alloc, Status::NoMemory),
    }
}

/// Lets the desk of a console, and those of the workers, learn all that was published.
fn learn_last<D: Door + Drop>(
    alloc: Global,
    ended: &mut Ended<Catalogue<Zone>>,
    desk: &mut Desk<Catalogue<Zone>>,
    dones: Vec<DoorDone<D>>,
) -> Result<(Vec<D>, bool), NoMemory>
    requires desk { desk.old.pair ≡ ended.old.pair }
    requires dones { All (λ d. d.desk.pair ≡ ended.old.pair) dones.items }
    ensures learnt { IfOk result (λ r. Learnt ended.old.list dones.items r.0.items r.1) }
    ensures seen { OnOk result (IsPrefix desk.old.seen ended.old.list) }
{
    desk.learn(ended.receipt()?);
    learn_all(alloc, ended, dones)
}

/// Releases what is published, and ends without doors.
fn give_up<R: Wait, D>(rt: &R, session: Session, status: Status) -> Served<D>
    ensures status { result.status ≡ status }
    ensures doors { result.doors.items ≡ [] }
{
    let alloc = session.alloc;
    session.close(rt);
    Served::closed(alloc, status)
}
