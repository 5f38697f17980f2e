ghost use Rattle.std.specs.Prelude.{◌≡◌, ℕ, ◌+◌, ◌≤◌, [], length, Some, false, All, IfOk, OnOk};
ghost use Rattle.publication.specs.Views.{IsNewDesk};
ghost use Rattle.td_base.specs.Views.{SourceView, StoreView};
ghost use Rattle.run_ends.specs.Commands.{load};
ghost use Rattle.run_ends.specs.Outside.{outside};
ghost use Rattle.run_ends.specs.Running.{Completes, RunsAlone};
ghost use Rattle.run_ends.specs.Running.Loading.{IsLoadLine, LoadsAll};
ghost use Rattle.plain_commands.specs.LoadSteps.{JoinsMade};

pub(crate) mod load_turns;

use crate::loading::load_turns::serve_release;
use admission::Rules;
use catalogue::Catalogue;
use installer::{InstallPolicy, Installer};
use made_load::{LoadCounts, release, summary};
use publication::Desk;
use run_ends::{KeptTests, Status, print};
use std::alloc::Global;
use std::sync::Wait;
use td_base::{Bytes, NoMemory, Sink};
use zone_meaning::Zone;

/// How many releases are made, and the tests that the caller keeps.
#[derive(Clone, Copy)]
pub struct LoadPlan<'w> {
    pub number: u32,
    pub tests: &'w KeptTests<'w>,
}

/// Makes this many releases, serves requests after each, and prints the counts of the replies. A
/// load that stops early, for any reason, ends as one without memory.
pub fn load<R: Wait, K: Sink>(rt: &R, alloc: Global, plan: &LoadPlan<'_>, output: &mut K) -> Status
    requires some { 1 ≤ plan.now.number }
    requires most { plan.now.number ≤ 1_000 }
    // The store and the input, whatever they are, are left alone.
    ensures { (store : StoreView) (input : SourceView) → RunsAlone (Some (load plan.now.number))
        (outside store input (K.seen output.old)) (outside store input (K.seen output.new)) result }
{
    match load_line(rt, alloc, plan) {
        Ok(line) => print(output, Status::Done, line.as_slice()),
        Err(NoMemory) => Status::NoMemory,
    }
}

/// The line with the counts of a load of this many releases.
fn load_line<R: Wait>(rt: &R, alloc: Global, plan: &LoadPlan<'_>) -> Result<Bytes, NoMemory>
    requires some { 1 ≤ plan.now.number }
    requires most { plan.now.number ≤ 1_000 }
    ensures { IfOk result (IsLoadLine plan.now.number) }
{
    let counts = count_load(rt, alloc, plan)?;
    let mut line = Bytes::new(alloc);
    summary(&mut line, &counts)?;
    Ok(line)
}

/// Publishes the releases one after another, and serves the requests of each.
fn count_load<R: Wait>(rt: &R, alloc: Global, plan: &LoadPlan<'_>) -> Result<LoadCounts, NoMemory>
    requires some { 1 ≤ plan.now.number }
    requires most { plan.now.number ≤ 1_000 }
    ensures { IfOk result (LoadsAll plan.now.number) }
{
    let (manifest, mut store) = release(alloc, plan.number, 1)?;
    match Installer::open_manifest(rt, alloc, &manifest, &mut store, 1) {
        Ok((installer, desks)) => count_opened(rt, alloc, plan, installer, desks),
        Err(_) => Err(NoMemory),
    }
}

/// Like `count_load`, once the first release is published for one desk.
fn count_opened<R: Wait>(
    rt: &R,
    alloc: Global,
    plan: &LoadPlan<'_>,
    installer: Installer,
    desks: Vec<Desk<Catalogue<Zone>>>,
) -> Result<LoadCounts, NoMemory>
    requires some { 1 ≤ plan.now.number }
    requires most { plan.now.number ≤ 1_000 }
    requires first { JoinsMade [] installer.list }
    requires one { length desks.items ≡ 1 }
    requires each { All (IsNewDesk installer.pair installer.list false) desks.items }
    ensures { IfOk result (LoadsAll plan.now.number) }
{
    let mut installer = installer;
    let mut desks = desks;
    let mut desk = desks.pop().unwrap();
    let counts = count_releases(rt, alloc, plan, &mut installer, &mut desk);
    installer.close(rt);
    counts
}

/// Serves the requests of the first release, which is published, then publishes and serves the
/// others.
fn count_releases<R: Wait>(
    rt: &R,
    alloc: Global,
    plan: &LoadPlan<'_>,
    installer: &mut Installer,
    desk: &mut Desk<Catalogue<Zone>>,
) -> Result<LoadCounts, NoMemory>
    requires some { 1 ≤ plan.now.number }
    requires most { plan.now.number ≤ 1_000 }
    requires first { JoinsMade [] installer.old.list }
    requires paired { desk.old.pair ≡ installer.old.pair }
    requires seen { desk.old.seen ≡ installer.old.list }
    ensures { IfOk result (LoadsAll plan.now.number) }
{
    let mut counts = LoadCounts::none();
    serve_release(alloc, desk, &mut counts)?;
    let mut made = 1;
    'releases: while made < plan.number {
        made += 1;
        publish(rt, alloc, plan, made, installer, desk)?;
        serve_release(alloc, desk, &mut counts)?;
    }
    Ok(counts)
}

/// Publishes a release, and lets the desk learn it.
fn publish<R: Wait>(
    rt: &R,
    alloc: Global,
    plan: &LoadPlan<'_>,
    made: u32,
    installer: &mut Installer,
    desk: &mut Desk<Catalogue<Zone>>,
) -> Result<(), NoMemory>
    requires within { made ≤ plan.now.number }
    requires most { plan.now.number ≤ 1_000 }
    requires next { made ≡ length installer.old.list + 1 }
    requires paired { desk.old.pair ≡ installer.old.pair }
    requires seen { desk.old.seen ≡ installer.old.list }
    ensures joins { OnOk result (JoinsMade installer.old.list installer.new.list) }
    ensures longer { OnOk result (length installer.new.list ≡ length installer.old.list + 1) }
    ensures paired { OnOk result (desk.new.pair ≡ installer.new.pair) }
    ensures seen { OnOk result (desk.new.seen ≡ installer.new.list) }
{
    let (manifest, mut store) = release(alloc, plan.number, made)?;
    let asked = InstallPolicy::new(Rules::none(alloc), plan.tests.wants);
    match installer.install_manifest(rt, alloc, &manifest, &mut store, &asked) {
        Ok(receipt) => {
            desk.learn(receipt);
            Ok(())
        }
        Err(_) => Err(NoMemory),
    }
}

/// Law: if nothing failed, `load` prints its line, or memory runs out.
pub fn load_complete()
    ensures { (n : ℕ) → Completes (load n) }
{}
