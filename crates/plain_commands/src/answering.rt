ghost use Rattle.std.specs.Prelude.{◌≡◌, ℕ, ◌<◌, List, length, Some, true, IfOk};
ghost use Rattle.catalogue.specs.Holdings.{history_of};
ghost use Rattle.run_ends.specs.Commands.{answer};
ghost use Rattle.run_ends.specs.Outside.{outside};
ghost use Rattle.run_ends.specs.Running.{Completes, RunsAlone};
ghost use Rattle.run_ends.specs.Tells.{ServesLast, ServesLater};

use admission::Rules;
use catalogue::Catalogue;
use installer::InstallPolicy;
use publication::{Desk, Ended};
use release_check::one_folder;
use run_ends::{KeptTests, OpenedServer, Session, Status, open_all, refuse_install, status_of};
use std::alloc::Global;
use std::sync::Wait;
use td_base::{Bytes, End, Joined, NoMemory, Role, Sink, Source, Store};
use zone_meaning::Zone;

/// Folders whose releases are installed in this order, and the tests that the caller keeps.
#[derive(Clone, Copy)]
pub struct AnswerPlan<'w> {
    pub folders: &'w [Bytes],
    pub tests: &'w KeptTests<'w>,
}

/// Installs the releases of folders, and serves the input and output, as one connection, over the
/// last of them.
pub fn answer<R: Wait, S: Store, C: Source, K: Sink>(
    rt: &R,
    alloc: Global,
    plan: &AnswerPlan<'_>,
    store: &mut S,
    input: &mut C,
    output: &mut K,
) -> Status
    requires { 0 < length plan.now.folders.now }
    ensures { RunsAlone (Some (answer plan.now.folders.now))
        (outside (S.seen store.old) (C.seen input.old) (K.seen output.old))
        (outside (S.seen store.new) (C.seen input.new) (K.seen output.new)) result }
{
    let asked = InstallPolicy::new(Rules::none(alloc), plan.tests.wants);
    match open_all(rt, alloc, plan.folders, &asked, store, 0) {
        Ok(OpenedServer { session, desks: _ }) => serve_last(rt, alloc, session, input, output),
        Err(fault) => refuse_install(alloc, &fault, output),
    }
}

/// Serves the input and output over the last release of a session, then ends the history.
fn serve_last<R: Wait, C: Source, K: Sink>(
    rt: &R,
    alloc: Global,
    session: Session,
    input: &mut C,
    output: &mut K,
) -> Status
    ensures { ServesLast (history_of session.installer.list)
        (C.seen input.old) (C.seen input.new) (K.seen output.old) (K.seen output.new) result }
{
    match end_history(rt, session) {
        Ok((ended, mut desk)) => {
            let end = serve(alloc, &mut desk, input, output);
            ended.close(rt);
            status_of(end)
        }
        Err(NoMemory) => Status::NoMemory,
    }
}

/// Ends the history of a session, and lets its desk learn the end. What is published stays until
/// the other value is closed.
fn end_history<R: Wait>(
    rt: &R,
    session: Session,
) -> Result<(Ended<Catalogue<Zone>>, Desk<Catalogue<Zone>>), NoMemory>
    ensures { IfOk result (λ p. (p.1.seen ≡ session.installer.list) × (p.1.ended ≡ true)) }
{
    let Session {
        alloc: _,
        installer,
        mut desk,
    } = session;
    let mut ended = installer.end(rt)?;
    match ended.receipt() {
        Ok(receipt) => {
            desk.learn(receipt);
            Ok((ended, desk))
        }
        Err(NoMemory) => {
            ended.close(rt);
            Err(NoMemory)
        }
    }
}

/// Serves the input and output, as one connection, over a desk that has seen everything published.
fn serve<C: Source, K: Sink>(
    alloc: Global,
    desk: &mut Desk<Catalogue<Zone>>,
    input: &mut C,
    output: &mut K,
) -> End
    requires { desk.old.ended ≡ true }
    ensures { ServesLater (history_of desk.old.seen)
        (C.seen input.old) (C.seen input.new) (K.seen output.old) (K.seen output.new) result }
{
    let mut conn = Joined::new(input, output);
    let report = connection::serve(alloc, &Role::Primary, desk, &mut conn);
    report.end
}

/// Law: if nothing failed and its folders give releases, `answer` ends at the end of the input, or
/// memory runs out.
pub fn answers_complete()
    ensures { (dirs : List (List ℕ)) → Completes (answer dirs) }
{
    one_folder();
}
