ghost use Rattle.std.specs.Prelude.{ℕ, List, [], Some, IfOk, IfSome};
ghost use Rattle.td_base.specs.Views.{SourceView};
ghost use Rattle.catalogue.specs.Releases.{ReleaseData};
ghost use Rattle.installer.specs.Installing.{Installs};
ghost use Rattle.zone_meaning.specs.ZoneHistories.{HasZoneHistory};
ghost use Rattle.run_ends.specs.Commands.{check};
ghost use Rattle.run_ends.specs.Outside.{outside};
ghost use Rattle.run_ends.specs.Running.{Completes, RunsAlone};
ghost use Rattle.plain_commands.specs.CheckingSteps.{AddsRelease, ChecksNext, HasLine};
ghost use Rattle.plain_commands.specs.CheckingSteps.{Stands, TellsRelease, grown};

use catalogue::Catalogue;
use installer::{InstallFault, first_in, next_in};
use release_check::one_folder;
use run_ends::{Status, refuse_install};
use std::alloc::Global;
use td_base::{Bytes, NoMemory, Sink, Store, Written, put_decimal, write_whole};
use zone_meaning::Zone;

/// Checks folders as one history, and prints a line for each, up to the first that is refused.
pub fn check_folders<S: Store, K: Sink>(
    alloc: Global,
    folders: &[Bytes],
    store: &mut S,
    output: &mut K,
) -> Status
    // The input, whatever it is, is left alone.
    ensures { (input : SourceView) → RunsAlone (Some (check folders.now))
        (outside (S.seen store.old) input (K.seen output.old))
        (outside (S.seen store.new) input (K.seen output.new)) result }
{
    let mut last = None;
    for folder in folders {
        match check_next(alloc, folder.as_slice(), store, output, &last) {
            Ok(next) => last = Some(next),
            Err(status) => return status,
        }
    }
    Status::Done
}

/// Checks one more folder, after the history of a catalogue, and prints its line. Returns the
/// catalogue with its release, or the status that ends the run.
fn check_next<S: Store, K: Sink>(
    alloc: Global,
    folder: &[u8],
    store: &mut S,
    output: &mut K,
    last: &Option<Catalogue<Zone>>,
) -> Result<Catalogue<Zone>, Status>
    requires { IfSome last.now HasZoneHistory }
    ensures { (H : List ReleaseData) → Stands last.now H
        → ChecksNext H folder.now (S.seen store.old) (S.seen store.new)
        (K.seen output.old) (K.seen output.new) result }
{
    match follow(alloc, folder, store, last) {
        Ok(next) => tell(alloc, next, output),
        Err(fault) => Err(refuse_install(alloc, &fault, output)),
    }
}

/// The catalogue of a history, extended by the release of a folder, which may be the first.
fn follow<S: Store>(
    alloc: Global,
    folder: &[u8],
    store: &mut S,
    last: &Option<Catalogue<Zone>>,
) -> Result<Catalogue<Zone>, InstallFault>
    requires { IfSome last.now HasZoneHistory }
    ensures found { (H : List ReleaseData) → Stands last.now H
        → Installs (S.seen store.old) (S.seen store.new) folder.now [] H (grown H) result }
    ensures stands { IfOk result (AddsRelease last.now) }
{
    match last {
        None => first_in(alloc, folder, store),
        Some(last) => next_in(alloc, folder, store, last),
    }
}

/// Prints the line of a catalogue's last release.
fn tell<K: Sink>(
    alloc: Global,
    next: Catalogue<Zone>,
    output: &mut K,
) -> Result<Catalogue<Zone>, Status>
    requires { HasZoneHistory next }
    ensures { TellsRelease next (K.seen output.old) (K.seen output.new) result }
{
    let Ok(line) = ok_line(alloc, &next) else {
        return Err(Status::NoMemory);
    };
    match write_whole(output, line.as_slice()) {
        Written::Whole => Ok(next),
        Written::Cut => Err(Status::NotWritten),
    }
}

/// The line of an accepted release: `ok`, the token of the last place and the number of its zones.
fn ok_line(alloc: Global, catalogue: &Catalogue<Zone>) -> Result<Bytes, NoMemory>
    requires { HasZoneHistory catalogue.now }
    ensures { IfOk result (HasLine catalogue.now) }
{
    let mut line = Bytes::from_slice(alloc, b"ok ")?;
    line.append(catalogue.token(catalogue.count()).as_slice())?;
    line.append(b" ")?;
    put_decimal(&mut line, catalogue.len() as u64)?;
    line.append(b"\n")?;
    Ok(line)
}

/// Law: if nothing failed and its folders give releases, `check` prints a line for each, or memory
/// runs out.
pub fn checks_complete()
    ensures { (dirs : List (List ℕ)) → Completes (check dirs) }
{
    one_folder();
}
