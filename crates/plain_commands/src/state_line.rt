ghost use Rattle.std.specs.Prelude.{◌≡◌, ◌≢◌, ℕ, ℤ, List, ◌++◌, None, Some, codes, if◌then◌else◌};
ghost use Rattle.std.specs.Prelude.{IfOk, IfErr};
ghost use Rattle.td_base.specs.Views.{SourceView};
ghost use Rattle.td_civil.specs.Bounds.{HasMeaning};
ghost use Rattle.zone_meaning.specs.Faults.{zone_fault};
ghost use Rattle.zone_meaning.specs.State.{zone_state};
ghost use Rattle.run_ends.specs.Commands.{at};
ghost use Rattle.run_ends.specs.Outside.{outside};
ghost use Rattle.run_ends.specs.Running.{Completes, RunsAlone};
ghost use Rattle.run_ends.specs.Running.StateLine.{state_line};
ghost use Rattle.run_ends.specs.Tells.{TellsRefused, Shows};

use itoa::Buffer;
use run_ends::{Status, print, refuse, refuse_shown};
use std::alloc::Global;
use td_base::{Bytes, FileRead, NoMemory, Sink, Store};
use td_civil::{Local, Moment};
use tzif_reader::MOST_BYTES;
use zone_meaning::{ZoneFault, at, zone_of};

/// One byte more than a zone file may have, so that a longer one is noticed.
const ZONE_ROOM: u64 = MOST_BYTES as u64 + 1;

/// Prints the state of a zone file at a moment, or why there is none.
pub fn state_at<S: Store, K: Sink>(
    alloc: Global,
    file: &[u8],
    moment: Moment,
    store: &mut S,
    output: &mut K,
) -> Status
    requires { HasMeaning moment.seconds }
    // The input, whatever it is, is left alone.
    ensures { (input : SourceView) → RunsAlone (Some (at file.now moment.seconds))
        (outside (S.seen store.old) input (K.seen output.old))
        (outside (S.seen store.new) input (K.seen output.new)) result }
{
    match store.read_file(alloc, file, ZONE_ROOM) {
        FileRead::Found(bytes) => show(alloc, bytes, moment, output),
        FileRead::Absent => refuse_absent(alloc, file, output),
        FileRead::Failed => Status::NotRead,
        FileRead::NoMemory => Status::NoMemory,
    }
}

/// Prints the state that the bytes of a zone file give at a moment, or why they give none.
fn show<K: Sink>(alloc: Global, bytes: Bytes, moment: Moment, output: &mut K) -> Status
    requires { HasMeaning moment.seconds }
    ensures { Shows bytes moment.seconds (K.seen output.old) (K.seen output.new) result }
{
    match line_at(alloc, bytes, moment) {
        Ok(line) => print(output, Status::Done, line.as_slice()),
        Err(ZoneFault::NoMemory) => Status::NoMemory,
        Err(fault) => refuse_shown(alloc, Status::Refused, &fault, output),
    }
}

/// The line for a zone file at a moment, or the file's first fault.
fn line_at(alloc: Global, bytes: Bytes, moment: Moment) -> Result<Bytes, ZoneFault>
    requires { HasMeaning moment.seconds }
    ensures line { IfOk result (λ line. (zone_fault bytes ≡ None)
        × (line ≡ state_line (zone_state bytes moment.seconds))) }
    ensures fault { IfErr result (λ f. f ≢ ZoneFault.NoMemory → zone_fault bytes ≡ Some f) }
{
    let zone = zone_of(alloc, bytes)?;
    let state = at(&zone, moment);
    let line = state_line(alloc, &state)?;
    Ok(line)
}

/// The line for a state of local time: its offset in seconds east of UTC, whether daylight saving
/// time holds, and its name.
fn state_line(alloc: Global, state: &Local) -> Result<Bytes, NoMemory>
    ensures { IfOk result (λ line. line ≡ state_line state.now) }
{
    let mut buffer = Buffer::new();
    let mut line = Bytes::from_slice(alloc, buffer.format(state.offset).as_bytes())?;
    line.append(kind_word(state.dst))?;
    line.append(state.name.as_slice())?;
    line.append(b"\n")?;
    Ok(line)
}

/// The word for daylight saving or standard time, between blanks.
pub(crate) fn kind_word(dst: bool) -> &'static [u8]
    ensures { result.now ≡ (if dst then codes " dst " else codes " std ") }
{
    if dst { b" dst " } else { b" std " }
}

/// Ends a run because a file is absent.
fn refuse_absent<K: Sink>(alloc: Global, file: &[u8], output: &mut K) -> Status
    ensures { TellsRefused (codes "8 Absent " ++ file.now)
        (K.seen output.old) (K.seen output.new) result }
{
    match absent_text(alloc, file) {
        Ok(text) => refuse(alloc, Status::Refused, &text, output),
        Err(NoMemory) => Status::NoMemory,
    }
}

/// The text for an absent file.
fn absent_text(alloc: Global, file: &[u8]) -> Result<Bytes, NoMemory>
    ensures { IfOk result (λ text. text ≡ codes "8 Absent " ++ file.now) }
{
    let mut text = Bytes::from_slice(alloc, b"8 Absent ")?;
    text.append(file)?;
    Ok(text)
}

/// Law: if nothing failed and the file is that of a zone, `at` prints the state, or memory runs
/// out.
pub fn state_complete()
    ensures { (path : List ℕ) (m : ℤ) → Completes (at path m) }
{}
