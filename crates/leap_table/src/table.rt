//! The table of a file's leap-second records.
ghost use Rattle.std.specs.Prelude.{◌≡◌, ◌≢◌, ◌<◌, ◌≤◌, ◌++◌, false, true, length, IfOk, IfErr};
ghost use Rattle.std.specs.Prelude.{OnOk};
ghost use Rattle.td_base.specs.FirstFault.{IsFirstFault};
ghost use Rattle.leap_table.specs.Faults.{table_cause, table_fault};
ghost use Rattle.leap_table.specs.Steps.{HasRisen, step_pairs};
ghost use Rattle.tzif_reader.specs.LeapSteps.{cause_of, is_no_line, leap_steps, line_before};
ghost use Rattle.tzif_reader.specs.LeapSteps.{step_of};
ghost use Rattle.tzif_reader.specs.declared.zone_file.TheConstants.{MOST_BYTES};

use crate::LeapFault;
use crate::leap_lines::step_at;
use catalogue::{LeapStep, Leaps};
use std::alloc::Global;
use td_base::{Bytes, Items};
use tzif_reader::{LeapLine, ZoneFile};

/// The table of leap seconds of a zone file. It holds the bytes of that file and the date from
/// which the table is out of date. A file that was read has a bounded number of records
/// (`leap_lines_fit` of `tzif_reader`).
pub fn from_file(
    alloc: Global,
    file: &ZoneFile,
    bytes: &[u8],
    expires: &[u8],
) -> Result<Leaps, LeapFault>
    requires few { length file.now.leaps ≤ MOST_BYTES }
    ensures file { IfOk result (λ table. table.file ≡ bytes.now) }
    ensures expires { IfOk result (λ table. table.expires ≡ expires.now) }
    ensures steps { IfOk result (λ table. step_pairs table.steps ≡ leap_steps file.now.leaps) }
    ensures fault { IsFirstFault LeapFault.NoMemory (table_fault file.now.leaps) result }
{
    let steps = steps_of(alloc, file.leaps.as_slice())?;
    Ok(Leaps {
        file: Bytes::from_slice(alloc, bytes)?,
        expires: Bytes::from_slice(alloc, expires)?,
        steps,
    })
}

/// The steps of the table: 1972-01-01, when the difference was 10 seconds, and then those of the
/// records.
fn steps_of(alloc: Global, lines: &[LeapLine]) -> Result<Items<LeapStep>, LeapFault>
    requires few { length lines.now ≤ MOST_BYTES }
    ensures steps { IfOk result (λ steps. step_pairs steps ≡ leap_steps lines.now) }
    ensures fault { IsFirstFault LeapFault.NoMemory (table_fault lines.now) result }
{
    let mut steps = Items::new(alloc);
    steps.push(LeapStep {
        day: 730,
        offset: 10,
    })?;
    for number in 0..lines.len() {
        add_step(&mut steps, lines, number)?;
    }
    Ok(steps)
}

/// Appends the step of a record, unless the record states when the table expires.
fn add_step(steps: &mut Items<LeapStep>, lines: &[LeapLine], number: usize) -> Result<(), LeapFault>
    requires inside { number < length lines.now }
    requires few { length lines.now ≤ MOST_BYTES }
    requires risen { HasRisen (line_before lines.now number) number }
    ensures step { OnOk result
        (step_pairs steps.new ≡ step_pairs steps.old ++ step_of lines.now number) }
    ensures fits { OnOk result (is_no_line lines.now number ≡ false) }
    ensures no_line { IfErr result (λ e. e ≢ LeapFault.NoMemory
        → is_no_line lines.now number ≡ true) }
    ensures cause { IfErr result (λ e. e ≢ LeapFault.NoMemory
        → e ≡ table_cause (cause_of lines.now number)) }
{
    let step = step_at(lines, number)?;
    if let Some(step) = step {
        steps.push(step)?;
    }
    Ok(())
}
