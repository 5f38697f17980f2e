//! Single leap-second records, each compared with the one before it.
ghost use Rattle.std.specs.Prelude.{◌≡◌, ◌<◌, ◌≤◌, [], ◌∷◌, ◌+ℤ◌, ◌-ℤ◌, ◌≤ℤ◌, ◌<ℤ◌, int_rem, pos};
ghost use Rattle.std.specs.Prelude.{false, true, length, IfOk, IfErr, OnOk, option_to_list};
ghost use Rattle.std.specs.Int.{int_div_euclid};
ghost use Rattle.std.specs.Ordering.{int_eq};
ghost use Rattle.leap_table.specs.Faults.{table_cause};
ghost use Rattle.leap_table.specs.Steps.{HasRisen, step_pairs};
ghost use Rattle.tzif_reader.specs.LeapSteps as spec;
ghost use Rattle.tzif_reader.specs.declared.zone_file.TheConstants.{MOST_BYTES};

use crate::LeapFault;
use catalogue::LeapStep;
use td_civil::HI;
use tzif_reader::LeapLine;

/// The record before one. Before the first this is the beginning of 1972, without correction.
fn line_before(lines: &[LeapLine], number: usize) -> LeapLine
    requires { number < length lines.now }
    ensures { result ≡ spec.line_before lines.now number }
{
    if number == 0 {
        return LeapLine {
            at: 63_072_000,
            correction: 0,
        };
    }
    lines[number - 1]
}

/// The record of this number, counted from 0.
fn line_at(lines: &[LeapLine], number: usize) -> LeapLine
    requires { number < length lines.now }
    ensures { result ≡ spec.line_at lines.now number }
{
    lines[number]
}

/// Whether a record states when the table expires.
#[tactic(auto, unfolding(tzif_reader::specs::LeapSteps::is_expiry))]
fn is_expiry(lines: &[LeapLine], number: usize) -> bool
    requires { number < length lines.now }
    ensures { result ≡ spec.is_expiry lines.now number }
{
    let before = line_before(lines, number);
    number > 0 && number + 1 == lines.len() && lines[number].correction == before.correction
}

/// Whether a record is later than the one before, and before 9999.
#[tactic(auto, unfolding(tzif_reader::specs::LeapSteps::is_in_time))]
fn is_in_time(lines: &[LeapLine], number: usize) -> bool
    requires { number < length lines.now }
    ensures { result ≡ spec.is_in_time lines.now number }
{
    let line = lines[number];
    line_before(lines, number).at < line.at && line.at < HI
}

/// Whether the correction of a record is one second more than that of the one before.
#[tactic(auto, unfolding(tzif_reader::specs::LeapSteps::is_one_on))]
fn is_one_on(lines: &[LeapLine], number: usize) -> bool
    requires inside { number < length lines.now }
    requires few { length lines.now ≤ MOST_BYTES }
    requires risen { HasRisen (spec.line_before lines.now number) number }
    ensures { result ≡ spec.is_one_on lines.now number }
{
    let next = line_before(lines, number).correction + 1;
    lines[number].correction == next
}

/// Whether a record adds one second to the one before, or states when the table expires.
#[tactic(auto, unfolding(tzif_reader::specs::LeapSteps::is_step))]
fn is_step(lines: &[LeapLine], number: usize) -> bool
    requires inside { number < length lines.now }
    requires few { length lines.now ≤ MOST_BYTES }
    requires risen { HasRisen (spec.line_before lines.now number) number }
    ensures { result ≡ spec.is_step lines.now number }
{
    is_in_time(lines, number) && (is_expiry(lines, number) || is_one_on(lines, number))
}

/// The second, in UTC, at which the correction of a record begins, given the record before.
fn second_after(line: LeapLine, before: LeapLine) -> i64
    requires line { (pos 0 ≤ℤ line.at) × (line.at <ℤ HI) }
    requires before { (pos 0 ≤ℤ before.correction) × (before.correction ≤ℤ pos MOST_BYTES) }
    ensures { result ≡ line.at -ℤ before.correction }
{
    line.at - before.correction as i64
}

/// Whether a second begins a day in UTC.
fn begins_day(second: i64) -> bool
    ensures { result ≡ int_eq (int_rem second (pos 86400)) (pos 0) }
{
    second % 86_400 == 0
}

/// The step of a correction, in seconds, that begins at a second of UTC.
fn step_from(second: i64, correction: i32) -> LeapStep
    requires { correction ≤ℤ pos MOST_BYTES }
    ensures { step_pairs (result ∷ [])
        ≡ (int_div_euclid second (pos 86400), pos 10 +ℤ correction) ∷ [] }
{
    LeapStep {
        day: second.div_euclid(86_400),
        offset: 10 + correction,
    }
}

/// The step of a record, or None where it states when the table expires.
#[tactic(auto, unfolding(tzif_reader::specs::LeapSteps::is_no_line, tzif_reader::specs::LeapSteps::is_midnight))]
pub fn step_at(lines: &[LeapLine], number: usize) -> Result<Option<LeapStep>, LeapFault>
    requires inside { number < length lines.now }
    requires few { length lines.now ≤ MOST_BYTES }
    requires risen { HasRisen (spec.line_before lines.now number) number }
    ensures step { IfOk result (λ step.
        step_pairs (option_to_list step) ≡ spec.step_of lines.now number) }
    ensures fits { OnOk result (spec.is_no_line lines.now number ≡ false) }
    ensures no_line { IfErr result (λ e. spec.is_no_line lines.now number ≡ true) }
    ensures cause { IfErr result (λ e. e ≡ table_cause (spec.cause_of lines.now number)) }
{
    if !is_step(lines, number) {
        return Err(LeapFault::Step(number));
    }
    if is_expiry(lines, number) {
        return Ok(None);
    }
    let line = line_at(lines, number);
    let second = second_after(line, line_before(lines, number));
    if !begins_day(second) {
        return Err(LeapFault::Midnight(number));
    }
    let step = step_from(second, line.correction);
    Ok(Some(step))
}
