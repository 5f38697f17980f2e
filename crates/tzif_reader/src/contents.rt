//! What the fields of a block may hold.

ghost use Rattle.std.specs.Prelude.{◌≡◌, ◌*◌, ◌+◌, ◌<◌, ◌≤◌, length, OnOk, IfErr, None, Some};
ghost use Rattle.std.specs.Prelude.{nat_lt, slice_index};
ghost use Rattle.std.specs.Option.{option_copied};
ghost use Rattle.tzif_reader.specs.Cut.{designation_at};
ghost use Rattle.td_base.specs.FirstFault.{least};
ghost use Rattle.tzif_reader.specs.Faults.{is_unordered, is_unknown, is_unnamed, is_unflagged};
ghost use Rattle.tzif_reader.specs.Faults.{is_beyond, is_too_late, contents_fault};
ghost use Rattle.tzif_reader.specs.Views.{parts_view, AreSized};

use crate::TzifFault;
use crate::block::Block;
use crate::counts::Counts;
use crate::numbers::{long_at, short_at};
use crate::text::before;
use td_civil::HI;

/// The most bytes of a name.
const LONGEST_NAME: usize = 32;

/// The largest offset east or west of UTC, in seconds.
const GREATEST_OFFSET: i32 = 86_399;

/// The name of type `i`, up to its NUL byte.
#[tactic(auto, unfolding(crate::specs::Cut::designation_at))]
pub fn name_of<'a>(designations: &'a [u8], types: &[u8], i: usize) -> Option<&'a [u8]>
    requires { 6 * i + 6 ≤ length types.now }
    ensures { option_copied result ≡ designation_at designations.now types.now i }
{
    let index = types[6 * i + 5] as usize;
    let (_, text) = designations.split_at(index.min(designations.len()));
    before(text, 0)
}

fn is_unordered(times: &[u8], i: usize) -> bool
    requires { 8 * i + 8 ≤ length times.now }
    ensures { result ≡ is_unordered times.now i }
{
    i > 0 && long_at(times, 8 * i) <= long_at(times, 8 * (i - 1))
}

fn is_unnamed(designations: &[u8], types: &[u8], i: usize) -> bool
    requires { 6 * i + 6 ≤ length types.now }
    ensures { result ≡ is_unnamed designations.now types.now i }
{
    match name_of(designations, types, i) {
        Some(name) => name.len() > LONGEST_NAME,
        None => true,
    }
}

/// Whether a flag is neither 0 nor 1. A missing flag counts as 0.
fn is_strange(flags: &[u8], i: usize) -> bool
    ensures { result ≡ nat_lt 1 (slice_index flags.now i) }
{
    i < flags.len() && flags[i] > 1
}

fn is_unflagged(block: &Block, i: usize) -> bool
    requires { 6 * i + 6 ≤ length block.now.types.now }
    ensures { result ≡ is_unflagged (parts_view block.now) i }
{
    block.types[6 * i + 4] > 1 || is_strange(block.standard, i) || is_strange(block.ut, i)
}

fn is_beyond(types: &[u8], i: usize) -> bool
    requires { 6 * i + 6 ≤ length types.now }
    ensures { result ≡ is_beyond types.now i }
{
    let offset = short_at(types, 6 * i);
    offset < -GREATEST_OFFSET || offset > GREATEST_OFFSET
}

#[tactic(auto, using(td_base::proofs::lemmas::LeastLemmas::least_step, td_base::proofs::lemmas::LeastLemmas::least_found, td_base::proofs::lemmas::LeastLemmas::least_none))]
fn first_unordered(times: &[u8], timecnt: usize) -> Option<usize>
    requires { length times.now ≡ 8 * timecnt }
    ensures { result ≡ least timecnt (is_unordered times.now) }
{
    for i in 0..timecnt {
        if is_unordered(times, i) {
            return Some(i);
        }
    }
    None
}

#[tactic(auto, using(td_base::proofs::lemmas::LeastLemmas::least_step, td_base::proofs::lemmas::LeastLemmas::least_found, td_base::proofs::lemmas::LeastLemmas::least_none))]
fn first_unknown(numbers: &[u8], typecnt: u32) -> Option<usize>
    ensures { result ≡ least (length numbers.now) (is_unknown typecnt numbers.now) }
{
    for (i, number) in numbers.iter().enumerate() {
        if u32::from(*number) >= typecnt {
            return Some(i);
        }
    }
    None
}

#[tactic(auto, using(td_base::proofs::lemmas::LeastLemmas::least_step, td_base::proofs::lemmas::LeastLemmas::least_found, td_base::proofs::lemmas::LeastLemmas::least_none))]
fn first_unnamed(designations: &[u8], types: &[u8], typecnt: usize) -> Option<usize>
    requires { length types.now ≡ 6 * typecnt }
    ensures { result ≡ least typecnt (is_unnamed designations.now types.now) }
{
    for i in 0..typecnt {
        if is_unnamed(designations, types, i) {
            return Some(i);
        }
    }
    None
}

#[tactic(auto, using(td_base::proofs::lemmas::LeastLemmas::least_step, td_base::proofs::lemmas::LeastLemmas::least_found, td_base::proofs::lemmas::LeastLemmas::least_none))]
fn first_unflagged(block: &Block, typecnt: usize) -> Option<usize>
    requires { length block.now.types.now ≡ 6 * typecnt }
    ensures { result ≡ least typecnt (is_unflagged (parts_view block.now)) }
{
    for i in 0..typecnt {
        if is_unflagged(block, i) {
            return Some(i);
        }
    }
    None
}

#[tactic(auto, using(td_base::proofs::lemmas::LeastLemmas::least_step, td_base::proofs::lemmas::LeastLemmas::least_found, td_base::proofs::lemmas::LeastLemmas::least_none))]
fn first_beyond(types: &[u8], typecnt: usize) -> Option<usize>
    requires { length types.now ≡ 6 * typecnt }
    ensures { result ≡ least typecnt (is_beyond types.now) }
{
    for i in 0..typecnt {
        if is_beyond(types, i) {
            return Some(i);
        }
    }
    None
}

fn is_late(times: &[u8], timecnt: usize) -> bool
    requires { length times.now ≡ 8 * timecnt }
    ensures { result ≡ is_too_late timecnt times.now }
{
    timecnt > 0 && long_at(times, 8 * (timecnt - 1)) >= HI
}

/// Finds the first fault of the fields, one kind of fault after another.
#[tactic(auto, using(td_base::proofs::lemmas::FaultLemmas::sooner, td_base::proofs::lemmas::FaultLemmas::later, td_base::proofs::lemmas::FaultLemmas::neither), unfolding(crate::specs::Faults::contents_fault))]
pub fn check(counts: &Counts, block: &Block) -> Result<(), TzifFault>
    requires { AreSized counts.now (parts_view block.now) }
    ensures no_fault { OnOk result (contents_fault counts.now (parts_view block.now) ≡ None) }
    ensures fault { IfErr result (λ e. contents_fault counts.now (parts_view block.now) ≡ Some e) }
{
    let timecnt = counts.timecnt as usize;
    let typecnt = counts.typecnt as usize;
    if let Some(i) = first_unordered(block.times, timecnt) {
        return Err(TzifFault::Order(i));
    }
    if let Some(i) = first_unknown(block.numbers, counts.typecnt) {
        return Err(TzifFault::TypeNumber(i));
    }
    if let Some(i) = first_unnamed(block.designations, block.types, typecnt) {
        return Err(TzifFault::Designation(i));
    }
    if let Some(i) = first_unflagged(block, typecnt) {
        return Err(TzifFault::Indicator(i));
    }
    if let Some(i) = first_beyond(block.types, typecnt) {
        return Err(TzifFault::OffsetBeyond(i));
    }
    if is_late(block.times, timecnt) {
        return Err(TzifFault::TooLate);
    }
    Ok(())
}
