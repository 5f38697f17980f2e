//! Slim files (RFC 9636, section 3): version 2, with a minimal first block.
ghost use Rattle.std.specs.Prelude.{◌≡◌, ◌++◌, ◌-◌, ◌^◌, ◌<◌, min, IfOk, OnOk};
ghost use Rattle.std.specs.List.{flat_map};
ghost use Rattle.tzif_reader.specs.Slim.{plan_lists, unsigned_bytes, short_bytes, long_bytes};
ghost use Rattle.tzif_reader.specs.Slim.{type_bytes, leap_bytes, header_start, header_bytes};
ghost use Rattle.tzif_reader.specs.Slim.{first_block, counts_of_plan, block_of, footer_line};
ghost use Rattle.tzif_reader.specs.Slim.{slim_of};

use crate::counts::Counts;
use std::alloc::Global;
use td_base::{Bytes, NoMemory};

/// The content of the second block of a file and of its footer (RFC 9636, sections 3.2 and 3.3). It
/// is not checked: a plan may describe a file that a reader refuses.
#[derive(Clone, Copy)]
pub struct Plan<'a> {
    /// The transition times, in seconds since 1970-01-01T00:00:00Z.
    pub times: &'a [i64],
    /// The index of the local time type from each transition on.
    pub numbers: &'a [u8],
    /// For each type: the offset in seconds east of UTC, the daylight saving flag, and the offset
    /// of its name in the designations.
    pub types: &'a [(i32, u8, u8)],
    /// The names, each with a NUL after it.
    pub designations: &'a [u8],
    /// For each leap line: the second from which it holds, and its correction in seconds.
    pub leaps: &'a [(i64, i32)],
    /// The standard/wall indicators.
    pub standard: &'a [u8],
    /// The UT/local indicators.
    pub ut: &'a [u8],
    /// A POSIX TZ string, or nothing.
    pub footer: &'a [u8],
}

#[tactic(auto, unfolding(crate::specs::Slim::unsigned_bytes))]
fn put_unsigned(file: &mut Bytes, number: u32) -> Result<(), NoMemory>
    ensures { OnOk result (file.new ≡ file.old ++ unsigned_bytes number) }
{
    file.append(&number.to_be_bytes())
}

#[tactic(auto, unfolding(crate::specs::Slim::short_bytes))]
fn put_short(file: &mut Bytes, number: i32) -> Result<(), NoMemory>
    ensures { OnOk result (file.new ≡ file.old ++ short_bytes number) }
{
    file.append(&number.to_be_bytes())
}

#[tactic(auto, unfolding(crate::specs::Slim::long_bytes))]
fn put_long(file: &mut Bytes, number: i64) -> Result<(), NoMemory>
    ensures { OnOk result (file.new ≡ file.old ++ long_bytes number) }
{
    file.append(&number.to_be_bytes())
}

#[tactic(auto, unfolding(crate::specs::Slim::type_bytes))]
fn put_type(file: &mut Bytes, row: &(i32, u8, u8)) -> Result<(), NoMemory>
    ensures { OnOk result (file.new ≡ file.old ++ type_bytes row.now) }
{
    let (offset, flag, index) = *row;
    put_short(file, offset)?;
    file.append(&[flag, index])?;
    Ok(())
}

#[tactic(auto, unfolding(crate::specs::Slim::leap_bytes))]
fn put_leap(file: &mut Bytes, row: &(i64, i32)) -> Result<(), NoMemory>
    ensures { OnOk result (file.new ≡ file.old ++ leap_bytes row.now) }
{
    let (at, correction) = *row;
    put_long(file, at)?;
    put_short(file, correction)?;
    Ok(())
}

fn put_counts(file: &mut Bytes, counts: &[u32]) -> Result<(), NoMemory>
    ensures { OnOk result (file.new ≡ file.old ++ flat_map unsigned_bytes counts.now) }
{
    for count in counts {
        put_unsigned(file, *count)?;
    }
    Ok(())
}

fn put_moments(file: &mut Bytes, times: &[i64]) -> Result<(), NoMemory>
    ensures { OnOk result (file.new ≡ file.old ++ flat_map long_bytes times.now) }
{
    for seconds in times {
        put_long(file, *seconds)?;
    }
    Ok(())
}

fn put_types(file: &mut Bytes, types: &[(i32, u8, u8)]) -> Result<(), NoMemory>
    ensures { OnOk result (file.new ≡ file.old ++ flat_map type_bytes types.now) }
{
    for row in types {
        put_type(file, row)?;
    }
    Ok(())
}

fn put_leaps(file: &mut Bytes, leaps: &[(i64, i32)]) -> Result<(), NoMemory>
    ensures { OnOk result (file.new ≡ file.old ++ flat_map leap_bytes leaps.now) }
{
    for row in leaps {
        put_leap(file, row)?;
    }
    Ok(())
}

#[tactic(auto, unfolding(crate::specs::Slim::header_start))]
fn put_header_start(file: &mut Bytes) -> Result<(), NoMemory>
    ensures { OnOk result (file.new ≡ file.old ++ header_start) }
{
    file.append(b"TZif2\0\0\0\0\0\0\0\0\0\0\0\0\0\0\0")
}

/// A header of version 2 (RFC 9636, section 3.1).
#[tactic(auto, unfolding(crate::specs::Slim::header_bytes))]
fn put_header(file: &mut Bytes, counts: &Counts) -> Result<(), NoMemory>
    ensures { OnOk result (file.new ≡ file.old ++ header_bytes counts.now) }
{
    put_header_start(file)?;
    put_counts(
        file,
        &[
            counts.isutcnt,
            counts.isstdcnt,
            counts.leapcnt,
            counts.timecnt,
            counts.typecnt,
            counts.charcnt,
        ],
    )?;
    Ok(())
}

#[tactic(auto, unfolding(crate::specs::Slim::first_block))]
fn put_first_block(file: &mut Bytes) -> Result<(), NoMemory>
    ensures { OnOk result (file.new ≡ file.old ++ first_block) }
{
    file.append(&[0; 7])
}

/// A number of items as a header holds it, at most 2^32 - 1.
fn count_of(len: usize) -> u32
    ensures { result ≡ min len (2 ^ 32 - 1) }
{
    if len < u32::MAX as usize {
        len as u32
    } else {
        u32::MAX
    }
}

fn counts_of(plan: &Plan) -> Counts
    ensures { result ≡ counts_of_plan (plan_lists plan.now) }
{
    Counts {
        isutcnt: count_of(plan.ut.len()),
        isstdcnt: count_of(plan.standard.len()),
        leapcnt: count_of(plan.leaps.len()),
        timecnt: count_of(plan.times.len()),
        typecnt: count_of(plan.types.len()),
        charcnt: count_of(plan.designations.len()),
    }
}

#[tactic(auto, unfolding(crate::specs::Slim::block_of))]
fn put_block(file: &mut Bytes, plan: &Plan) -> Result<(), NoMemory>
    ensures { OnOk result (file.new ≡ file.old ++ block_of (plan_lists plan.now)) }
{
    put_moments(file, plan.times)?;
    file.append(plan.numbers)?;
    put_types(file, plan.types)?;
    file.append(plan.designations)?;
    put_leaps(file, plan.leaps)?;
    file.append(plan.standard)?;
    file.append(plan.ut)?;
    Ok(())
}

#[tactic(auto, unfolding(crate::specs::Slim::footer_line))]
fn put_footer(file: &mut Bytes, footer: &[u8]) -> Result<(), NoMemory>
    ensures { OnOk result (file.new ≡ file.old ++ footer_line footer.now) }
{
    file.push(b'\n')?;
    file.append(footer)?;
    file.push(b'\n')?;
    Ok(())
}

/// Writes a file of version 2 for a plan, with a first block of one type and one designation (RFC
/// 9636, section 3). The count of a list with 2^32 items or more is written as 2^32 - 1.
#[tactic(auto, unfolding(crate::specs::Slim::slim_of))]
pub fn slim(alloc: Global, plan: &Plan) -> Result<Bytes, NoMemory>
    ensures exact { IfOk result (λ file. file ≡ slim_of (plan_lists plan.now)) }
{
    let mut file = Bytes::new(alloc);
    let first_counts = Counts {
        isutcnt: 0,
        isstdcnt: 0,
        leapcnt: 0,
        timecnt: 0,
        typecnt: 1,
        charcnt: 1,
    };
    put_header(&mut file, &first_counts)?;
    put_first_block(&mut file)?;
    put_header(&mut file, &counts_of(plan))?;
    put_block(&mut file, plan)?;
    put_footer(&mut file, plan.footer)?;
    Ok(file)
}
