ghost use Rattle.std.specs.Prelude.{◌≡◌, ◌++◌, OnErr, OnOk};
ghost use Rattle.td_civil.specs.declared.moment_type.Moment.{Moment as Stamp};
ghost use Rattle.release_check.specs.FaultText.{readable, shown_text, stamp_text};

use posix_footer::FooterFault;
use release_manifest::ManifestFault;
use std::alloc::Global;
use std::error::Error;
use std::{fmt, str};
use td_base::{Bytes, NoMemory, ShortText};
use td_civil::{Moment, utc_text};
use tzif_reader::TzifFault;

/// The number of a release that exceeds its limit.
#[derive(Clone, Copy, Debug, PartialEq, Eq)]
pub enum Limited {
    /// The zones, at most [`catalogue::MOST_ZONES`].
    Zones,
    /// The identifiers and aliases, at most [`catalogue::MOST_NAMES`].
    Names,
}

impl fmt::Display for Limited {
    ghost use Rattle.std.specs.Prelude.{Some};
    ghost use Rattle.release_check.specs.FaultText.{limited_text};

    ghost output = { λ which. Some (limited_text which) };

    fn fmt<W: fmt::Write>(&self, f: &mut fmt::Formatter<W>) -> fmt::Result {
        match self {
            Limited::Zones => write!(f, "Zones"),
            Limited::Names => write!(f, "Names"),
        }
    }
}

/// Why the leap-second file of a release is refused.
#[derive(Clone, Copy, Debug, PartialEq, Eq)]
pub enum LeapFileFault {
    /// This leap-second record, counted from 0, does not add one second to the one before.
    Step(usize),
    /// This leap-second record's correction does not begin at the start of a day in UTC.
    Midnight(usize),
    /// The file is not a zone file.
    File(TzifFault),
}

impl fmt::Display for LeapFileFault {
    ghost use Rattle.std.specs.Prelude.{Some};
    ghost use Rattle.release_check.specs.FaultText.{leap_text};

    ghost output = { λ fault. Some (leap_text fault) };

    fn fmt<W: fmt::Write>(&self, f: &mut fmt::Formatter<W>) -> fmt::Result {
        match self {
            LeapFileFault::Step(line) => write!(f, "1 Step {line}"),
            LeapFileFault::Midnight(line) => write!(f, "2 Midnight {line}"),
            LeapFileFault::File(fault) => write!(f, "3 File {fault}"),
        }
    }
}

/// Why a folder does not hold a release. Zones are numbered from 0 in the manifest's order.
///
/// The faults stand in the order of the checks. Absent and ReadFault are exceptions: they are
/// returned at the file that was to be read. Those from Tzif to RuleBeyond are checked zone by
/// zone, and the leap-second file comes last.
#[derive(Debug, Drop)]
pub enum CheckFault {
    NoMemory,
    /// The manifest is refused.
    Manifest(ManifestFault),
    /// There are too many zones or names; the second value is their number.
    Limit(Limited, usize),
    /// The release is earlier than the last one. The stamps are those of the last one and of this
    /// one.
    StampBack(Moment, Moment),
    /// A zone's identifier or one of its aliases is not a valid identifier.
    Identifier(usize),
    /// The first name that repeats an earlier one. The order is that of the manifest, with each
    /// identifier before its aliases.
    Duplicate(Bytes),
    /// The least name of the last release that this one lacks.
    Drops(Bytes),
    /// The history is full: it has as many releases as it may have.
    HistoryFull,
    /// The store has no file of the path.
    Absent(Bytes),
    /// The store failed to read a file.
    ReadFault,
    /// A zone's file is refused.
    Tzif(usize, TzifFault),
    /// A zone's file has leap-second records.
    LeapsInZone(usize),
    /// The TZ string of a zone's file is refused.
    FooterText(usize, FooterFault),
    /// The TZ string of a zone's file does not give, at the last transition, the state that this
    /// transition begins.
    FooterDisagrees(usize),
    /// A name of a zone's types or of its TZ string is empty, or has a forbidden byte. Letters,
    /// digits, `+` and `-` are allowed.
    NameBeyond(usize),
    /// No yearly rules of a calendar can say what the TZ string of a zone's file says.
    RuleBeyond(usize),
    /// The leap-second file is refused.
    Leap(LeapFileFault),
}

impl From<NoMemory> for CheckFault {
    ghost use Rattle.release_check.specs.declared.check_fault.CheckFault.TheVariants as fault;

    ghost from_gives = { λ _ e. e ≡ fault.NoMemory };

    fn from(_: NoMemory) -> Self {
        CheckFault::NoMemory
    }
}

/// Prints the number, the name and the values of the fault. A name or a path that is not UTF-8 is
/// left out; [`CheckFault::put`] writes its bytes as they are.
impl fmt::Display for CheckFault {
    ghost use Rattle.std.specs.Prelude.{Some};
    ghost use Rattle.release_check.specs.FaultText.{shown_text};

    ghost output = { λ f. Some (shown_text f) };

    fn fmt<W: fmt::Write>(&self, f: &mut fmt::Formatter<W>) -> fmt::Result {
        match self {
            CheckFault::NoMemory => write!(f, "0 NoMemory"),
            CheckFault::Manifest(fault) => write!(f, "1 Manifest {fault}"),
            CheckFault::Limit(which, count) => write!(f, "2 Limit {which} {count}"),
            CheckFault::StampBack(old, new) => {
                let (old, new) = (stamp_text(*old), stamp_text(*new));
                let (old, new) = (stamp_shown(&old), stamp_shown(&new));
                write!(f, "3 StampBack {old} {new}")
            }
            CheckFault::Identifier(zone) => write!(f, "4 Identifier {zone}"),
            CheckFault::Duplicate(name) => {
                let name = readable(name.as_slice());
                write!(f, "5 Duplicate {name}")
            }
            CheckFault::Drops(name) => {
                let name = readable(name.as_slice());
                write!(f, "6 Drops {name}")
            }
            CheckFault::HistoryFull => write!(f, "7 HistoryFull"),
            CheckFault::Absent(path) => {
                let path = readable(path.as_slice());
                write!(f, "8 Absent {path}")
            }
            CheckFault::ReadFault => write!(f, "9 ReadFault"),
            CheckFault::Tzif(zone, fault) => write!(f, "10 Tzif {zone} {fault}"),
            CheckFault::LeapsInZone(zone) => write!(f, "11 LeapsInZone {zone}"),
            CheckFault::FooterText(zone, fault) => write!(f, "12 FooterText {zone} {fault}"),
            CheckFault::FooterDisagrees(zone) => write!(f, "13 FooterDisagrees {zone}"),
            CheckFault::NameBeyond(zone) => write!(f, "14 NameBeyond {zone}"),
            CheckFault::RuleBeyond(zone) => write!(f, "15 RuleBeyond {zone}"),
            CheckFault::Leap(fault) => write!(f, "16 Leap {fault}"),
        }
    }
}

impl Error for CheckFault {}

impl CheckFault {
    ghost use Rattle.release_check.specs.FaultText.{fault_text};

    /// Appends the fault as it is printed: its number, its name and its values, separated by
    /// spaces. If memory runs out, nothing is appended.
    pub fn put(&self, alloc: Global, out: &mut Bytes) -> Result<(), NoMemory>
        ensures ok { OnOk result (out.new ≡ out.old ++ fault_text self.now) }
        ensures err { OnErr result (out.new ≡ out.old) }
    {
        match self {
            CheckFault::Duplicate(name) => put_bytes(out, b"5 Duplicate ", name),
            CheckFault::Drops(name) => put_bytes(out, b"6 Drops ", name),
            CheckFault::Absent(path) => put_bytes(out, b"8 Absent ", path),
            fault => put_shown(alloc, out, fault),
        }
    }
}

/// Appends a text, and bytes as they are. If memory runs out, nothing is appended.
fn put_bytes(out: &mut Bytes, before: &[u8], bytes: &Bytes) -> Result<(), NoMemory>
    ensures ok { OnOk result (out.new ≡ out.old ++ (before.now ++ bytes.now)) }
    ensures err { OnErr result (out.new ≡ out.old) }
{
    let start = out.len();
    out.append(before)?;
    if let Err(error) = out.append(bytes.as_slice()) {
        out.truncate(start);
        return Err(error);
    }
    Ok(())
}

/// Appends a fault whose values can all be printed as text.
fn put_shown(alloc: Global, out: &mut Bytes, fault: &CheckFault) -> Result<(), NoMemory>
    ensures ok { OnOk result (out.new ≡ out.old ++ shown_text fault.now) }
    ensures err { OnErr result (out.new ≡ out.old) }
{
    let text = fault.to_string(alloc)?;
    out.append(text.as_bytes())
}

/// The text of a moment, or an empty text where it is not a supported one.
#[tactic(auto, unfolding(crate::specs::FaultText::stamp_text))]
fn stamp_text(moment: Moment) -> ShortText<20>
    ensures { result ≡ stamp_text moment }
{
    let mut text = ShortText::new();
    if moment.has_meaning() {
        text.append(&utc_text(moment));
    }
    text
}

/// The text of a stamp as it is printed.
fn stamp_shown(text: &ShortText<20>) -> &str
    ensures { (moment : Stamp) → text.now ≡ stamp_text moment → result.now ≡ stamp_text moment }
{
    readable(text.as_slice())
}

/// The bytes as text, or an empty text where they are not UTF-8.
fn readable(bytes: &[u8]) -> &str
    ensures { result.now ≡ readable bytes.now }
{
    match str::from_utf8(bytes) {
        Ok(text) => text,
        Err(_) => "",
    }
}
