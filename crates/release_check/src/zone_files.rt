ghost use Rattle.std.specs.Prelude.{◌≡◌, map, IfOk};
ghost use Rattle.catalogue.specs.Releases.{content_data};
ghost use Rattle.zone_meaning.specs.Sound.{IsSoundFile};
ghost use Rattle.zone_meaning.specs.ZoneHistories.{zone_bytes};
ghost use Rattle.release_check.specs.Found.{FindsIn, IsZoneIn, AreZonesIn, IsOf, AreOf};
ghost use Rattle.release_check.specs.Judged.{JudgesUnread, of_reader, of_zone};
ghost use Rattle.release_check.specs.Faults.{file_fault};

use crate::check_fault::CheckFault;
use crate::files::{ZONE_ROOM, read_in};
use crate::text_copies::copy_texts;
use crate::zone_judging::judge_zone;
use catalogue::{Catalogue, Content};
use release_manifest::ManifestZone;
use std::alloc::Global;
use td_base::{Bytes, Items, Store};
use tzif_reader::TzifFault;
use zone_meaning::{Zone, ZoneFault, file as file_of, lists, zone_from_lists};

/// The zones of a manifest with their files, in its order, or the first fault. A zone whose file
/// has the bytes of the last release's is shared with it, and not parsed again.
pub fn read_zones<S: Store>(
    alloc: Global,
    dir: &[u8],
    zones: &[ManifestZone],
    store: &mut S,
    last: Option<&Catalogue<Zone>>,
) -> Result<Items<Content<Zone>>, CheckFault>
    ensures found { FindsIn (S.seen store.old) (S.seen store.new) result
        (AreZonesIn dir.now zones.now result) }
    ensures of { IfOk result (λ cs. AreOf zones.now (map (content_data zone_bytes) cs)) }
{
    let mut contents = Items::new(alloc);
    for (number, zone) in zones.iter().enumerate() {
        let content = read_zone(alloc, dir, number, zone, store, last)?;
        contents.push(content)?;
    }
    Ok(contents)
}

/// The zone with this number in the manifest, with its file.
fn read_zone<S: Store>(
    alloc: Global,
    dir: &[u8],
    number: usize,
    zone: &ManifestZone,
    store: &mut S,
    last: Option<&Catalogue<Zone>>,
) -> Result<Content<Zone>, CheckFault>
    ensures found { FindsIn (S.seen store.old) (S.seen store.new) result
        (IsZoneIn dir.now number zone.now result) }
    ensures of { IfOk result (λ c. IsOf zone.now (content_data zone_bytes c)) }
{
    let file = read_in(alloc, dir, zone.file.as_slice(), ZONE_ROOM, store)?;
    let before = zone_before(last, number, zone.tzid.as_slice());
    let meant = zone_in(alloc, number, file, before)?;
    Ok(Content {
        tzid: Bytes::from_slice(alloc, zone.tzid.as_slice())?,
        aliases: copy_texts(alloc, zone.aliases.as_slice())?,
        zone: meant,
    })
}

/// The zone of the last release that has this name, if there is one. Mostly it has the same number
/// there, so that one is looked at before all are searched.
fn zone_before<'a>(
    last: Option<&'a Catalogue<Zone>>,
    number: usize,
    name: &[u8],
) -> Option<&'a Zone> {
    let last = last?;
    if number < last.len() {
        let content = &last.entry(number).content;
        if content.tzid.as_slice() == name {
            return Some(&content.zone);
        }
    }
    let at = last.find_name(name)?;
    Some(&last.entry(at).content.zone)
}

/// The zone of a file. It must have no leap-second records, and mean only what a release may say.
/// It is the zone from before, shared, if that has the same bytes.
fn zone_in(
    alloc: Global,
    number: usize,
    file: Bytes,
    before: Option<&Zone>,
) -> Result<Zone, CheckFault>
    ensures zone { IfOk result (λ zone. (zone ≡ file) × IsSoundFile file) }
    ensures judged { JudgesUnread (file_fault number file) result }
{
    match before {
        Some(zone) if file_of(zone) == file.as_slice() => share_zone(number, zone),
        _ => parse_zone(alloc, number, file),
    }
}

/// The same zone once more, if its meaning is what a release may say.
fn share_zone(number: usize, zone: &Zone) -> Result<Zone, CheckFault>
    ensures zone { IfOk result (λ shared. (shared ≡ zone.now) × IsSoundFile zone.now) }
    ensures judged { JudgesUnread (file_fault number zone.now) result }
{
    if lists(zone).leaps().len() > 0 {
        return Err(CheckFault::LeapsInZone(number));
    }
    judge_zone(number, zone)?;
    let shared = zone.share()?;
    Ok(shared)
}

/// The zone of a file that is parsed.
fn parse_zone(alloc: Global, number: usize, file: Bytes) -> Result<Zone, CheckFault>
    ensures zone { IfOk result (λ zone. (zone ≡ file) × IsSoundFile file) }
    ensures judged { JudgesUnread (file_fault number file) result }
{
    let lists = match tzif_reader::read(alloc, file.as_slice()) {
        Ok(lists) => lists,
        Err(fault) => return Err(of_reader(number, fault)),
    };
    if lists.leaps.len() > 0 {
        return Err(CheckFault::LeapsInZone(number));
    }
    let zone = match zone_from_lists(alloc, file, lists) {
        Ok(zone) => zone,
        Err(fault) => return Err(of_zone(number, fault)),
    };
    judge_zone(number, &zone)?;
    Ok(zone)
}

/// Converts the reader's fault to that of a folder.
fn of_reader(number: usize, fault: TzifFault) -> CheckFault
    ensures { result ≡ of_reader number fault }
{
    match fault {
        TzifFault::NoMemory => CheckFault::NoMemory,
        fault => CheckFault::Tzif(number, fault),
    }
}

/// Converts the fault of a zone to that of a folder.
fn of_zone(number: usize, fault: ZoneFault) -> CheckFault
    ensures { result ≡ of_zone number fault }
{
    match fault {
        ZoneFault::NoMemory => CheckFault::NoMemory,
        ZoneFault::Tzif(fault) => CheckFault::Tzif(number, fault),
        ZoneFault::Footer(fault) => CheckFault::FooterText(number, fault),
    }
}
