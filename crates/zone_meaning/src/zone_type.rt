ghost use Rattle.std.specs.Prelude.{◌≡◌, IfOk, length, None};
ghost use Rattle.tzif_reader.specs.Cut as cut;
ghost use Rattle.std.specs.Option.{IfSome};
ghost use Rattle.posix_footer.specs.Lawful.{IsLawful};
ghost use Rattle.zone_meaning.specs.Faults.{zone_fault};
ghost use Rattle.zone_meaning.specs.Kept.{AreReadParts, HasTypes, IsReadFrom};
ghost use Rattle.zone_meaning.specs.State.{footer_meant};

use posix_footer::Footer;
use std::alloc::{AllocError, Global};
use std::marker::Model;
use std::sync::Arc;
use td_base::{Bytes, NoMemory};
use tzif_reader::{ZoneLists, ZoneRest, lists_in};

/// A zone's file, with what was read from it and is kept beside its bytes.
#[derive(Drop)]
pub(crate) struct ZoneParts {
    pub(crate) file: Bytes,
    pub(crate) rest: ZoneRest,
    /// None where the footer's text is empty.
    pub(crate) footer: Option<Footer>,
}

/// A time zone: its file, with what was read from it. Its transitions are read where they stand in
/// the file. Contracts see it as the bytes of the file. It is shared by all that [`Zone::share`]
/// gives.
#[derive(Drop)]
pub struct Zone {
    parts: Arc<ZoneParts>,
}

impl Model for Zone {
    ghost use Rattle.std.specs.Prelude.{List, ℕ};

    ghost Value = { List ℕ };

    ghost use Rattle.std.specs.Arc.{arc_value};
    ghost use Rattle.zone_meaning.specs.Kept.{AreReadParts};

    ghost view = { λ z. (arc_value z.parts).file };

    ghost invariant = { λ z. AreReadParts (arc_value z.parts) };
}

impl Zone {
    /// The same zone once more. It copies nothing, and is refused as out of memory if the zone has
    /// too many owners.
    pub fn share(&self) -> Result<Zone, NoMemory>
        ensures { IfOk result (λ zone. zone ≡ self.now) }
    {
        match Arc::try_clone(&self.parts) {
            Ok(parts) => Ok(Zone { parts }),
            Err(AllocError) => Err(NoMemory),
        }
    }
}

/// The zone of a file, from what was read from it.
pub(crate) fn zone_of_parts(alloc: Global, parts: ZoneParts) -> Result<Zone, NoMemory>
    requires { AreReadParts parts }
    ensures { IfOk result (λ zone. zone ≡ parts.file) }
{
    let parts = Arc::new(alloc, parts)?;
    Ok(Zone { parts })
}

/// The zone's file, with what was read from it.
pub(crate) fn parts_of(zone: &Zone) -> &ZoneParts
    ensures file { result.now.file ≡ zone.now }
    ensures read { AreReadParts result.now }
{
    &zone.parts
}

/// The bytes of the zone's file.
pub fn file(zone: &Zone) -> &[u8]
    ensures { result.now ≡ zone.now }
{
    parts_of(zone).file.as_slice()
}

/// How many leap-second records the zone's file has.
pub fn leap_count(zone: &Zone) -> usize
    ensures { result ≡ length (cut.lists_of zone.now).leaps }
{
    parts_of(zone).rest.leaps.len()
}

/// The lists of the zone's file.
pub fn lists(zone: &Zone) -> ZoneLists<'_>
    ensures no_fault { zone_fault zone.now ≡ None }
    ensures lists { result ≡ cut.lists_of zone.now }
    ensures types { HasTypes result }
{
    lists_of_parts(parts_of(zone))
}

/// The lists of a zone's file.
pub(crate) fn lists_of_parts(parts: &ZoneParts) -> ZoneLists<'_>
    requires { AreReadParts parts.now }
    ensures { IsReadFrom parts.now.file result parts.now.footer }
{
    lists_in(parts.file.as_slice(), &parts.rest)
}

/// The rule that the TZ string of the zone's file encodes, or None where it is empty.
pub fn footer(zone: &Zone) -> &Option<Footer>
    ensures no_fault { zone_fault zone.now ≡ None }
    ensures footer { result.now ≡ footer_meant (cut.lists_of zone.now).footer }
    ensures lawful { IfSome result.now IsLawful }
{
    &parts_of(zone).footer
}
