ghost use Rattle.std.specs.Prelude.{◌≡◌};

use td_base::{Bytes, Items};
use td_civil::Moment;

/// A time zone of the list (RFC 7808, section 6.2).
#[derive(Drop)]
pub struct ListZone {
    pub tzid: Bytes,
    /// The tag of the zone's content, without quotes.
    pub etag: Bytes,
    /// When the zone's content last changed, in UTC.
    pub stamp: Moment,
    pub publisher: Bytes,
    pub version: Bytes,
    /// Other names of the zone, in rising order.
    pub aliases: Items<Bytes>,
}

/// A list of time zones, with its synchronization token (RFC 7808, sections 5.2 and 6.2).
#[derive(Drop)]
pub struct ListDoc {
    pub token: Bytes,
    pub zones: Items<ListZone>,
}

/// A time zone of the list, with borrowed texts.
#[derive(Clone, Copy, Drop)]
pub struct ZoneTexts<'a> {
    pub tzid: &'a [u8],
    /// The tag of the zone's content, without quotes.
    pub etag: &'a [u8],
    /// When the zone's content last changed, in UTC.
    pub stamp: Moment,
    pub publisher: &'a [u8],
    pub version: &'a [u8],
    /// Other names of the zone, in rising order.
    pub aliases: &'a [Bytes],
}

impl ListZone {
    ghost use Rattle.json_forms.specs.ToldZone.{told_zone};

    /// The zone, with texts borrowed from this one.
    pub fn texts(&self) -> ZoneTexts<'_>
        ensures { told_zone result ≡ self.now }
    {
        ZoneTexts {
            tzid: self.tzid.as_slice(),
            etag: self.etag.as_slice(),
            stamp: self.stamp,
            publisher: self.publisher.as_slice(),
            version: self.version.as_slice(),
            aliases: self.aliases.as_slice(),
        }
    }
}
