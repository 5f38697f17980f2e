//! The choice of a format.
ghost use Rattle.std.specs.Prelude.{◌≡◌, map, option_copied};
ghost use Rattle.negotiate.specs.Choices as choices;

use crate::qualities::quality_of_range;

/// The formats in which the data of a zone is served.
#[derive(Clone, Copy, Debug, PartialEq, Eq)]
pub enum Format {
    /// `text/calendar` (RFC 5545).
    Calendar,
    /// `application/tzif` (RFC 9636).
    Tzif,
    /// `application/calendar+json` (RFC 7265).
    CalendarJson,
}

/// A format, with the ranges of an Accept field that include it.
struct Offer {
    format: Format,
    /// Its media type.
    exact: &'static [u8],
    /// The range of all subtypes of its type.
    group: &'static [u8],
}

/// The formats, most preferred first.
const OFFERS: [Offer; 3] = [
    Offer {
        format: Format::Calendar,
        exact: b"text/calendar",
        group: b"text/*",
    },
    Offer {
        format: Format::Tzif,
        exact: b"application/tzif",
        group: b"application/*",
    },
    Offer {
        format: Format::CalendarJson,
        exact: b"application/calendar+json",
        group: b"application/*",
    },
];

/// The format that an Accept field chooses (RFC 9110, section 12.5.1). `None` if it accepts none.
///
/// Without a field the choice is `text/calendar`. Ranges are compared without case. An element that
/// matches none of the formats, or has a malformed quality, is ignored, and so are all parameters
/// but the first `q`. The quality of a format is that of the most specific range that includes it.
#[tactic(auto, unfolding(crate::specs::Choices::chosen_format))]
pub fn choose(accept: Option<&[u8]>) -> Option<Format>
    ensures { result ≡ choices.chosen_format (option_copied accept.entry) }
{
    match accept {
        Some(field) => best_format(field, &OFFERS),
        None => Some(Format::Calendar),
    }
}

/// The first of the formats with the largest quality. `None` if that is 0.
fn best_format(field: &[u8], offers: &[Offer]) -> Option<Format>
    ensures { result ≡ choices.best_format field.now (map choices.named_offer offers.now) }
{
    let mut best = None;
    let mut largest = 0;
    for offer in offers {
        let quality = quality_of(field, offer.exact, offer.group);
        if quality > largest {
            best = Some(offer.format);
            largest = quality;
        }
    }
    best
}

/// The quality of a format, by its own range, its group's, or `*/*`, in thousandths.
#[tactic(auto, unfolding(crate::specs::Choices::quality_of))]
fn quality_of(field: &[u8], exact: &[u8], group: &[u8]) -> u16
    ensures { result ≡ choices.quality_of exact.now group.now field.now }
{
    first_of(
        quality_of_range(field, exact),
        quality_of_range(field, group),
        quality_of_range(field, b"*/*"),
    )
}

/// The first quality that is given, or 0.
fn first_of(exact: Option<u16>, group: Option<u16>, any: Option<u16>) -> u16
    ensures { result ≡ choices.first_choice exact group any }
{
    exact.or(group).or(any).unwrap_or(0)
}
