//! Whether the names of a zone can be printed.
ghost use Rattle.std.specs.Prelude.{◌≡◌, map};
ghost use Rattle.std.specs.List.{list_all};
ghost use Rattle.posix_footer.specs.Items.{is_designation_byte};
ghost use Rattle.zone_meaning.specs.Names.{footer_names, has_printable_names, is_printable_name};

use crate::{Zone, footer, lists};
use posix_footer::Footer;
use td_civil::{Local, Name};

/// Whether each name of a zone's types, used or not, and of its TZ string can be printed.
pub fn has_printable_names(zone: &Zone) -> bool
    ensures { result ≡ has_printable_names zone.now }
{
    are_printable(lists(zone).kinds()) && has_printable_rule(footer(zone))
}

/// Whether each name of the types can be printed.
fn are_printable(kinds: &[Local]) -> bool
    ensures { result ≡ list_all is_printable_name (map (λ kind. kind.name) kinds.now) }
{
    for kind in kinds {
        if !is_printable(&kind.name) {
            return false;
        }
    }
    true
}

/// Whether each name of a TZ string can be printed.
fn has_printable_rule(footer: &Option<Footer>) -> bool
    ensures { result ≡ list_all is_printable_name (footer_names footer.now) }
{
    match footer {
        None => true,
        Some(footer) => {
            is_printable(&footer.std.name)
                && match &footer.dst {
                    None => true,
                    Some(rule) => is_printable(&rule.dst.name),
                }
        }
    }
}

/// Whether a name can be printed: letters, digits, `+` and `-`, at least one.
fn is_printable(name: &Name) -> bool
    ensures { result ≡ is_printable_name name.now }
{
    let name = name.as_slice();
    !name.is_empty() && are_name_bytes(name)
}

/// Whether each of the bytes is allowed in a name.
fn are_name_bytes(bytes: &[u8]) -> bool
    ensures { result ≡ list_all is_designation_byte bytes.now }
{
    bytes.iter().all(|byte| is_name_byte(*byte))
}

/// Whether the byte is allowed in a name.
fn is_name_byte(byte: u8) -> bool
    ensures { result ≡ is_designation_byte byte }
{
    byte.is_ascii_alphanumeric() || byte == b'+' || byte == b'-'
}
