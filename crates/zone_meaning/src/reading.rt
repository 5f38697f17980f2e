//! Reads a zone from its file.
ghost use Rattle.std.specs.Prelude.{◌≡◌, ◌≢◌, None, Some, Err, IfOk, IfErr, OnOk};
ghost use Rattle.posix_footer.specs.Lawful.{IsLawful};
ghost use Rattle.std.specs.Option.{IfSome};
ghost use Rattle.tzif_reader.specs.Cut as cut;
ghost use Rattle.tzif_reader.specs.Faults.{first_fault};
ghost use Rattle.tzif_reader.specs.declared.tzif_fault.TzifFault.{TzifFault};
ghost use Rattle.zone_meaning.specs.Faults.{footer_text_fault, in_file, zone_fault};
ghost use Rattle.zone_meaning.specs.State.{footer_meant};

use crate::zone_type::{ZoneParts, zone_of_parts};
use crate::{Zone, ZoneFault};
use posix_footer::{Footer, FooterFault};
use std::alloc::Global;
use td_base::Bytes;
use tzif_reader::{ZoneFile, rest_of};

/// The zone of a file. `Tzif` is returned where the bytes are not a zone file. `Footer` is returned
/// where they are one, but its footer is neither empty nor a TZ string (RFC 9636, section 3.3).
#[tactic(auto, using(crate::proofs::Refusals::file_refused_as))]
pub fn zone_of(alloc: Global, file: Bytes) -> Result<Zone, ZoneFault>
    ensures found { IfOk result (λ z. z ≡ file) }
    ensures no_fault { OnOk result (zone_fault file ≡ None) }
    ensures fault { IfErr result (λ e. e ≢ ZoneFault.NoMemory → zone_fault file ≡ Some e) }
    // That the bytes are not a zone file is reported before any memory is allocated.
    ensures judged { (e : TzifFault) → first_fault file ≡ Some e → result ≡ Err (in_file e) }
{
    let lists = tzif_reader::read(alloc, file.as_slice())?;
    let zone = zone_from_lists(alloc, file, lists)?;
    Ok(zone)
}

/// The zone of a file whose lists have been read already. `Footer` is returned where its footer is
/// neither empty nor a TZ string.
#[tactic(auto, using(crate::proofs::Refusals::zone_clear, crate::proofs::Refusals::footer_refused))]
pub fn zone_from_lists(alloc: Global, file: Bytes, lists: ZoneFile) -> Result<Zone, ZoneFault>
    requires no_fault { first_fault file ≡ None }
    requires lists { lists ≡ cut.lists_of file }
    ensures found { IfOk result (λ z. z ≡ file) }
    ensures no_fault { OnOk result (zone_fault file ≡ None) }
    ensures fault { IfErr result (λ e. e ≢ ZoneFault.NoMemory → zone_fault file ≡ Some e) }
{
    let footer = footer_in(&lists.footer)?;
    let rest = rest_of(file.as_slice(), lists);
    let parts = ZoneParts { file, rest, footer };
    let zone = zone_of_parts(alloc, parts)?;
    Ok(zone)
}

/// The footer that a text encodes; None for an empty text.
fn footer_in(text: &Bytes) -> Result<Option<Footer>, FooterFault>
    ensures found { IfOk result (λ f. f ≡ footer_meant text.now) }
    ensures lawful { IfOk result (λ f. IfSome f IsLawful) }
    ensures no_fault { OnOk result (footer_text_fault text.now ≡ None) }
    ensures fault { IfErr result (λ e. footer_text_fault text.now ≡ Some e) }
{
    if text.len() == 0 {
        return Ok(None);
    }
    let footer = posix_footer::read(text.as_slice())?;
    Ok(Some(footer))
}
