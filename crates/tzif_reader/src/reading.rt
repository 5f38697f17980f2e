ghost use Rattle.std.specs.Prelude.{◌≡◌, ◌≢◌, ◌≤◌, length, IfOk, OnOk, IfErr, None, Some, Err};
ghost use Rattle.tzif_reader.specs.Layout.{IsZoneFile};
ghost use Rattle.tzif_reader.specs.Cut.{lists_of, footer_of, footer_place};
ghost use Rattle.tzif_reader.specs.Faults.{first_fault, footer_fault};
ghost use Rattle.tzif_reader.specs.declared.tzif_fault.TzifFault.TheVariants.{NoMemory};

use crate::block::fields_of;
use crate::contents::check;
use crate::frame::frame_of;
use crate::numbers::piece;
use crate::text::text_between;
use crate::zone::zone_from;
use crate::{TzifFault, ZoneFile};
use std::alloc::Global;

/// The text of the footer. The file must end with the footer.
#[tactic(auto, unfolding(crate::specs::Faults::footer_fault, crate::specs::Cut::footer_of))]
fn footer_at(bytes: &[u8], place: usize) -> Result<&[u8], TzifFault>
    requires place { place ≡ footer_place bytes.now }
    requires room { place ≤ length bytes.now }
    ensures no_fault { OnOk result (footer_fault bytes.now ≡ None) }
    ensures text { IfOk result (λ text. footer_of bytes.now ≡ Some text.now) }
    ensures fault { IfErr result (λ e. footer_fault bytes.now ≡ Some e) }
{
    let (_, rest) = bytes.split_at(place);
    match text_between(rest) {
        Some(text) => {
            let end = place + text.len() + 2;
            if end < bytes.len() {
                return Err(TzifFault::Trailing(end));
            }
            Ok(text)
        }
        None => Err(TzifFault::FooterFrame),
    }
}

/// The zone in the bytes, as the definitions cut it, or their first fault.
#[tactic(auto, using(td_base::proofs::lemmas::FaultLemmas::sooner, td_base::proofs::lemmas::FaultLemmas::later, td_base::proofs::lemmas::FaultLemmas::neither), unfolding(crate::specs::Faults::first_fault, crate::specs::Cut::parts_of))]
fn zone_or_fault(alloc: Global, bytes: &[u8]) -> Result<ZoneFile, TzifFault>
    ensures exact { IfOk result (λ z. z ≡ lists_of bytes.now) }
    ensures no_fault { OnOk result (first_fault bytes.now ≡ None) }
    ensures fault { IfErr result (λ e. e ≢ NoMemory → first_fault bytes.now ≡ Some e) }
    ensures judged { (e : TzifFault) → first_fault bytes.now ≡ Some e → result ≡ Err e }
{
    let frame = frame_of(bytes)?;
    let text = piece(bytes, frame.block_at, frame.footer_at - frame.block_at);
    let block = fields_of(&frame.counts, text);
    check(&frame.counts, &block)?;
    let footer = footer_at(bytes, frame.footer_at)?;
    let zone = zone_from(alloc, &frame.counts, &block, footer)?;
    Ok(zone)
}

/// Reads a whole zone file of at most [`MOST_BYTES`](crate::MOST_BYTES) bytes, of version 2 to 4
/// (RFC 9636, section 3). Of the first block, whose times have 4 bytes, only the length is checked.
/// An error is [`TzifFault::NoMemory`] or the first fault. The size is checked first, then the
/// headers and the room for the blocks in file order. The second block follows, one kind of fault
/// after another in the order of `TzifFault`'s numbers, with `TooLate` last. The footer is checked
/// at the end.
#[tactic(auto, using(crate::proofs::lemmas::Whole::is_found))]
pub fn read(alloc: Global, bytes: &[u8]) -> Result<ZoneFile, TzifFault>
    // The bytes have the layout of the result.
    ensures found { IfOk result (λ z. IsZoneFile bytes.now z) }
    ensures exact { IfOk result (λ z. z ≡ lists_of bytes.now) }
    ensures no_fault { OnOk result (first_fault bytes.now ≡ None) }
    ensures fault { IfErr result (λ e. e ≢ NoMemory → first_fault bytes.now ≡ Some e) }
    // A fault is reported before any memory is allocated.
    ensures judged { (e : TzifFault) → first_fault bytes.now ≡ Some e → result ≡ Err e }
{
    zone_or_fault(alloc, bytes)
}
