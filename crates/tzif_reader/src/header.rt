ghost use Rattle.std.specs.Prelude.{◌≡◌, ◌+◌, ◌≤◌, length, IfOk, IfErr, None, Some};
ghost use Rattle.tzif_reader.specs.Cut.{piece, unsigned_at, version_in, counts_in};
ghost use Rattle.tzif_reader.specs.Faults.{room_fault, header_fault};

use crate::TzifFault;
use crate::counts::Counts;
use crate::numbers::{piece, unsigned_at};

/// The length of a header in bytes (RFC 9636, section 3.1).
pub const HEADER_LEN: usize = 44;

/// The content of a header.
#[derive(Clone, Copy)]
pub struct Header {
    pub version: u8,
    pub counts: Counts,
}

/// The byte offset `size` bytes after `place`, or [`TzifFault::Short`] if the file ends before it.
pub fn room(bytes: &[u8], place: usize, size: u64) -> Result<usize, TzifFault>
    requires { place ≤ length bytes.now }
    ensures found { IfOk result (λ end. (end ≡ place + size) × (end ≤ length bytes.now)
        × (room_fault place size bytes.now ≡ None)) }
    ensures fault { IfErr result (λ e. room_fault place size bytes.now ≡ Some e) }
{
    if ((bytes.len() - place) as u64) < size {
        return Err(TzifFault::Short(place));
    }
    Ok(place + size as usize)
}

fn counts_in(header: &[u8]) -> Counts
    requires { 44 ≤ length header.now }
    ensures { result ≡ counts_in header.now }
{
    Counts {
        isutcnt: unsigned_at(header, 20),
        isstdcnt: unsigned_at(header, 24),
        leapcnt: unsigned_at(header, 28),
        timecnt: unsigned_at(header, 32),
        typecnt: unsigned_at(header, 36),
        charcnt: unsigned_at(header, 40),
    }
}

/// Reads the header at a byte offset. Its version is not checked here.
#[tactic(auto, unfolding(crate::specs::Faults::header_fault))]
pub fn header_at(bytes: &[u8], place: usize) -> Result<Header, TzifFault>
    requires { place ≤ length bytes.now }
    ensures no_fault { IfOk result (λ h. header_fault place bytes.now ≡ None) }
    ensures room { IfOk result (λ h. place + 44 ≤ length bytes.now) }
    ensures version { IfOk result (λ h. h.version ≡ version_in (piece place 44 bytes.now)) }
    ensures counts { IfOk result (λ h. h.counts ≡ counts_in (piece place 44 bytes.now)) }
    ensures fault { IfErr result (λ e. header_fault place bytes.now ≡ Some e) }
{
    room(bytes, place, HEADER_LEN as u64)?;
    let header = piece(bytes, place, HEADER_LEN);
    if !header.starts_with(b"TZif") {
        return Err(TzifFault::Magic);
    }
    Ok(Header {
        version: header[4],
        counts: counts_in(header),
    })
}
