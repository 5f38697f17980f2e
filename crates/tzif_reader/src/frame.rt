ghost use Rattle.std.specs.Prelude.{◌≡◌, ◌≤◌, ◌+◌, length, IfOk, IfErr, None, Some};
ghost use Rattle.tzif_reader.specs.Layout.{second_block_size};
ghost use Rattle.tzif_reader.specs.Cut.{counts_of, block_place, footer_place};
ghost use Rattle.tzif_reader.specs.Faults.{frame_fault};

use crate::TzifFault;
use crate::counts::Counts;
use crate::header::{HEADER_LEN, header_at, room};
use crate::zone_file::MOST_BYTES;

/// The byte offsets of the second block and of the footer of a file, and the counts of that block.
#[derive(Clone, Copy)]
pub struct Frame {
    pub counts: Counts,
    pub block_at: usize,
    pub footer_at: usize,
}

/// Checks the headers and the blocks' lengths. The content of the first block is skipped.
#[tactic(auto, using(td_base::proofs::lemmas::FaultLemmas::sooner, td_base::proofs::lemmas::FaultLemmas::later, td_base::proofs::lemmas::FaultLemmas::neither), unfolding(crate::specs::Faults::frame_fault, crate::specs::Cut::counts_of, crate::specs::Cut::block_place))]
pub fn frame_of(bytes: &[u8]) -> Result<Frame, TzifFault>
    ensures no_fault { IfOk result (λ f. frame_fault bytes.now ≡ None) }
    ensures counts { IfOk result (λ f. f.counts ≡ counts_of bytes.now) }
    ensures block { IfOk result (λ f. f.block_at ≡ block_place bytes.now) }
    ensures footer { IfOk result (λ f. f.footer_at ≡ footer_place bytes.now) }
    ensures room { IfOk result (λ f. f.footer_at ≤ length bytes.now) }
    ensures size { IfOk result (λ f. f.footer_at ≡ f.block_at + second_block_size f.counts) }
    ensures fault { IfErr result (λ e. frame_fault bytes.now ≡ Some e) }
{
    if bytes.len() > MOST_BYTES {
        return Err(TzifFault::TooLarge);
    }
    let first = header_at(bytes, 0)?;
    if first.version < b'2' || first.version > b'4' {
        return Err(TzifFault::Version);
    }
    let second_at = room(bytes, HEADER_LEN, first.counts.first_block_len())?;
    let second = header_at(bytes, second_at)?;
    if second.version != first.version {
        return Err(TzifFault::Version);
    }
    second.counts.check()?;
    let block_at = second_at + HEADER_LEN;
    let footer_at = room(bytes, block_at, second.counts.second_block_len())?;
    Ok(Frame {
        counts: second.counts,
        block_at,
        footer_at,
    })
}
