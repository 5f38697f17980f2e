ghost use Rattle.std.specs.Prelude.{◌≡◌, length};
ghost use Rattle.tzif_reader.specs.Layout.{second_block_size};
ghost use Rattle.tzif_reader.specs.Cut.{parts_in};
ghost use Rattle.tzif_reader.specs.Views.{parts_view, AreSized};

use crate::counts::Counts;
use crate::numbers::piece;

/// A block of version 2 or later (RFC 9636, section 3.2), cut into its fields.
#[derive(Clone, Copy)]
pub struct Block<'a> {
    pub times: &'a [u8],
    pub numbers: &'a [u8],
    pub types: &'a [u8],
    pub designations: &'a [u8],
    pub leaps: &'a [u8],
    pub standard: &'a [u8],
    pub ut: &'a [u8],
}

/// Cuts a block into fields of these counts.
#[tactic(auto, unfolding(crate::specs::Cut::parts_in))]
pub fn fields_of<'a>(counts: &Counts, block: &'a [u8]) -> Block<'a>
    requires { length block.now ≡ second_block_size counts.now }
    ensures value { parts_view result ≡ parts_in counts.now block.now }
    ensures sizes { AreSized counts.now (parts_view result) }
{
    let times = piece(block, 0, 8 * counts.timecnt as usize);
    let at = 8 * counts.timecnt as usize;
    let numbers = piece(block, at, counts.timecnt as usize);
    let at = at + counts.timecnt as usize;
    let types = piece(block, at, 6 * counts.typecnt as usize);
    let at = at + 6 * counts.typecnt as usize;
    let designations = piece(block, at, counts.charcnt as usize);
    let at = at + counts.charcnt as usize;
    let leaps = piece(block, at, 12 * counts.leapcnt as usize);
    let at = at + 12 * counts.leapcnt as usize;
    let standard = piece(block, at, counts.isstdcnt as usize);
    let at = at + counts.isstdcnt as usize;
    let ut = piece(block, at, counts.isutcnt as usize);
    Block {
        times,
        numbers,
        types,
        designations,
        leaps,
        standard,
        ut,
    }
}
