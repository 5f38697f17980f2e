ghost use Rattle.std.specs.Prelude.{◌≡◌, IfErr, OnOk, None, Some};
ghost use Rattle.tzif_reader.specs.Layout.{first_block_size, second_block_size};
ghost use Rattle.tzif_reader.specs.Faults.{counts_fault, stands_for_all};

use crate::TzifFault;
use crate::zone_file::MOST_TRANSITIONS;

/// The six counts of a header, named as in RFC 9636, section 3.1.
#[derive(Clone, Copy)]
pub struct Counts {
    pub isutcnt: u32,
    pub isstdcnt: u32,
    pub leapcnt: u32,
    pub timecnt: u32,
    pub typecnt: u32,
    pub charcnt: u32,
}

impl Counts {
    /// The length in bytes of a block with 4-byte times.
    pub fn first_block_len(&self) -> u64
        ensures { result ≡ first_block_size self.now }
    {
        4 * u64::from(self.timecnt)
            + u64::from(self.timecnt)
            + 6 * u64::from(self.typecnt)
            + u64::from(self.charcnt)
            + 8 * u64::from(self.leapcnt)
            + u64::from(self.isstdcnt)
            + u64::from(self.isutcnt)
    }

    /// The length in bytes of a block with 8-byte times.
    pub fn second_block_len(&self) -> u64
        ensures { result ≡ second_block_size self.now }
    {
        8 * u64::from(self.timecnt)
            + u64::from(self.timecnt)
            + 6 * u64::from(self.typecnt)
            + u64::from(self.charcnt)
            + 12 * u64::from(self.leapcnt)
            + u64::from(self.isstdcnt)
            + u64::from(self.isutcnt)
    }

    /// Whether a block may have these counts.
    #[tactic(auto, unfolding(crate::specs::Faults::counts_fault))]
    pub fn check(&self) -> Result<(), TzifFault>
        ensures no_fault { OnOk result (counts_fault self.now ≡ None) }
        ensures fault { IfErr result (λ e. counts_fault self.now ≡ Some e) }
    {
        if self.typecnt == 0 || self.charcnt == 0 {
            return Err(TzifFault::Counts);
        }
        if !self.stands_for_all(self.isutcnt) || !self.stands_for_all(self.isstdcnt) {
            return Err(TzifFault::Counts);
        }
        if self.timecnt > MOST_TRANSITIONS {
            return Err(TzifFault::TooLarge);
        }
        Ok(())
    }

    /// Whether the count is 0 or the number of types.
    fn stands_for_all(&self, count: u32) -> bool
        ensures { result ≡ stands_for_all count self.now.typecnt }
    {
        count == 0 || count == self.typecnt
    }
}
