ghost use Rattle.std.specs.Prelude.{◌≡◌};
ghost use Rattle.case_lines.specs.Judging.{after_case};

use std::fmt;

/// The number of cases, saturating, and how many had the expected answer.
#[derive(Clone, Copy)]
pub struct Tally {
    pub cases: u64,
    pub right: u64,
}

impl Tally {
    /// The counts before the first case.
    pub fn new() -> Tally
        ensures { result ≡ record { cases = 0; right = 0 } }
    {
        Tally { cases: 0, right: 0 }
    }

    /// Counts a case.
    pub fn count(&mut self, is_right: bool)
        ensures { self.new ≡ after_case self.old is_right }
    {
        self.cases = self.cases.saturating_add(1);
        if is_right {
            self.right = self.right.saturating_add(1);
        }
    }
}

impl fmt::Display for Tally {
    fn fmt<W: fmt::Write>(&self, f: &mut fmt::Formatter<W>) -> fmt::Result {
        let (cases, right) = (self.cases, self.right);
        write!(f, "{cases} cases, {right} as the table says")
    }
}
