//! The flag that stops workers.
use case_lines::{Answer, debug_text};
use desk_pool::{StopFlag, StopSign};
use std::alloc::Global;
use std::thread::{Threads, join};
use td_base::NoMemory;

/// `flag`: what a sign shows before the flag is raised, what it shows at two looks after that, and
/// what a second sign then shows.
pub fn signs(alloc: Global) -> Answer {
    let looks = looks(alloc)?;
    debug_text(alloc, &looks)
}

fn looks(alloc: Global) -> Result<(bool, bool, bool, bool), NoMemory> {
    let mut flag = StopFlag::new(alloc)?;
    let mut first = flag.share()?;
    let before = first.is_raised();
    let mut second = flag.share()?;
    flag.raise();
    let (once, twice) = (first.is_raised(), first.is_raised());
    Ok((before, once, twice, second.is_raised()))
}

/// `flag-beside`: whether a sign never shows the flag down after it showed it raised, over many
/// looks while another thread raises the flag. Then what is shown after that.
pub fn beside<R: Threads>(rt: &R, alloc: Global) -> Answer {
    let mut flag = StopFlag::new(alloc)?;
    let mut sign = flag.share()?;
    let ((), steady) = join(rt, || flag.raise(), || is_steady(&mut sign));
    let raised = sign.is_raised();
    debug_text(alloc, &(steady, raised))
}

/// Whether, over many looks, the sign never shows the flag down after it showed it raised.
fn is_steady(sign: &mut StopSign) -> bool {
    let mut seen = false;
    for _ in 0..1_000 {
        let raised = sign.is_raised();
        if seen && !raised {
            return false;
        }
        seen = raised;
    }
    true
}
