//! The commands that serve no listener: `answer`, `check`, `at`, `load` and `calmirror`, a file
//! each, and for each a law of when it does all that was asked.
//!
//! How each ends is a page below `specs/Running/` of `run_ends`. The work is that of `installer`,
//! `connection`, `zone_meaning`, `made_load` and `calendar_mirror`. `td_top` runs them.
#![tactic(auto)]

mod answering;
mod calendar_mirroring;
mod checking;
mod loading;
mod state_line;

pub use answering::{AnswerPlan, answer, answers_complete};
pub use calendar_mirroring::{CalendarPlan, calendars_complete, mirror_calendars};
pub use checking::{check_folders, checks_complete};
pub use loading::{LoadPlan, load, load_complete};
pub use state_line::{state_at, state_complete};
