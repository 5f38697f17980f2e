ghost use Rattle.std.specs.Prelude.{◌≡◌, IfOk};
ghost use Rattle.http_answer.specs.Replies.{IsAnswerStatus};
ghost use Rattle.zone_meaning.specs.ZoneHistories.{ForEachZoneHistory, HasZoneHistory};
ghost use Rattle.actions.specs.LeapSeconds.{leap_answer};

use crate::documents::{document, unknown_action};
use catalogue::Catalogue;
use http_answer::Answer;
use json_forms::leap_text;
use leap_table::{dates_are_plain, steps_are_dated};
use std::alloc::Global;
use td_base::{Bytes, NoMemory};
use zone_meaning::Zone;

/// Answers the action `leapseconds` (RFC 7808, section 5.6). A release without a table of leap
/// seconds does not offer this action.
pub fn leap_seconds(alloc: Global, catalogue: &Catalogue<Zone>) -> Result<Answer, NoMemory>
    requires { HasZoneHistory catalogue.now }
    ensures answer { ForEachZoneHistory catalogue.now (λ H.
        IfOk result (λ answer. answer ≡ leap_answer H)) }
    ensures status { IfOk result (λ answer. IsAnswerStatus answer.status) }
{
    match catalogue.leaps() {
        Some(leaps) => {
            steps_are_dated();
            dates_are_plain();
            let mut body = Bytes::new(alloc);
            leap_text(
                alloc,
                &mut body,
                leaps,
                catalogue.publisher(),
                catalogue.version(),
            )?;
            Ok(document(body))
        }
        None => unknown_action(alloc),
    }
}
