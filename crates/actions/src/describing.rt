ghost use Rattle.std.specs.Prelude.{◌≡◌, IfOk};
ghost use Rattle.http_answer.specs.Replies.{IsAnswerStatus};
ghost use Rattle.json_forms.specs.PlainTexts.{IsPlainRole};
ghost use Rattle.zone_meaning.specs.ZoneHistories.{ForEachZoneHistory, HasZoneHistory};
ghost use Rattle.actions.specs.Describing.{capabilities_answer, redirect};

use crate::documents::document;
use catalogue::Catalogue;
use http_answer::Answer;
use json_forms::capabilities_text;
use std::alloc::Global;
use td_base::{Bytes, NoMemory, Role};
use zone_meaning::Zone;

/// Answers the action `capabilities` (RFC 7808, section 5.1).
pub fn capabilities(
    alloc: Global,
    catalogue: &Catalogue<Zone>,
    role: &Role,
) -> Result<Answer, NoMemory>
    requires history { HasZoneHistory catalogue.now }
    requires role { IsPlainRole role.now }
    ensures answer { ForEachZoneHistory catalogue.now (λ H.
        IfOk result (λ answer. answer ≡ capabilities_answer H role.now)) }
    ensures status { IfOk result (λ answer. IsAnswerStatus answer.status) }
{
    let mut body = Bytes::new(alloc);
    let with_leaps = catalogue.leaps().is_some();
    capabilities_text(alloc, &mut body, role, catalogue.publisher(), with_leaps)?;
    Ok(document(body))
}

/// Redirects a client from the well-known address to the service (RFC 7808, section 4.2.1.3).
pub fn redirect(alloc: Global) -> Answer
    ensures { result ≡ redirect }
{
    Answer {
        status: 301,
        kind: None,
        tag: None,
        moved: true,
        body: Bytes::new(alloc),
    }
}
