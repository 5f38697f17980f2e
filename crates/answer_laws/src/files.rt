//! The law of answers with a file, as the contract of a function that does nothing.
ghost use Rattle.std.specs.Prelude.{◌≡◌, List, Some};
ghost use Rattle.td_base.specs.declared.report.Role.{Role};
ghost use Rattle.catalogue.specs.Histories.{IsHistory};
ghost use Rattle.catalogue.specs.Releases.{ReleaseData};
ghost use Rattle.http_answer.specs.declared.answer.Kind.TheVariants.{Tzif};
ghost use Rattle.http_request.specs.declared.head.Head.{Head};
ghost use Rattle.zone_meaning.specs.Sound.{IsSound};
ghost use Rattle.actions.specs.Action.{action};
ghost use Rattle.answer_laws.specs.Files.{IsFileOf};

/// Each answer with a file has the bytes of a zone's file in the last release. The zone is the one
/// that has the name in the request. The request has no bounds.
pub fn files_are_those_of_zones()
    ensures { (H : List ReleaseData) (role : Role) (head : Head) → IsHistory IsSound H
        → (action H role head).kind ≡ Some Tzif → IsFileOf H head (action H role head) }
{}
