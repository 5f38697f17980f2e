//! The law of expansions, as the contract of a function that only calls laws.
ghost use Rattle.std.specs.Prelude.{◌≡◌, List, ℕ};
ghost use Rattle.td_base.specs.declared.report.Role.{Role};
ghost use Rattle.catalogue.specs.Histories.{IsHistory};
ghost use Rattle.catalogue.specs.Releases.{ReleaseData};
ghost use Rattle.http_request.specs.declared.head.Head.{Head};
ghost use Rattle.target.specs.Actions.{asks};
ghost use Rattle.target.specs.declared.asked_types.Asked.TheVariants.{Expand};
ghost use Rattle.target.specs.declared.asked_types.Param.{Param};
ghost use Rattle.zone_meaning.specs.Sound.{IsSound};
ghost use Rattle.actions.specs.Action.{action};
ghost use Rattle.answer_laws.specs.Expansions.{IsExpansionOf};

use json_forms::expansion_reads_back;
use release_laws::observances_are_of_states;
use zone_meaning::last_observance_tells_the_state;

/// Each 200 answer to an expansion request reads as the document of the observances of a zone
/// between the bounds of the request. The zone is the one of the last release that has the name in
/// the request. The observances are derived from the states of its file. At each moment between,
/// the latest observance so far has the offset and the name that the file gives.
pub fn expansions_tell_their_zone()
    ensures { (H : List ReleaseData) (role : Role) (head : Head) (name : List ℕ)
        (start end : Param) → IsHistory IsSound H → asks head.target ≡ Expand name start end
        → (action H role head).status ≡ 200
        → IsExpansionOf H name start end (action H role head) }
{
    expansion_reads_back();
    observances_are_of_states();
    last_observance_tells_the_state();
}
