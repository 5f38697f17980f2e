//! The law of lists, as the contract of a function that only calls a law.
ghost use Rattle.std.specs.Prelude.{◌≡◌, List};
ghost use Rattle.td_base.specs.declared.report.Role.{Role};
ghost use Rattle.catalogue.specs.Releases.{ReleaseData};
ghost use Rattle.http_request.specs.declared.head.Head.{Head};
ghost use Rattle.target.specs.Actions.{asks};
ghost use Rattle.target.specs.declared.asked_types.Asked.TheVariants.{List as ListOf};
ghost use Rattle.target.specs.declared.asked_types.Param.{Param};
ghost use Rattle.actions.specs.Action.{action};
ghost use Rattle.answer_laws.specs.Lists.{IsListOf};

use json_forms::list_reads_back;

/// Each 200 answer to a list request reads as zones of the last release, by their names and tags,
/// with the token of that release. Without a token in the request it has all of them. With the
/// token of a place it leaves out exactly those zones whose content every release from that place
/// on has.
pub fn lists_tell_what_changed()
    ensures { (H : List ReleaseData) (role : Role) (head : Head) (since : Param)
        → asks head.target ≡ ListOf since → (action H role head).status ≡ 200
        → IsListOf H since (action H role head) }
{
    list_reads_back();
}
