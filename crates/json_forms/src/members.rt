//! The members of a JSON object that was read.
ghost use Rattle.std.specs.Prelude.{◌≡◌, MatchOption, None, Some};
ghost use Rattle.serde_json.specs.View.{view, items_view};
ghost use Rattle.json_forms.specs.ListReading as reading;

use serde_json::Value;

/// The string value of a member; None where it is absent or not a string.
pub(crate) fn text_member<'v>(object: &'v Value, name: &str) -> Option<&'v str>
    ensures { MatchOption result
        (reading.text_member name.now (view object.now) ≡ None)
        (λ text. reading.text_member name.now (view object.now) ≡ Some text.now) }
{
    object.get(name).and_then(Value::as_str)
}

/// The array value of a member; None where it is absent or not an array.
pub(crate) fn array_member<'v>(object: &'v Value, name: &str) -> Option<&'v [Value]>
    ensures { MatchOption result
        (reading.array_member name.now (view object.now) ≡ None)
        (λ items. reading.array_member name.now (view object.now) ≡ Some (items_view items.now)) }
{
    match object.get(name).and_then(Value::as_array) {
        Some(list) => Some(list.as_slice()),
        None => None,
    }
}

/// The string value of a member, or an empty text where it has none.
#[tactic(auto, unfolding(crate::specs::ListReading::text_in))]
pub(crate) fn text_in<'v>(object: &'v Value, name: &str) -> &'v str
    ensures { result.now ≡ reading.text_in name.now (view object.now) }
{
    match text_member(object, name) {
        Some(text) => text,
        None => "",
    }
}
