ghost use Rattle.std.specs.Prelude.{◌≡◌, Some, None, IfOk, MatchResult, codes};
ghost use Rattle.std.specs.Prelude.{option_and_then, option_map};
ghost use Rattle.json.specs.Find.{get, as_array, as_str};
ghost use Rattle.json.specs.Value.{items_view, value_view};
ghost use Rattle.td_base.specs.Names.{is_label as has_label_form};
ghost use Rattle.td_base.specs.Names.{is_file_name as has_file_name_form};
ghost use Rattle.td_civil.specs.Reading.{is_date_text};
ghost use Rattle.release_manifest.specs.declared.manifest_fault.Path.TheVariants as path;
ghost use Rattle.release_manifest.specs.Checks.{form_checks, is_stamp_text, object_checks};
ghost use Rattle.release_manifest.specs.Checks.{text_checks};
ghost use Rattle.release_manifest.specs.Meaning.{IsForm, IsStampOf};
ghost use Rattle.release_manifest.specs.Reading.{JudgesChecks};

use crate::{ManifestFault, Path};
use json::Value;
use std::alloc::Global;
use td_base::{Bytes, is_file_name, is_label};
use td_civil::{Moment, is_date, moment_of};

/// Checks that the value is an object.
#[tactic(auto, unfolding(crate::specs::Checks::object_checks))]
pub(crate) fn check_object(value: &Value<'_>, path: Path) -> Result<(), ManifestFault>
    ensures { JudgesChecks result (object_checks path (value_view value.now)) }
{
    if let Value::Object(_) = value {
        Ok(())
    } else {
        Err(ManifestFault::Field(path))
    }
}

/// The text of a member of the object.
pub(crate) fn text_member<'v>(
    object: &Value<'v>,
    name: &str,
    path: Path,
) -> Result<&'v str, ManifestFault>
    ensures { MatchResult result
        (λ t. option_and_then as_str (get name.now (value_view object.now)) ≡ Some t.now)
        (λ e. (e ≡ ManifestFault.Field path)
        × (option_and_then as_str (get name.now (value_view object.now)) ≡ None)) }
{
    let Some(member) = object.get(name) else {
        return Err(ManifestFault::Field(path));
    };
    match member.as_str() {
        Some(text) => Ok(text),
        None => Err(ManifestFault::Field(path)),
    }
}

/// The items of an array.
pub(crate) fn items<'v, 'a>(value: &'v Value<'a>) -> Option<&'v [Value<'a>]>
    ensures { option_map (λ list. items_view list.now) result ≡ as_array (value_view value.now) }
{
    match value {
        Value::Array(list) => Some(list.as_slice()),
        _ => None,
    }
}

/// Reads a text of any form.
#[tactic(auto, unfolding(crate::specs::Checks::text_checks))]
pub(crate) fn read_text(
    alloc: Global,
    object: &Value<'_>,
    name: &str,
    path: Path,
) -> Result<Bytes, ManifestFault>
    ensures found { IfOk result
        (λ b. option_and_then as_str (get name.now (value_view object.now)) ≡ Some b) }
    ensures judged { JudgesChecks result (text_checks path (get name.now (value_view object.now))) }
{
    let text = text_member(object, name, path)?;
    Ok(Bytes::from_slice(alloc, text.as_bytes())?)
}

/// Reads the name of a publisher or of a version.
#[tactic(auto, unfolding(crate::specs::Checks::form_checks))]
pub(crate) fn read_label(
    alloc: Global,
    object: &Value<'_>,
    name: &str,
    path: Path,
) -> Result<Bytes, ManifestFault>
    ensures found { IfOk result
        (λ b. IsForm has_label_form (get name.now (value_view object.now)) b) }
    ensures judged { JudgesChecks result
        (form_checks has_label_form path (get name.now (value_view object.now))) }
{
    let text = text_member(object, name, path)?.as_bytes();
    if !is_label(text) {
        return Err(ManifestFault::Text(path));
    }
    Ok(Bytes::from_slice(alloc, text)?)
}

/// Reads the name of a file in the release's folder.
#[tactic(auto, unfolding(crate::specs::Checks::form_checks))]
pub(crate) fn read_file_name(
    alloc: Global,
    object: &Value<'_>,
    path: Path,
) -> Result<Bytes, ManifestFault>
    ensures found { IfOk result
        (λ b. IsForm has_file_name_form (get (codes "file") (value_view object.now)) b) }
    ensures judged { JudgesChecks result
        (form_checks has_file_name_form path (get (codes "file") (value_view object.now))) }
{
    let text = text_member(object, "file", path)?.as_bytes();
    if !is_file_name(text) {
        return Err(ManifestFault::Text(path));
    }
    Ok(Bytes::from_slice(alloc, text)?)
}

/// Reads the moment of the release, which must be within the bounds of known local time.
#[tactic(auto, unfolding(crate::specs::Checks::form_checks, crate::specs::Checks::is_stamp_text))]
pub(crate) fn read_stamp(object: &Value<'_>) -> Result<Moment, ManifestFault>
    ensures found { IfOk result (λ m. IsStampOf (get (codes "stamp") (value_view object.now)) m) }
    ensures judged { JudgesChecks result
        (form_checks is_stamp_text path.Stamp (get (codes "stamp") (value_view object.now))) }
{
    let text = text_member(object, "stamp", Path::Stamp)?;
    match moment_of(text.as_bytes()) {
        Ok(moment) if moment.has_meaning() => Ok(moment),
        _ => Err(ManifestFault::Text(Path::Stamp)),
    }
}

/// Reads the date from which the leap seconds are expired.
#[tactic(auto, unfolding(crate::specs::Checks::form_checks))]
pub(crate) fn read_expiry(alloc: Global, object: &Value<'_>) -> Result<Bytes, ManifestFault>
    ensures found { IfOk result
        (λ b. IsForm is_date_text (get (codes "expires") (value_view object.now)) b) }
    ensures judged { JudgesChecks result
        (form_checks is_date_text path.Expires (get (codes "expires") (value_view object.now))) }
{
    let text = text_member(object, "expires", Path::Expires)?.as_bytes();
    if !is_date(text) {
        return Err(ManifestFault::Text(Path::Expires));
    }
    Ok(Bytes::from_slice(alloc, text)?)
}
