ghost use Rattle.std.specs.Prelude.{◌≡◌, ◌≢◌, ◌⊎◌, ◌<◌, Ok, Err, Some, IfOk, IfErr, codes, length};
ghost use Rattle.release_manifest.specs.declared.manifest_type.TheConstants.{MOST_BYTES};
ghost use Rattle.json.specs.declared.error.Error.TheVariants as unread;
ghost use Rattle.json.specs.Find.{get};
ghost use Rattle.json.specs.Value.{value_view};
ghost use Rattle.release_manifest.specs.declared.manifest_fault.ManifestFault.{ManifestFault};
ghost use Rattle.release_manifest.specs.declared.manifest_type.Manifest.{Manifest};
ghost use Rattle.release_manifest.specs.Checks.{leap_checks, manifest_checks};
ghost use Rattle.release_manifest.specs.Meaning.{AreLeaps, IsLeaps, IsManifest};
ghost use Rattle.release_manifest.specs.Reading.{IsManifestText, JudgesChecks};
ghost use Rattle.release_manifest.specs.Reading.{ReadsDocument, ReadsValue};
ghost use Rattle.release_manifest.specs.Reading.{manifest_text_fault};

use crate::members::{check_object, read_expiry, read_file_name, read_label, read_stamp};
use crate::zone_members::read_zones;
use crate::{MOST_BYTES, MOST_DEPTH, Manifest, ManifestFault, ManifestLeaps, Path};
use json::{Error, Reader, Scratch, Value};
use std::alloc::Global;
use std::str;

/// Reads a manifest. [`ManifestFault::Long`] is the error of a text longer than [`MOST_BYTES`], and
/// `Syntax` that of a text that is not JSON in UTF-8 (RFC 8259). After these the error is the first
/// fault of a member, in the order publisher, version, stamp, zones and leap seconds. The order in
/// a zone is tzid, file and aliases. If a member is given twice, the last one counts. Members with
/// other names are ignored.
pub fn read(alloc: Global, bytes: &[u8]) -> Result<Manifest, ManifestFault>
    // The result is the manifest of the text.
    ensures found { IfOk result (λ m. IsManifestText bytes.now m) }
    ensures fault { IfErr result
        (λ e. e ≢ ManifestFault.NoMemory → manifest_text_fault bytes.now ≡ Some e) }
    // The manifest of a text is read, and no other; the error is the first fault.
    ensures only { (m : Manifest) → IsManifestText bytes.now m
        → (result ≡ Ok m) ⊎ (result ≡ Err ManifestFault.NoMemory) }
    ensures refused { (f : ManifestFault) → manifest_text_fault bytes.now ≡ Some f
        → (result ≡ Err f) ⊎ (result ≡ Err ManifestFault.NoMemory) }
    // The length is checked before any memory is allocated.
    ensures long { MOST_BYTES < length bytes.now → result ≡ Err ManifestFault.Long }
{
    if bytes.len() > MOST_BYTES {
        return Err(ManifestFault::Long);
    }
    let mut scratch = Scratch::new(alloc);
    let value = read_value(alloc, bytes, &mut scratch)?;
    read_manifest(alloc, &value)
}

/// The JSON value of bytes. Its texts are borrowed from them or, if they have escapes, from the
/// scratch.
fn read_value<'a>(
    alloc: Global,
    bytes: &'a [u8],
    scratch: &'a mut Scratch,
) -> Result<Value<'a>, ManifestFault>
    ensures { ReadsValue value_view bytes.now result }
{
    match str::from_utf8(bytes) {
        Ok(text) => read_document(alloc, text, scratch),
        Err(_) => Err(ManifestFault::Syntax),
    }
}

/// The JSON value of a text.
fn read_document<'a>(
    alloc: Global,
    text: &'a str,
    scratch: &'a mut Scratch,
) -> Result<Value<'a>, ManifestFault>
    ensures { ReadsDocument value_view text.now result }
{
    let mut reader = match Reader::new(text, scratch) {
        Ok(reader) => reader,
        Err(_) => return Err(ManifestFault::NoMemory),
    };
    let value = match Value::read(alloc, &mut reader, MOST_DEPTH) {
        Ok(value) => value,
        Err(error) => return Err(refusal(error)),
    };
    match reader.next() {
        Some(_) => Err(ManifestFault::Syntax),
        None => Ok(value),
    }
}

/// The fault for an error of the JSON reader.
fn refusal(error: Error) -> ManifestFault
    ensures memory { error ≡ unread.OutOfMemory → result ≡ ManifestFault.NoMemory }
    ensures syntax { error ≢ unread.OutOfMemory → result ≡ ManifestFault.Syntax }
{
    match error {
        Error::OutOfMemory => ManifestFault::NoMemory,
        _ => ManifestFault::Syntax,
    }
}

/// Reads the manifest of a value.
fn read_manifest(alloc: Global, value: &Value<'_>) -> Result<Manifest, ManifestFault>
    ensures found { IfOk result (λ m. IsManifest (value_view value.now) m) }
    ensures judged { JudgesChecks result (manifest_checks (value_view value.now)) }
{
    check_object(value, Path::Whole)?;
    let publisher = read_label(alloc, value, "publisher", Path::Publisher)?;
    let version = read_label(alloc, value, "version", Path::Version)?;
    let stamp = read_stamp(value)?;
    let zones = read_zones(alloc, value)?;
    let leaps = read_leaps(alloc, value)?;
    Ok(Manifest {
        publisher,
        version,
        stamp,
        zones,
        leaps,
    })
}

/// Reads the leap seconds; `None` if the member is left out.
#[tactic(auto, unfolding(crate::specs::Checks::leap_checks))]
fn read_leaps(alloc: Global, manifest: &Value<'_>) -> Result<Option<ManifestLeaps>, ManifestFault>
    ensures found { IfOk result
        (λ leaps. AreLeaps (get (codes "leapseconds") (value_view manifest.now)) leaps) }
    ensures judged { JudgesChecks result
        (leap_checks (get (codes "leapseconds") (value_view manifest.now))) }
{
    match manifest.get("leapseconds") {
        Some(member) => Ok(Some(read_leap_members(alloc, member)?)),
        None => Ok(None),
    }
}

/// Reads the leap seconds of a value.
#[tactic(auto, unfolding(crate::specs::Checks::leap_checks))]
fn read_leap_members(alloc: Global, leaps: &Value<'_>) -> Result<ManifestLeaps, ManifestFault>
    ensures found { IfOk result (λ l. IsLeaps (value_view leaps.now) l) }
    ensures judged { JudgesChecks result (leap_checks (Some (value_view leaps.now))) }
{
    check_object(leaps, Path::Leaps)?;
    let file = read_file_name(alloc, leaps, Path::LeapFile)?;
    let expires = read_expiry(alloc, leaps)?;
    Ok(ManifestLeaps { file, expires })
}
