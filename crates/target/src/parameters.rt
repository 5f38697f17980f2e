//! The parameters of a query.
ghost use Rattle.std.specs.Prelude.{◌≡◌, IfOk, bytes_eq};
ghost use Rattle.target.specs.Parameters as parameters;

use crate::Param;
use form_urlencoded::{decode, raw_pairs};
use std::alloc::Global;
use td_base::{Bytes, NoMemory};

/// The parameter with this name.
#[tactic(auto, unfolding(crate::specs::Parameters::parameter, crate::specs::Parameters::parameter_values))]
pub fn parameter(alloc: Global, query: &[u8], wanted: &[u8]) -> Result<Param, NoMemory>
    ensures { IfOk result (λ found. found ≡ parameters.parameter wanted.now query.now) }
{
    let mut found = Param::Absent;
    for (name, value) in raw_pairs(query) {
        if is_named(alloc, name, wanted)? {
            found = with_value(alloc, found, value)?;
        }
    }
    Ok(found)
}

/// Whether an encoded name decodes to this one.
#[tactic(auto, unfolding(crate::specs::Parameters::decoded_text))]
fn is_named(alloc: Global, name: &[u8], wanted: &[u8]) -> Result<bool, NoMemory>
    ensures { IfOk result (λ is. is ≡ bytes_eq (parameters.decoded_text name.now) wanted.now) }
{
    let text = decode(alloc, name)?;
    Ok(text.as_bytes() == wanted)
}

/// The parameter after one more value.
#[tactic(auto, unfolding(crate::specs::Parameters::decoded_text))]
fn with_value(alloc: Global, found: Param, value: &[u8]) -> Result<Param, NoMemory>
    ensures { IfOk result
        (λ param. param ≡ parameters.with_value found (parameters.decoded_text value.now)) }
{
    match found {
        Param::Absent => {
            let text = decode(alloc, value)?;
            Ok(Param::Once(Bytes::from_slice(alloc, text.as_bytes())?))
        }
        _ => Ok(Param::Repeated),
    }
}
