ghost use Rattle.std.specs.Prelude.{◌≡◌, [], ◌∷◌, ◌++◌, codes, map, string_bytes, IfOk, OnOk};
ghost use Rattle.std.specs.Prelude.{OnErr};
ghost use Rattle.serde_json.specs.View.{view};
ghost use Rattle.td_base.specs.Names.{IsPlain};
ghost use Rattle.json_forms.specs.CapabilitiesDocument as document;
ghost use Rattle.json_forms.specs.PlainTexts.{IsPlainRole};

use crate::plain::plain_str;
use serde_json::{Value, json};
use std::alloc::Global;
use td_base::{Bytes, NoMemory, Role};

/// Appends the capabilities of the service as JSON (RFC 7808, section 6.1). They are its actions,
/// the formats of its data, and the source of the data: the publisher or the server that it
/// follows.
#[tactic(auto, using(crate::proofs::CapabilitiesReads::capabilities_have_no_float), unfolding(crate::specs::CapabilitiesDocument::capabilities_document))]
pub fn capabilities_text(
    alloc: Global,
    out: &mut Bytes,
    role: &Role,
    publisher: &[u8],
    with_leaps: bool,
) -> Result<(), NoMemory>
    requires role { IsPlainRole role.now }
    requires publisher { IsPlain publisher.now }
    ensures ok { OnOk result
        (out.new ≡ out.old ++ document.capabilities_document role.now publisher.now with_leaps) }
    ensures err { OnErr result (out.new ≡ out.old) }
{
    let text = capabilities(alloc, role, publisher, with_leaps)?.to_string(alloc)?;
    out.append(text.as_bytes())
}

#[tactic(auto, unfolding(crate::specs::CapabilitiesDocument::capabilities_data))]
fn capabilities(
    alloc: Global,
    role: &Role,
    publisher: &[u8],
    with_leaps: bool,
) -> Result<Value, NoMemory>
    requires role { IsPlainRole role.now }
    requires publisher { IsPlain publisher.now }
    ensures { IfOk result
        (λ v. view v ≡ document.capabilities_data role.now publisher.now with_leaps) }
{
    let actions = Value::Array(actions(alloc, with_leaps)?);
    let info = info(alloc, role, publisher)?;
    Ok(json!(in alloc; {"actions": actions, "info": info, "version": 1u8})?)
}

/// The actions. The last one is listed only if there is a table of leap seconds.
fn actions(alloc: Global, with_leaps: bool) -> Result<Vec<Value>, NoMemory>
    ensures { IfOk result (λ vs. map view vs.items ≡ document.actions_data with_leaps) }
{
    let mut actions = Vec::new(alloc);
    actions.push(capabilities_action(alloc)?)?;
    actions.push(list_action(alloc)?)?;
    actions.push(get_action(alloc)?)?;
    actions.push(expand_action(alloc)?)?;
    actions.push(find_action(alloc)?)?;
    if with_leaps {
        actions.push(leapseconds_action(alloc)?)?;
    }
    Ok(actions)
}

#[tactic(auto, unfolding(crate::specs::CapabilitiesDocument::capabilities_action))]
fn capabilities_action(alloc: Global) -> Result<Value, NoMemory>
    ensures { IfOk result (λ v. view v ≡ document.capabilities_action) }
{
    action(
        alloc,
        "capabilities",
        Vec::new(alloc),
        "/tzdist/capabilities",
    )
}

#[tactic(auto, unfolding(crate::specs::CapabilitiesDocument::list_action))]
fn list_action(alloc: Global) -> Result<Value, NoMemory>
    ensures { IfOk result (λ v. view v ≡ document.list_action) }
{
    let parameters = one_parameter(alloc, "changedsince", false)?;
    action(alloc, "list", parameters, "/tzdist/zones{?changedsince}")
}

#[tactic(auto, unfolding(crate::specs::CapabilitiesDocument::get_action))]
fn get_action(alloc: Global) -> Result<Value, NoMemory>
    ensures { IfOk result (λ v. view v ≡ document.get_action) }
{
    let parameters = range(alloc, false)?;
    action(alloc, "get", parameters, "/tzdist/zones{/tzid}{?start,end}")
}

#[tactic(auto, unfolding(crate::specs::CapabilitiesDocument::expand_action))]
fn expand_action(alloc: Global) -> Result<Value, NoMemory>
    ensures { IfOk result (λ v. view v ≡ document.expand_action) }
{
    let parameters = range(alloc, true)?;
    action(
        alloc,
        "expand",
        parameters,
        "/tzdist/zones{/tzid}/observances{?start,end}",
    )
}

#[tactic(auto, unfolding(crate::specs::CapabilitiesDocument::find_action))]
fn find_action(alloc: Global) -> Result<Value, NoMemory>
    ensures { IfOk result (λ v. view v ≡ document.find_action) }
{
    let parameters = one_parameter(alloc, "pattern", true)?;
    action(alloc, "find", parameters, "/tzdist/zones{?pattern}")
}

#[tactic(auto, unfolding(crate::specs::CapabilitiesDocument::leapseconds_action))]
fn leapseconds_action(alloc: Global) -> Result<Value, NoMemory>
    ensures { IfOk result (λ v. view v ≡ document.leapseconds_action) }
{
    action(alloc, "leapseconds", Vec::new(alloc), "/tzdist/leapseconds")
}

/// An action with its parameters and its URI template (RFC 6570).
#[tactic(auto, unfolding(crate::specs::CapabilitiesDocument::action_data))]
fn action(
    alloc: Global,
    name: &str,
    parameters: Vec<Value>,
    template: &str,
) -> Result<Value, NoMemory>
    ensures { IfOk result
        (λ v. view v ≡ document.action_data name.now (map view parameters.items) template.now) }
{
    let parameters = Value::Array(parameters);
    Ok(json!(in alloc; {"name": name, "parameters": parameters, "uri-template": template})?)
}

/// A single parameter.
fn one_parameter(alloc: Global, name: &str, required: bool) -> Result<Vec<Value>, NoMemory>
    ensures { IfOk result
        (λ vs. map view vs.items ≡ document.parameter_data name.now required ∷ []) }
{
    let mut parameters = Vec::new(alloc);
    parameters.push(parameter(alloc, name, required)?)?;
    Ok(parameters)
}

/// The two parameters of a range of time, `start` and `end`.
fn range(alloc: Global, required: bool) -> Result<Vec<Value>, NoMemory>
    ensures { IfOk result (λ vs. map view vs.items ≡ document.range_data required) }
{
    let mut parameters = Vec::new(alloc);
    parameters.push(parameter(alloc, "start", required)?)?;
    parameters.push(parameter(alloc, "end", required)?)?;
    Ok(parameters)
}

/// A parameter, which may be given once.
fn parameter(alloc: Global, name: &str, required: bool) -> Result<Value, NoMemory>
    ensures { IfOk result (λ v. view v ≡ document.parameter_data name.now required) }
{
    Ok(json!(in alloc; {"multi": false, "name": name, "required": required})?)
}

/// The formats of the data, its source, and that any range of time may be requested.
fn info(alloc: Global, role: &Role, publisher: &[u8]) -> Result<Value, NoMemory>
    requires role { IsPlainRole role.now }
    requires publisher { IsPlain publisher.now }
    ensures { IfOk result (λ v. view v ≡ document.info_data role.now publisher.now) }
{
    match role {
        Role::Primary => primary_info(alloc, plain_str(publisher)),
        Role::Secondary(upstream) => {
            let source = url(alloc, "http://", plain_str(upstream.as_slice()), "/tzdist")?;
            secondary_info(alloc, source.as_str())
        }
    }
}

#[tactic(auto, unfolding(crate::specs::CapabilitiesDocument::info_with, crate::specs::ListDocument::strings))]
fn primary_info(alloc: Global, publisher: &str) -> Result<Value, NoMemory>
    ensures { IfOk result
        (λ v. view v ≡ document.info_with (codes "primary-source") publisher.now) }
{
    Ok(json!(in alloc; {
        "formats": ["text/calendar", "application/tzif", "application/calendar+json"],
        "primary-source": publisher,
        "truncated": {"any": true, "untruncated": true}
    })?)
}

#[tactic(auto, unfolding(crate::specs::CapabilitiesDocument::info_with, crate::specs::ListDocument::strings))]
fn secondary_info(alloc: Global, url: &str) -> Result<Value, NoMemory>
    ensures { IfOk result
        (λ v. view v ≡ document.info_with (codes "secondary-source") url.now) }
{
    Ok(json!(in alloc; {
        "formats": ["text/calendar", "application/tzif", "application/calendar+json"],
        "secondary-source": url,
        "truncated": {"any": true, "untruncated": true}
    })?)
}

/// The three texts joined.
fn url(alloc: Global, scheme: &str, authority: &str, path: &str) -> Result<String, NoMemory>
    ensures { IfOk result (λ text. string_bytes text ≡ scheme.now ++ authority.now ++ path.now) }
{
    let mut url = String::from_str(alloc, scheme)?;
    url.push_str(authority)?;
    url.push_str(path)?;
    Ok(url)
}
