ghost use Rattle.std.specs.Prelude.{◌≡◌, ◌++◌, IfOk, OnOk};
ghost use Rattle.percent_encoding.specs.Percent.{percent_encode};
ghost use Rattle.http_client.specs.declared.requesting.TheConstants.{ESCAPED};
ghost use Rattle.made_load.specs.Requests as requests;

use http_client::ESCAPED;
use percent_encoding::percent_encode;
use std::alloc::Global;
use td_base::{Bytes, NoMemory};

/// The request target of the list of changes since a token.
#[tactic(auto, unfolding(crate::specs::Requests::since_target))]
pub fn since_target(alloc: Global, token: &[u8]) -> Result<Bytes, NoMemory>
    ensures { IfOk result (λ target. target ≡ requests.since_target token.now) }
{
    named(alloc, b"/tzdist/zones?changedsince=", token)
}

/// The request target of a zone.
#[tactic(auto, unfolding(crate::specs::Requests::made_zone_target))]
pub fn zone_target(alloc: Global, tzid: &[u8]) -> Result<Bytes, NoMemory>
    ensures { IfOk result (λ target. target ≡ requests.made_zone_target tzid.now) }
{
    named(alloc, b"/tzdist/zones/", tzid)
}

/// The request target of the observances of a zone in the year 2020.
#[tactic(auto, unfolding(crate::specs::Requests::year_target))]
pub fn year_target(alloc: Global, tzid: &[u8]) -> Result<Bytes, NoMemory>
    ensures { IfOk result (λ target. target ≡ requests.year_target tzid.now) }
{
    let mut target = zone_target(alloc, tzid)?;
    target.append(b"/observances?start=2020-01-01T00:00:00Z&end=2021-01-01T00:00:00Z")?;
    Ok(target)
}

/// A path, followed by a percent-encoded text.
fn named(alloc: Global, path: &[u8], text: &[u8]) -> Result<Bytes, NoMemory>
    ensures { IfOk result (λ target. target ≡ path.now ++ percent_encode ESCAPED text.now) }
{
    let mut target = Bytes::from_slice(alloc, path)?;
    put_escaped(&mut target, text)?;
    Ok(target)
}

fn put_escaped(out: &mut Bytes, text: &[u8]) -> Result<(), NoMemory>
    ensures { OnOk result (out.new ≡ out.old ++ percent_encode ESCAPED text.now) }
{
    for piece in percent_encode(text, ESCAPED) {
        out.append(piece.as_bytes())?;
    }
    Ok(())
}
