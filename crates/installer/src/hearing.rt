//! Notifying subscribers of what an install changes.
ghost use Rattle.std.specs.Prelude.{◌≡◌, List, OnErr, OnOk, map};
ghost use Rattle.admission.specs.Differences.{difference};
ghost use Rattle.catalogue.specs.Releases.{ReleaseData};
ghost use Rattle.subscribers.specs.Views.{IsIdle, prepared};
ghost use Rattle.installer.specs.Views.{IsMadeOut};

use crate::asked::InstallPolicy;
use admission::Delta;
use subscribers::Subscribers;
use td_base::NoMemory;

/// Prepares the notices of what the release at a place changes, if the changes were computed.
pub fn prepare(
    subscribers: &mut Subscribers,
    asked: &InstallPolicy<'_>,
    place: u32,
    delta: &Option<Delta>,
) -> Result<(), NoMemory>
    requires { IsIdle subscribers.old }
    ensures ok { OnOk result ((H : List ReleaseData) (r : ReleaseData)
        → IsMadeOut subscribers.old delta.now H r
        → subscribers.new ≡ map (prepared place (difference H r)) subscribers.old) }
    ensures err { OnErr result (subscribers.new ≡ subscribers.old) }
{
    match delta {
        None => Ok(()),
        Some(delta) => subscribers.prepare(asked.wants, place, delta),
    }
}
