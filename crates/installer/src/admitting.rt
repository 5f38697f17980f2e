//! Checks that the admission rules make on a release that is to follow another one.
ghost use Rattle.std.specs.Prelude.{◌≡◌, [], ◌∷◌, ◌++◌, None, Some, IfOk, IfErr};
ghost use Rattle.catalogue.specs.Holdings.{StandsFor, release_held};
ghost use Rattle.catalogue.specs.Releases.{release_data};
ghost use Rattle.zone_meaning.specs.Sound.{IsSound};
ghost use Rattle.zone_meaning.specs.ZoneHistories.{ForEachZoneHistory, zone_bytes};
ghost use Rattle.installer.specs.Installing.{Installs, InstallsStated, IsPolicyOf, refusal};
ghost use Rattle.installer.specs.Views.{IsMadeOut};

use crate::install_fault::InstallFault;
use admission::{Delta, Rules, delta_of};
use catalogue::{Catalogue, Release};
use release_check::{check, examine};
use release_manifest::Manifest;
use std::alloc::Global;
use subscribers::Subscribers;
use td_base::Store;
use zone_meaning::Zone;

/// A catalogue that may be published, and what its last release changes, if a rule or a subscriber
/// needs the changes.
#[derive(Drop)]
pub struct AdmittedRelease {
    pub catalogue: Catalogue<Zone>,
    pub delta: Option<Delta>,
}

/// Makes the next catalogue: the history of `last` with the release of a folder after it, if no
/// rule refuses that release.
pub fn admitted_in<S: Store>(
    alloc: Global,
    dir: &[u8],
    store: &mut S,
    last: &Catalogue<Zone>,
    rules: &Rules<'_>,
    subscribers: &Subscribers,
) -> Result<AdmittedRelease, InstallFault>
    ensures found { ForEachZoneHistory last.now (λ H.
        Installs (S.seen store.old) (S.seen store.new) dir.now rules.now.chosen H
        (λ a. H ++ release_held zone_bytes a.catalogue ∷ []) result) }
    ensures stands { IfOk result (λ a. ForEachZoneHistory last.now (λ H.
        StandsFor zone_bytes IsSound a.catalogue
        (H ++ release_held zone_bytes a.catalogue ∷ []))) }
    ensures allowed { IfOk result (λ a. ForEachZoneHistory last.now (λ H.
        refusal rules.now.chosen H (release_held zone_bytes a.catalogue) ≡ None)) }
    ensures made_out { IfOk result (λ a. ForEachZoneHistory last.now (λ H.
        IsMadeOut subscribers.now a.delta H (release_held zone_bytes a.catalogue))) }
{
    let release = check(alloc, dir, store, Some(last))?;
    let delta = judge(alloc, last, &release, rules, subscribers)?;
    let catalogue = last.next(alloc, release)?;
    Ok(AdmittedRelease { catalogue, delta })
}

/// Like [`admitted_in`], for the release of a manifest whose files are in the store's own top
/// folder.
pub fn admitted_stated<S: Store>(
    alloc: Global,
    manifest: &Manifest,
    store: &mut S,
    last: &Catalogue<Zone>,
    rules: &Rules<'_>,
    subscribers: &Subscribers,
) -> Result<AdmittedRelease, InstallFault>
    ensures found { ForEachZoneHistory last.now (λ H.
        InstallsStated (S.seen store.old) (S.seen store.new) manifest.now rules.now.chosen H
        (λ a. H ++ release_held zone_bytes a.catalogue ∷ []) result) }
    ensures stands { IfOk result (λ a. ForEachZoneHistory last.now (λ H.
        StandsFor zone_bytes IsSound a.catalogue
        (H ++ release_held zone_bytes a.catalogue ∷ []))) }
    ensures allowed { IfOk result (λ a. ForEachZoneHistory last.now (λ H.
        refusal rules.now.chosen H (release_held zone_bytes a.catalogue) ≡ None)) }
    ensures made_out { IfOk result (λ a. ForEachZoneHistory last.now (λ H.
        IsMadeOut subscribers.now a.delta H (release_held zone_bytes a.catalogue))) }
{
    let release = examine(alloc, manifest, b"", store, Some(last))?;
    let delta = judge(alloc, last, &release, rules, subscribers)?;
    let catalogue = last.next(alloc, release)?;
    Ok(AdmittedRelease { catalogue, delta })
}

/// Applies the rules to the release that would follow the one a catalogue holds, and returns what
/// changes. With neither rules nor subscribers nothing is compared.
fn judge(
    alloc: Global,
    last: &Catalogue<Zone>,
    release: &Release<Zone>,
    rules: &Rules<'_>,
    subscribers: &Subscribers,
) -> Result<Option<Delta>, InstallFault>
    ensures allowed { IfOk result (λ _. ForEachZoneHistory last.now (λ H.
        refusal rules.now.chosen H (release_data zone_bytes release.now) ≡ None)) }
    ensures refused { IfErr result (λ e. ForEachZoneHistory last.now (λ H.
        IsPolicyOf rules.now.chosen H (release_data zone_bytes release.now) e)) }
    ensures made_out { IfOk result (λ delta. ForEachZoneHistory last.now (λ H.
        IsMadeOut subscribers.now delta H (release_data zone_bytes release.now))) }
{
    if rules.is_empty() && subscribers.is_empty() {
        return Ok(None);
    }
    let delta = delta_of(alloc, last, release)?;
    match rules.ask(&delta) {
        None => Ok(Some(delta)),
        Some(rule) => Err(InstallFault::Policy(rule)),
    }
}
