ghost use Rattle.std.specs.Prelude.{[], ◌∷◌, ◌++◌, IfOk};
ghost use Rattle.catalogue.specs.Holdings.{StandsFor, release_held};
ghost use Rattle.zone_meaning.specs.Sound.{IsSound};
ghost use Rattle.zone_meaning.specs.ZoneHistories.{ForEachZoneHistory, zone_bytes};
ghost use Rattle.installer.specs.Installing.{Installs, InstallsStated};

use crate::admitting::{admitted_in, admitted_stated};
use crate::install_fault::InstallFault;
use admission::Rules;
use catalogue::Catalogue;
use release_check::{check, examine};
use release_manifest::Manifest;
use std::alloc::Global;
use subscribers::Subscribers;
use td_base::Store;
use zone_meaning::Zone;

/// The catalogue of a new history whose first release is that of a folder.
pub fn first_in<S: Store>(
    alloc: Global,
    dir: &[u8],
    store: &mut S,
) -> Result<Catalogue<Zone>, InstallFault>
    ensures found { Installs (S.seen store.old) (S.seen store.new) dir.now [] []
        (λ c. release_held zone_bytes c ∷ []) result }
    ensures stands { IfOk result (λ c.
        StandsFor zone_bytes IsSound c (release_held zone_bytes c ∷ [])) }
{
    let release = check(alloc, dir, store, None)?;
    let catalogue = Catalogue::first(alloc, release)?;
    Ok(catalogue)
}

/// The catalogue of an existing history, extended by the release of a folder.
pub fn next_in<S: Store>(
    alloc: Global,
    dir: &[u8],
    store: &mut S,
    last: &Catalogue<Zone>,
) -> Result<Catalogue<Zone>, InstallFault>
    ensures found { ForEachZoneHistory last.now (λ H.
        Installs (S.seen store.old) (S.seen store.new) dir.now [] H
        (λ c. H ++ release_held zone_bytes c ∷ []) result) }
    ensures stands { IfOk result (λ c. ForEachZoneHistory last.now (λ H.
        StandsFor zone_bytes IsSound c (H ++ release_held zone_bytes c ∷ []))) }
{
    let rules = Rules::none(alloc);
    let admitted = admitted_in(alloc, dir, store, last, &rules, &Subscribers::new(alloc))?;
    Ok(admitted.catalogue)
}

/// The catalogue of a new history whose first release is that of a manifest. The files are in the
/// store's own top folder.
pub fn first_stated<S: Store>(
    alloc: Global,
    manifest: &Manifest,
    store: &mut S,
) -> Result<Catalogue<Zone>, InstallFault>
    ensures found { InstallsStated (S.seen store.old) (S.seen store.new) manifest.now [] []
        (λ c. release_held zone_bytes c ∷ []) result }
    ensures stands { IfOk result (λ c.
        StandsFor zone_bytes IsSound c (release_held zone_bytes c ∷ [])) }
{
    let release = examine(alloc, manifest, b"", store, None)?;
    let catalogue = Catalogue::first(alloc, release)?;
    Ok(catalogue)
}

/// The catalogue of an existing history, extended by the release of a manifest.
pub fn next_stated<S: Store>(
    alloc: Global,
    manifest: &Manifest,
    store: &mut S,
    last: &Catalogue<Zone>,
) -> Result<Catalogue<Zone>, InstallFault>
    ensures found { ForEachZoneHistory last.now (λ H.
        InstallsStated (S.seen store.old) (S.seen store.new) manifest.now [] H
        (λ c. H ++ release_held zone_bytes c ∷ []) result) }
    ensures stands { IfOk result (λ c. ForEachZoneHistory last.now (λ H.
        StandsFor zone_bytes IsSound c (H ++ release_held zone_bytes c ∷ []))) }
{
    let rules = Rules::none(alloc);
    let admitted = admitted_stated(
        alloc,
        manifest,
        store,
        last,
        &rules,
        &Subscribers::new(alloc),
    )?;
    Ok(admitted.catalogue)
}
