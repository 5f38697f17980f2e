ghost use Rattle.std.specs.Prelude.{[], ◌∷◌, ◌++◌, List, Ok};
ghost use Rattle.td_base.specs.Views.{File};
ghost use Rattle.catalogue.specs.Releases.{ReleaseData};
ghost use Rattle.release_check.specs.Before.{before_of};
ghost use Rattle.release_manifest.specs.declared.manifest_type.Manifest.{Manifest};
ghost use Rattle.installer.specs.Installing.{ManifestGives};
ghost use Rattle.installer.specs.Serving.{IsServed};

/// The release that a manifest gives after a history is then the one that is served.
pub fn given_is_served()
    ensures { (files : List File) (m : Manifest) (H : List ReleaseData) (r : ReleaseData) →
        ManifestGives m files (before_of H) (Ok r) → IsServed files m (H ++ r ∷ []) }
{}
