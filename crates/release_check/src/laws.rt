ghost use Rattle.std.specs.Prelude.{◌≡◌, List, ℕ, Ok, Result, Some};
ghost use Rattle.td_base.specs.Views.{File};
ghost use Rattle.catalogue.specs.Holdings.{StandsFor};
ghost use Rattle.catalogue.specs.Releases.{ReleaseData};
ghost use Rattle.catalogue.specs.declared.holding.Catalogue.{Catalogue};
ghost use Rattle.zone_meaning.specs.Sound.{IsSound};
ghost use Rattle.zone_meaning.specs.ZoneHistories.{zone_bytes};
ghost use Rattle.release_check.specs.Before.{Before, Follows, before_held, before_of};
ghost use Rattle.release_check.specs.Folder.{FolderGives};
ghost use Rattle.release_check.specs.declared.check_fault.CheckFault.{CheckFault};

use release_manifest::one_reading;

/// A folder gives either a release or a first fault, and exactly one of them, after any history.
pub fn one_folder()
    ensures some { (files : List File) (dir : List ℕ) (before : Before)
        → (r : Result ReleaseData CheckFault) × FolderGives files dir before r }
    ensures one { (files : List File) (dir : List ℕ) (before : Before)
        (a b : Result ReleaseData CheckFault)
        → FolderGives files dir before a → FolderGives files dir before b → a ≡ b }
{
    one_reading();
}

/// A release that a folder gives is sound, and may follow the history before it.
pub fn fitting_release()
    ensures sound { (files : List File) (dir : List ℕ) (before : Before) (r : ReleaseData)
        → FolderGives files dir before (Ok r) → IsSound r }
    ensures follows { (files : List File) (dir : List ℕ) (before : Before) (r : ReleaseData)
        → FolderGives files dir before (Ok r) → Follows before r }
{}

/// The data of a catalogue is what follows from each history that it represents.
pub fn held_before()
    ensures { (c : Catalogue (List ℕ)) (H : List ReleaseData)
        → StandsFor zone_bytes IsSound c H → before_of H ≡ before_held (Some c) }
{}
