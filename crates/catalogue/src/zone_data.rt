ghost use Rattle.std.specs.Prelude.{◌≡◌, ℕ, List};
ghost use Rattle.catalogue.specs.Plain.{HasPlainLabels};
ghost use Rattle.catalogue.specs.Releases.{ReleaseData, HasLengths};

/// The data of a zone. Contracts see the bytes of its file, and which releases of such zones are
/// sound.
pub trait ZoneData {
    ghost bytes: { Self → List ℕ };

    ghost sound: { ReleaseData → Type 0 };

    /// The bytes of the zone's file.
    fn file_bytes(&self) -> &[u8]
        ensures { result.now ≡ bytes self.now };

    ghost lengths: { (r : ReleaseData) → sound r → HasLengths r };

    ghost labels: { (r : ReleaseData) → sound r → HasPlainLabels r };
}
