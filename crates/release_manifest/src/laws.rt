ghost use Rattle.std.specs.Prelude.{◌≡◌, ℕ, List, None};
ghost use Rattle.json.specs.Json.{Json};
ghost use Rattle.release_manifest.specs.declared.manifest_type.Manifest.{Manifest};
ghost use Rattle.release_manifest.specs.Checks.{document_fault};
ghost use Rattle.release_manifest.specs.Meaning.{IsManifest};
ghost use Rattle.release_manifest.specs.Reading.{IsManifestText, manifest_text_fault};

/// A JSON value is a manifest exactly when it has no fault, and then it is only one manifest.
pub fn one_meaning()
    ensures found { (d : Json) → document_fault d ≡ None → (m : Manifest) × IsManifest d m }
    ensures sound { (d : Json) (m : Manifest) → IsManifest d m → document_fault d ≡ None }
    ensures one { (d : Json) (m n : Manifest) → IsManifest d m → IsManifest d n → m ≡ n }
{}

/// A text is a manifest exactly when it has no fault, and then it is only one manifest.
pub fn one_reading()
    ensures found { (text : List ℕ) → manifest_text_fault text ≡ None
        → (m : Manifest) × IsManifestText text m }
    ensures sound { (text : List ℕ) (m : Manifest) → IsManifestText text m
        → manifest_text_fault text ≡ None }
    ensures one { (text : List ℕ) (m n : Manifest) → IsManifestText text m → IsManifestText text n
        → m ≡ n }
{}
