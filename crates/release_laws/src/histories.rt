//! What tokens say of whole histories. The law is the contract of a function that only calls
//! another law.
ghost use Rattle.std.specs.Prelude.{◌≡◌, ◌<◌, ◌≤◌, ◌^◌, ℕ, List, length, take};
ghost use Rattle.catalogue.specs.Digests.{chain_of};
ghost use Rattle.catalogue.specs.Histories.{IsHistory, token_of};
ghost use Rattle.catalogue.specs.Releases.{ReleaseData};
ghost use Rattle.zone_meaning.specs.Sound.{IsSound};
ghost use Rattle.release_laws.specs.Hashed.{AreApartByDigest};

use catalogue::tokens_are_apart;

/// Two histories of the same length with the same chain value are equal, and two places with the
/// same token end equal histories. Both hold if no two different texts hashed for them have digests
/// that agree in the part a token shows.
pub fn tokens_name_histories()
    ensures chains { (G H : List ReleaseData) → IsHistory IsSound G → IsHistory IsSound H
        → AreApartByDigest G H → length G ≡ length H → chain_of G ≡ chain_of H → G ≡ H }
    ensures tokens { (G H : List ReleaseData) (m n : ℕ) → IsHistory IsSound G → IsHistory IsSound H
        → AreApartByDigest G H → m ≤ length G → n ≤ length H → m < 2 ^ 32 → n < 2 ^ 32
        → token_of G m ≡ token_of H n → take m G ≡ take n H }
{
    tokens_are_apart();
}
