ghost use Rattle.std.specs.Prelude.{◌≡◌, ◌<◌, ◌++◌, ◌^◌, ℕ, length, take, map, List};
ghost use Rattle.std.specs.Int.{to_be_bytes, w32};
ghost use Rattle.std.specs.List.{AllByRecursion, concat};
ghost use Rattle.hex.specs.Hex.{encode_lower};
ghost use Rattle.sha2.specs.Hashers.{Holds256};
ghost use Rattle.td_base.specs.Sized.{sized};
ghost use Rattle.catalogue.specs.Releases.{content_as_is, IsShort};
ghost use Rattle.catalogue.specs.Digests.{content_digest, token_text};

use crate::{Content, ZoneData};
use itoa::Buffer;
use sha2::{Digest, Sha256};
use td_base::{Bytes, Items, Token};

/// The lower-case hex digits of a digest.
fn hex_digits(digest: &[u8; 32]) -> [u8; 64]
    ensures { result ≡ encode_lower digest.now }
{
    let mut digits = [0; 64];
    let _ = hex::encode_to_slice(digest.as_slice(), &mut digits);
    digits
}

/// The tag of a content with this digest: the first 32 of its hex digits.
pub fn tag(digest: &[u8; 32]) -> [u8; 32]
    ensures { result ≡ take 32 (encode_lower digest.now) }
{
    first_half(hex_digits(digest).as_slice())
}

/// The first 32 of 64 digits.
fn first_half(digits: &[u8]) -> [u8; 32]
    requires { length digits.now ≡ 64 }
    ensures { result ≡ take 32 digits.now }
{
    let mut half = [0; 32];
    let prefix = &digits[..32];
    half.copy_from_slice(prefix);
    half
}

/// The token of a place with this chain value.
pub fn token(place: u32, chain: &[u8; 32]) -> Token
    ensures { result ≡ token_text place chain.now }
{
    let digits = hex_digits(chain);
    let mut buffer = Buffer::new();
    let mut token = Token::new();
    token.append(buffer.format(place).as_bytes());
    token.append(b"-");
    token.append(&digits[..16]);
    token
}

/// Hashes a number as a big-endian 32-bit number.
pub fn hash_number(hasher: &mut Sha256, number: u32)
    ensures { (m : List ℕ) → Holds256 hasher.old m →
        Holds256 hasher.new (m ++ to_be_bytes w32 number) }
{
    hasher.update(number.to_be_bytes().as_slice());
}

/// Hashes the number of bytes, then the bytes.
pub fn hash_sized(hasher: &mut Sha256, bytes: &[u8])
    requires { length bytes.now < 2 ^ 32 }
    ensures { (m : List ℕ) → Holds256 hasher.old m →
        Holds256 hasher.new (m ++ sized bytes.now) }
{
    hash_number(hasher, bytes.len() as u32);
    hasher.update(bytes);
}

/// Hashes the number of texts, and each text after its length.
fn hash_texts(hasher: &mut Sha256, texts: &Items<Bytes>)
    requires count { length texts.now < 2 ^ 32 }
    requires texts { AllByRecursion (λ a. length a < 2 ^ 32) texts.now }
    ensures { (m : List ℕ) → Holds256 hasher.old m → Holds256 hasher.new
        (m ++ to_be_bytes w32 (length texts.now) ++ concat (map sized texts.now)) }
{
    hash_number(hasher, texts.len() as u32);
    for text in texts.as_slice() {
        hash_sized(hasher, text.as_slice());
    }
}

/// The digest of a content whose aliases are in rising order.
pub fn content_digest<Z: ZoneData>(content: &Content<Z>) -> [u8; 32]
    requires { IsShort (content_as_is Z.bytes content.now) }
    ensures { result ≡ content_digest (content_as_is Z.bytes content.now) }
{
    let mut hasher = Sha256::new();
    hash_sized(&mut hasher, content.tzid.as_slice());
    hash_texts(&mut hasher, &content.aliases);
    hash_sized(&mut hasher, content.zone.file_bytes());
    hasher.finalize()
}
