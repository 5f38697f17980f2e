//! Case folding and comparison of texts.
ghost use Rattle.std.specs.Prelude.{◌≡◌, length};
ghost use Rattle.find_pattern.specs.Matching as matching;

/// The byte as it is compared: an ASCII letter in lower case, and a space for `_`.
fn fold(byte: u8) -> u8
    ensures { result ≡ matching.fold_byte byte }
{
    if byte == b'_' {
        return b' ';
    }
    byte.to_ascii_lowercase()
}

/// Whether two texts are equal after folding.
pub fn is_same(text: &[u8], other: &[u8]) -> bool
    ensures { result ≡ matching.is_same text.now other.now }
{
    text.len() == other.len() && has_same_bytes(text, other)
}

/// Whether two texts of the same length are equal after folding.
fn has_same_bytes(text: &[u8], other: &[u8]) -> bool
    requires { length text.now ≡ length other.now }
    ensures { result ≡ matching.is_same text.now other.now }
{
    text.iter()
        .zip(other)
        .all(|(byte, mate)| fold(*byte) == fold(*mate))
}
