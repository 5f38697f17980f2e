ghost use Rattle.std.specs.Prelude.{◌≡◌, ◌+◌, ◌<◌, ◌≤◌, length, IfSome};
ghost use Rattle.std.specs.Option.{option_copied};
ghost use Rattle.tzif_reader.specs.Cut.{before, text_between};

/// The text before the first byte `mark`. `None` if it does not occur.
pub fn before(text: &[u8], mark: u8) -> Option<&[u8]>
    ensures value { option_copied result ≡ before mark text.now }
    ensures len { IfSome result (λ prefix. length prefix.now < length text.now) }
{
    for (i, byte) in text.iter().enumerate() {
        if *byte == mark {
            let (prefix, _) = text.split_at(i);
            return Some(prefix);
        }
    }
    None
}

/// The text between two line feeds, the first of which must be the first byte.
pub fn text_between(bytes: &[u8]) -> Option<&[u8]>
    ensures value { option_copied result ≡ text_between bytes.now }
    ensures len { IfSome result (λ text. length text.now + 2 ≤ length bytes.now) }
{
    match bytes {
        [b'\n', rest @ ..] => before(rest, b'\n'),
        _ => None,
    }
}
