//! Texts between separators.
ghost use Rattle.std.specs.Prelude.{◌≡◌, ◌∷◌, ◌<◌, ◌≤◌, length, IfSome};
ghost use Rattle.std.specs.Option.{option_copied};
ghost use Rattle.vtimezone.specs.Cutting.{cut_at};
ghost use Rattle.vtimezone_reader.specs.Pieces as texts;

/// The text before the first separator, and the text after it, if there is a separator.
pub(crate) fn cut(text: &[u8], separator: u8) -> (&[u8], Option<&[u8]>)
    ensures before { result.0.now ≡ texts.before separator text.now }
    ensures after { option_copied result.1 ≡ texts.after separator text.now }
    ensures cut { cut_at separator text.now
        ≡ result.0.now ∷ texts.pieces separator (option_copied result.1) }
    ensures shorter { IfSome result.1 (λ rest. length rest.now < length text.now) }
{
    let (piece, rest) = text.split_at(length_before(text, separator));
    if rest.is_empty() {
        return (piece, None);
    }
    let (_, after) = rest.split_at(1);
    (piece, Some(after))
}

fn length_before(text: &[u8], separator: u8) -> usize
    ensures value { result ≡ texts.length_before separator text.now }
    ensures inside { result ≤ length text.now }
{
    for (at, byte) in text.iter().enumerate() {
        if *byte == separator {
            return at;
        }
    }
    text.len()
}
