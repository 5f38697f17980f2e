ghost use Rattle.std.specs.Prelude.{◌≡◌, ◌<◌, IfSome, length};
ghost use Rattle.std.specs.Option.{option_copied};
ghost use Rattle.std.specs.List.{list_all, list_any};
ghost use Rattle.td_base.specs.Names as names;
ghost use Rattle.td_base.specs.Names.{segments, IsSegmentCut};

/// The most bytes of a time zone identifier.
pub const MOST_IDENTIFIER_BYTES: usize = 64;

/// The most bytes of a file name.
pub const MOST_FILE_NAME_BYTES: usize = 128;

/// The most bytes of a label.
pub const MOST_LABEL_BYTES: usize = 64;

/// The most bytes of the path of a file or folder in command-line arguments or console lines.
pub const MOST_PATH_BYTES: usize = 1_024;

/// Whether a text may be the identifier or an alias of a time zone. That is 1 to 64 letters, digits
/// and `_+-./`, without a slash at either end and without two in a row.
#[tactic(auto, unfolding(crate::specs::Names::is_path))]
pub fn is_identifier(text: &[u8]) -> bool
    ensures { result ≡ names.is_identifier text.now }
{
    text.len() <= MOST_IDENTIFIER_BYTES && has_segments(text)
}

/// Whether a text may be the name of a file of a release. It has the form of an identifier, but at
/// most 128 bytes and no segment `.` or `..`.
#[tactic(auto, unfolding(crate::specs::Names::is_file_name, crate::specs::Names::is_path))]
pub fn is_file_name(text: &[u8]) -> bool
    ensures { result ≡ names.is_file_name text.now }
{
    text.len() <= MOST_FILE_NAME_BYTES && has_segments(text) && !has_dots(text)
}

/// Whether a text may be the name of a publisher or of a version: 1 to 64 printable ASCII bytes.
#[tactic(auto, unfolding(crate::specs::Names::is_label))]
pub fn is_label(text: &[u8]) -> bool
    ensures { result ≡ names.is_label text.now }
{
    !text.is_empty() && text.len() <= MOST_LABEL_BYTES && is_printable(text)
}

/// Whether a word may be the path of a file or folder: 1 to 1,024 bytes that do not begin with a
/// dash.
pub fn is_path_word(word: &[u8]) -> bool
    ensures { result ≡ names.is_path_word word.now }
{
    match word {
        [] => false,
        [first, ..] => *first != b'-' && word.len() <= MOST_PATH_BYTES,
    }
}

/// Whether all bytes are printable ASCII.
fn is_printable(text: &[u8]) -> bool
    ensures { result ≡ list_all names.is_printable text.now }
{
    text.iter().all(|byte| *byte >= b' ' && *byte <= b'~')
}

/// Whether each segment of the text is valid in a name.
fn has_segments(text: &[u8]) -> bool
    ensures { result ≡ list_all names.is_segment (segments text.now) }
{
    let mut left = Some(text);
    while let Some(rest) = left {
        let (segment, after) = cut_segment(rest);
        if !is_segment(segment) {
            return false;
        }
        left = after;
    }
    true
}

/// Whether a segment of the text is `.` or `..`.
fn has_dots(text: &[u8]) -> bool
    ensures { result ≡ list_any names.is_dots (segments text.now) }
{
    let mut left = Some(text);
    while let Some(rest) = left {
        let (segment, after) = cut_segment(rest);
        if segment == b".".as_slice() || segment == b"..".as_slice() {
            return true;
        }
        left = after;
    }
    false
}

/// Whether a segment is not empty and has only bytes that names may have.
fn is_segment(segment: &[u8]) -> bool
    ensures { result ≡ names.is_segment segment.now }
{
    !segment.is_empty() && has_name_bytes(segment)
}

/// Whether each byte is one that names may have.
fn has_name_bytes(segment: &[u8]) -> bool
    ensures { result ≡ list_all names.is_name_byte segment.now }
{
    segment.iter().all(|byte| is_name_byte(*byte))
}

/// Whether the byte is a letter, a digit, or one of `_`, `+`, `-` and `.`.
fn is_name_byte(byte: u8) -> bool
    ensures { result ≡ names.is_name_byte byte }
{
    byte.is_ascii_alphanumeric() || matches!(byte, b'_' | b'+' | b'-' | b'.')
}

/// The text before the first slash, and the text after it if a slash exists.
fn cut_segment(text: &[u8]) -> (&[u8], Option<&[u8]>)
    ensures cut { IsSegmentCut text.now result.0.now (option_copied result.1) }
    ensures shorter { IfSome result.1 (λ rest. length rest.now < length text.now) }
{
    for (at, byte) in text.iter().enumerate() {
        if *byte == b'/' {
            return (&text[..at], Some(&text[at + 1..]));
        }
    }
    (text, None)
}
