//! What a line requests, and how it is parsed.
ghost use Rattle.std.specs.Prelude.{◌≡◌, IfOk, OnErr};
ghost use Rattle.console.specs.Lines as spec;

use crate::wishes::read_wish;
use crate::words::read_number;
use std::alloc::Global;
use subscribers::Wish;
use td_base::{Bytes, NoMemory, is_path_word};

/// A parsed line of the operator.
#[derive(Drop)]
pub enum Line {
    /// `install DIR`: check the release in this folder and serve it. The name of the folder has 1
    /// to 1,024 bytes and does not begin with a dash. It may contain spaces.
    Install(Bytes),
    /// `sync`: request the release of the upstream.
    Sync,
    /// `watch any`, `watch under TEXT` or `watch past MOMENT`: subscribe, from now on, to the zones
    /// that each install changes. TEXT has 1 to 64 bytes that identifiers may have. MOMENT is a
    /// moment of UTC from 1800 on, before 9999.
    Watch(Wish),
    /// `news K`: the notices that the subscriber of this number has not received yet.
    News(u32),
    /// `status`: report which release is served.
    Status,
    /// `quit`: stop.
    Quit,
    /// Anything else, and each line of more than 1,100 bytes.
    Strange,
}

/// How many bytes a line may have, without its line feed.
pub const MOST_BYTES: usize = 1_100;

/// The greatest number that a line may contain.
const MOST_NUMBER: u64 = 4_294_967_295;

/// Parses the bytes before a line feed.
#[tactic(auto, unfolding(crate::specs::Lines::line_of))]
pub fn read_line(alloc: Global, bytes: &[u8]) -> Result<Line, NoMemory>
    ensures found { IfOk result (λ line. line ≡ spec.line_of bytes.now) }
    ensures memory { OnErr result (spec.HasWishText (spec.line_of bytes.now)) }
{
    if bytes.len() > MOST_BYTES {
        return Ok(Line::Strange);
    }
    read_command(alloc, without_return(bytes))
}

/// The bytes without one carriage return at their end.
fn without_return(bytes: &[u8]) -> &[u8]
    ensures { result.now ≡ spec.without_return bytes.now }
{
    bytes.strip_suffix(b"\r").unwrap_or(bytes)
}

/// Parses the text of a line, without its line end.
#[tactic(auto, unfolding(crate::specs::Lines::asked_in))]
fn read_command(alloc: Global, text: &[u8]) -> Result<Line, NoMemory>
    ensures found { IfOk result (λ line. line ≡ spec.asked_in text.now) }
    ensures memory { OnErr result (spec.HasWishText (spec.asked_in text.now)) }
{
    if text == b"sync".as_slice() {
        return Ok(Line::Sync);
    }
    if text == b"status".as_slice() {
        return Ok(Line::Status);
    }
    if text == b"quit".as_slice() {
        return Ok(Line::Quit);
    }
    read_words(alloc, text)
}

/// Parses a line that is none of the single words.
#[tactic(auto, unfolding(crate::specs::Lines::words_of))]
fn read_words(alloc: Global, text: &[u8]) -> Result<Line, NoMemory>
    ensures found { IfOk result (λ line. line ≡ spec.words_of text.now) }
    ensures memory { OnErr result (spec.HasWishText (spec.words_of text.now)) }
{
    if let Some(folder) = text.strip_prefix(b"install ") {
        return read_install(alloc, folder);
    }
    if let Some(wish) = text.strip_prefix(b"watch ") {
        return read_watch(alloc, wish);
    }
    match text.strip_prefix(b"news ") {
        Some(number) => Ok(read_news(number)),
        None => Ok(Line::Strange),
    }
}

/// The line to install a folder, if it is named as folders are.
fn read_install(alloc: Global, folder: &[u8]) -> Result<Line, NoMemory>
    ensures found { IfOk result (λ line. line ≡ spec.install_of folder.now) }
    ensures memory { OnErr result (spec.HasWishText (spec.install_of folder.now)) }
{
    if !is_path_word(folder) {
        return Ok(Line::Strange);
    }
    Ok(Line::Install(Bytes::from_slice(alloc, folder)?))
}

/// The line to subscribe to what a text wishes.
fn read_watch(alloc: Global, text: &[u8]) -> Result<Line, NoMemory>
    ensures found { IfOk result (λ line. line ≡ spec.watch_of text.now) }
    ensures memory { OnErr result (spec.HasWishText (spec.watch_of text.now)) }
{
    match read_wish(alloc, text)? {
        Some(wish) => Ok(Line::Watch(wish)),
        None => Ok(Line::Strange),
    }
}

/// The line that names the number of a subscriber.
fn read_news(text: &[u8]) -> Line
    ensures { result ≡ spec.news_of text.now }
{
    match read_number(text, 0, MOST_NUMBER) {
        Some(number) => Line::News(number),
        None => Line::Strange,
    }
}
