ghost use Rattle.std.specs.Prelude.{◌≡◌, ◌≤◌, ◌<◌, ◌+◌, ◌^◌, ℕ, List};
ghost use Rattle.http_request.specs.Scans.{IsScanned, Searches, ends_with, past, line_past};
ghost use Rattle.http_request.specs.declared.scan.ScannedLine.TheVariants as line;

use memchr::memchr;

/// The content so far of the current line.
#[derive(Clone, Copy, PartialEq, Eq)]
pub enum ScannedLine {
    /// Nothing.
    Nothing,
    /// A carriage return.
    Return,
    /// Other bytes.
    Other,
}

impl ScannedLine {
    /// The line after one more byte, which is not a line feed.
    fn past(self, byte: u8) -> ScannedLine
        ensures { result ≡ line_past self byte }
    {
        match self {
            ScannedLine::Nothing if byte == b'\r' => ScannedLine::Return,
            _ => ScannedLine::Other,
        }
    }
}

/// The state of a search for the end of the first head.
#[derive(Clone, Copy)]
pub struct Scan {
    /// How many bytes were searched.
    pub seen: usize,
    /// How many line feeds are among them.
    pub feeds: usize,
    /// Whether a line that is not empty is among them.
    pub begun: bool,
    /// The content of the last, unfinished line.
    pub line: ScannedLine,
}

/// The result of a search.
#[derive(Clone, Copy)]
pub enum Search {
    /// The head ends after this many bytes, with this many line feeds.
    End(usize, usize),
    /// It does not end in these bytes.
    Open(Scan),
}

impl Scan {
    /// The state before the first byte.
    pub fn start() -> Scan
        ensures scanned { (bytes : List ℕ) → IsScanned bytes result }
        ensures none { result.seen ≡ 0 }
    {
        Scan {
            seen: 0,
            feeds: 0,
            begun: false,
            line: ScannedLine::Nothing,
        }
    }

    /// Whether this byte ends the head.
    fn is_ended_by(self, byte: u8) -> bool
        ensures { result ≡ ends_with self byte }
    {
        byte == b'\n' && self.begun && !matches!(self.line, ScannedLine::Other)
    }

    /// The state after a byte that does not end the head.
    fn past(self, byte: u8) -> Scan
        requires room { self.seen + 1 < 2 ^ 64 }
        requires counted { self.feeds ≤ self.seen }
        ensures { result ≡ past self byte }
    {
        if byte == b'\n' {
            Scan {
                seen: self.seen + 1,
                feeds: self.feeds + 1,
                begun: self.begun || matches!(self.line, ScannedLine::Other),
                line: ScannedLine::Nothing,
            }
        } else {
            Scan {
                seen: self.seen + 1,
                feeds: self.feeds,
                begun: self.begun,
                line: self.line.past(byte),
            }
        }
    }
}

/// Continues the search for the end of the first head.
pub fn find_end(bytes: &[u8], from: Scan) -> Search
    requires { IsScanned bytes.now from }
    ensures { Searches bytes.now result }
{
    let mut scan = from;
    'bytes: while scan.seen < bytes.len() {
        let byte = bytes[scan.seen];
        let ended = scan.is_ended_by(byte);
        let past = scan.past(byte);
        if ended {
            return Search::End(past.seen, past.feeds);
        }
        scan = match past.line {
            ScannedLine::Other => to_line_feed(bytes, past),
            _ => past,
        };
    }
    Search::Open(scan)
}

/// Goes on to the next line feed of a line that has other bytes: what comes before it changes
/// nothing but the count.
fn to_line_feed(bytes: &[u8], from: Scan) -> Scan
    requires scanned { IsScanned bytes.now from }
    requires other { from.line ≡ line.Other }
    ensures scanned { IsScanned bytes.now result }
    ensures forward { from.seen ≤ result.seen }
{
    let rest = &bytes[from.seen..];
    let skipped = memchr(b'\n', rest).unwrap_or(rest.len());
    Scan {
        seen: from.seen + skipped,
        feeds: from.feeds,
        begun: from.begun,
        line: from.line,
    }
}
