ghost use Rattle.std.specs.Prelude.{◌≡◌, ◌+◌, ◌<◌, ◌≤◌, ◌^◌, ◌++◌, length, decimal, OnErr, OnOk};
ghost use Rattle.made_load.specs.Counts.{summary_text};

use crate::LoadCounts;
use itoa::Buffer;
use td_base::{Bytes, NoMemory, ShortText};

/// The line of a summary, at most 128 bytes. No number in it has more than ten digits.
type SummaryLine = ShortText<128>;

/// Appends the line with the counts. If memory runs out, nothing is appended.
pub fn summary(out: &mut Bytes, counts: &LoadCounts) -> Result<(), NoMemory>
    ensures ok { OnOk result (out.new ≡ out.old ++ summary_text counts.now) }
    ensures err { OnErr result (out.new ≡ out.old) }
{
    out.append(summary_line(counts).as_slice())
}

/// The line with the counts.
#[tactic(auto, unfolding(crate::specs::Counts::summary_text))]
fn summary_line(counts: &LoadCounts) -> SummaryLine
    ensures { result ≡ summary_text counts.now }
{
    let mut line = SummaryLine::new();
    line.append(b"load ");
    put_number(&mut line, counts.releases, b": ");
    put_number(&mut line, counts.releases, b" releases, ");
    put_number(&mut line, counts.requests, b" requests, ");
    put_number(&mut line, counts.fine, b" ok, ");
    put_number(&mut line, counts.unchanged, b" unchanged, ");
    put_number(&mut line, counts.entries, b" entries\n");
    line
}

/// Appends a number in decimal, and a text.
fn put_number(line: &mut SummaryLine, number: u32, text: &[u8])
    requires { length line.old + 10 + length text.now ≤ 128 }
    ensures text { line.new ≡ line.old ++ (decimal number ++ text.now) }
    ensures fits { length line.new ≤ length line.old + 10 + length text.now }
{
    let mut buffer = Buffer::new();
    line.append(buffer.format(number).as_bytes());
    line.append(text);
}
