//! Theorems, each the contract of a function with an empty body.
ghost use Rattle.std.specs.Prelude.{◌≡◌, ℕ, List, Result, IsTrue};
ghost use Rattle.httparse.specs.Grammar.{RequestHead};
ghost use Rattle.td_base.specs.declared.report.Ask.{Ask};
ghost use Rattle.http_client.specs.Replies.{IsReading};
ghost use Rattle.http_client.specs.SentHeads.{IsSentCalendarHead, IsSentHead, is_visible_text};
ghost use Rattle.http_client.specs.declared.reply.BadReply.{BadReply};
ghost use Rattle.http_client.specs.declared.reply.Reply.{Reply};

/// A list of bytes has only one reading.
pub fn one_reading()
    ensures { (bytes : List ℕ) (r s : Result Reply BadReply)
        → IsReading bytes r → IsReading bytes s → r ≡ s }
{}

/// A request with a host of visible bytes is a request head, and nothing follows it.
pub fn requests_are_heads()
    ensures { (host : List ℕ) (a : Ask) → IsTrue (is_visible_text host)
        → (h : RequestHead) × IsSentHead host a h }
{}

/// The same for a request of a mirror that keeps calendars.
pub fn calendar_requests_are_heads()
    ensures { (host : List ℕ) (a : Ask) → IsTrue (is_visible_text host)
        → (h : RequestHead) × IsSentCalendarHead host a h }
{}
