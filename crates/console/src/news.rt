//! The reply to `news`.
ghost use Rattle.std.specs.Prelude.{◌≡◌, ◌++◌, length, take, codes, OnOk, OnErr};
ghost use Rattle.std.specs.List.{flat_map};
ghost use Rattle.console.specs.Replies.{news_text, notice_text, spaced};

use itoa::Buffer;
use subscribers::{Notice, Notices};
use td_base::{Bytes, NoMemory};

/// Appends a line for each notice, and the line `end`. When memory runs out nothing is appended.
pub fn news_reply(out: &mut Bytes, notices: Notices<'_>) -> Result<(), NoMemory>
    ensures ok { OnOk result (out.new ≡ out.old ++ news_text notices.now) }
    ensures err { OnErr result (out.new ≡ out.old) }
{
    let start = out.len();
    if let Err(error) = put_news(out, notices) {
        out.truncate(start);
        return Err(error);
    }
    Ok(())
}

/// Appends the reply. When memory runs out, the part already appended stays.
#[tactic(auto, unfolding(crate::specs::Replies::news_text))]
fn put_news(out: &mut Bytes, notices: &[Notice]) -> Result<(), NoMemory>
    ensures ok { OnOk result (out.new ≡ out.old ++ news_text notices.now) }
    ensures kept { take (length out.old) out.new ≡ out.old }
{
    put_notices(out, notices)?;
    out.append(b"end\n")?;
    Ok(())
}

/// Appends a line for each notice. When memory runs out, the part already appended stays.
fn put_notices(out: &mut Bytes, notices: &[Notice]) -> Result<(), NoMemory>
    ensures ok { OnOk result (out.new ≡ out.old ++ flat_map notice_text notices.now) }
    ensures kept { take (length out.old) out.new ≡ out.old }
{
    for notice in notices {
        put_notice(out, notice)?;
    }
    Ok(())
}

/// Appends the line of a notice. When memory runs out, the part already appended stays.
fn put_notice(out: &mut Bytes, notice: &Notice) -> Result<(), NoMemory>
    ensures ok { OnOk result (out.new ≡ out.old ++ notice_text notice.now) }
    ensures kept { take (length out.old) out.new ≡ out.old }
{
    let mut buffer = Buffer::new();
    out.append(b"news ")?;
    out.append(buffer.format(notice.place).as_bytes())?;
    put_names(out, notice.tzids.as_slice())?;
    out.append(b"\n")?;
    Ok(())
}

/// Appends names, each after a space. When memory runs out, the part already appended stays.
fn put_names(out: &mut Bytes, names: &[Bytes]) -> Result<(), NoMemory>
    ensures ok { OnOk result (out.new ≡ out.old ++ flat_map spaced names.now) }
    ensures kept { take (length out.old) out.new ≡ out.old }
{
    for name in names {
        out.append(b" ")?;
        out.append(name.as_slice())?;
    }
    Ok(())
}
