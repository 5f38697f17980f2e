ghost use Rattle.std.specs.Prelude.{◌≡◌, IfOk, IfSome};
ghost use Rattle.console.specs.Replies.{IsBoundedReply, reply_text};
ghost use Rattle.console.specs.declared.said.Said.TheVariants as said;
ghost use Rattle.installer.specs.FaultText.{fault_text};
ghost use Rattle.mirror.specs.FaultText.{fault_text as sync_text};
ghost use Rattle.td_top.specs.Replies.{SaysFaulted, SaysRefused, SaysWhy};
ghost use Rattle.run_ends.specs.Replies.{nobody_text};
ghost use Rattle.td_top.specs.Replies.{reply_bytes};

use console::{Said, ShortLine, reply, short};
use installer::InstallFault;
use mirror::SyncFault;
use run_ends::{fault_text, shown};
use std::alloc::Global;
use std::fmt::Display;
use td_base::{Bytes, NoMemory};

/// The bytes of a reply.
#[derive(Drop)]
pub enum ConsoleReply {
    Short(ShortLine),
    Long(Bytes),
}

impl ConsoleReply {
    /// The reply for anything but a refusal. It allocates no memory.
    pub fn brief(said: &Said) -> ConsoleReply
        requires { IsBoundedReply said.now }
        ensures { reply_bytes result ≡ reply_text said.now }
    {
        ConsoleReply::Short(short(said))
    }

    /// The reply for a folder that was not installed. It allocates memory; without memory the reply
    /// says so.
    pub fn refusal(alloc: Global, fault: &InstallFault) -> ConsoleReply
        ensures { SaysRefused fault.now (reply_bytes result) }
    {
        match fault {
            InstallFault::NoMemory => ConsoleReply::brief(&Said::NoMemory),
            _ => match refused(alloc, fault) {
                Ok(line) => ConsoleReply::Long(line),
                Err(NoMemory) => ConsoleReply::brief(&Said::NoMemory),
            },
        }
    }

    /// The reply for a sync that ended with a fault. It allocates memory; without memory the reply
    /// says so.
    pub fn sync_refusal(alloc: Global, fault: &SyncFault) -> ConsoleReply
        ensures { SaysFaulted fault.now (reply_bytes result) }
    {
        match fault {
            SyncFault::NoMemory => ConsoleReply::brief(&Said::NoMemory),
            _ => match faulted(alloc, fault) {
                Ok(line) => ConsoleReply::Long(line),
                Err(NoMemory) => ConsoleReply::brief(&Said::NoMemory),
            },
        }
    }

    /// The reply for something that was refused, with a printable reason. It allocates memory;
    /// without memory the reply says so.
    pub fn shown_refusal<D: Display>(alloc: Global, why: &D) -> ConsoleReply
        ensures { IfSome (D.output why.now) (λ text. SaysWhy text (reply_bytes result)) }
    {
        match shown_line(alloc, why) {
            Ok(line) => ConsoleReply::Long(line),
            Err(NoMemory) => ConsoleReply::brief(&Said::NoMemory),
        }
    }

    /// The reply when nobody has subscribed under a number. It allocates memory; without memory the
    /// reply says so.
    pub fn nobody(alloc: Global) -> ConsoleReply
        ensures { SaysWhy nobody_text (reply_bytes result) }
    {
        match nobody_line(alloc) {
            Ok(line) => ConsoleReply::Long(line),
            Err(NoMemory) => ConsoleReply::brief(&Said::NoMemory),
        }
    }

    /// The bytes to write.
    pub fn as_slice(&self) -> &[u8]
        ensures { result.now ≡ reply_bytes self.now }
    {
        match self {
            ConsoleReply::Short(line) => line.as_slice(),
            ConsoleReply::Long(line) => line.as_slice(),
        }
    }
}

/// The line that says why a folder was not installed.
fn refused(alloc: Global, fault: &InstallFault) -> Result<Bytes, NoMemory>
    ensures { IfOk result (λ line. line ≡ reply_text (said.Refused (fault_text fault.now))) }
{
    refused_line(alloc, fault_text(alloc, fault)?)
}

/// The line that says why a sync ended.
fn faulted(alloc: Global, fault: &SyncFault) -> Result<Bytes, NoMemory>
    ensures { IfOk result (λ line. line ≡ reply_text (said.Refused (sync_text fault.now))) }
{
    refused_line(alloc, shown(alloc, fault)?)
}

/// The line of a refusal with a printable reason.
fn shown_line<D: Display>(alloc: Global, why: &D) -> Result<Bytes, NoMemory>
    ensures { IfOk result (λ line. IfSome (D.output why.now) (λ text.
        line ≡ reply_text (said.Refused text))) }
{
    refused_line(alloc, shown(alloc, why)?)
}

/// The line that says that nobody has subscribed under a number.
fn nobody_line(alloc: Global) -> Result<Bytes, NoMemory>
    ensures { IfOk result (λ line. line ≡ reply_text (said.Refused nobody_text)) }
{
    refused_line(alloc, Bytes::from_slice(alloc, b"20 NoWatch")?)
}

/// The line of a refusal with this reason.
fn refused_line(alloc: Global, why: Bytes) -> Result<Bytes, NoMemory>
    ensures { IfOk result (λ line. line ≡ reply_text (said.Refused why)) }
{
    let mut line = Bytes::new(alloc);
    reply(&mut line, &Said::Refused(why))?;
    Ok(line)
}
