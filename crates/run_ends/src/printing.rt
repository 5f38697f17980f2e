ghost use Rattle.std.specs.Prelude.{◌≡◌, IfOk, IfSome};
ghost use Rattle.run_ends.specs.Printing.{Printed};
ghost use Rattle.run_ends.specs.Printing.{refused_line};
ghost use Rattle.run_ends.specs.Tells.{CanPrint, CanRefuse, Tells};

use crate::status::Status;
use std::alloc::Global;
use std::fmt::Display;
use td_base::{Bytes, NoMemory, Sink, Written, write_whole};

/// Writes a text that ends a run with this status. When a write fails, the status is
/// [`Status::NotWritten`] instead of [`Status::Done`]. A line that says why nothing was done keeps
/// its own status.
pub fn print<K: Sink>(output: &mut K, status: Status, text: &[u8]) -> Status
    requires { CanPrint status }
    ensures { Printed status text.now (K.seen output.old) (K.seen output.new) result }
{
    match (write_whole(output, text), status) {
        (Written::Cut, Status::Done) => Status::NotWritten,
        (_, status) => status,
    }
}

/// Ends a run with this status and a line that gives the reason as text.
pub fn refuse<K: Sink>(alloc: Global, status: Status, why: &Bytes, output: &mut K) -> Status
    requires { CanRefuse status }
    ensures { Tells status (refused_line why.now) (K.seen output.old) (K.seen output.new) result }
{
    match refused_line(alloc, why) {
        Ok(line) => print(output, status, line.as_slice()),
        Err(NoMemory) => Status::NoMemory,
    }
}

/// Ends a run with this status and a line that gives a printable reason.
pub fn refuse_shown<D: Display, K: Sink>(
    alloc: Global,
    status: Status,
    why: &D,
    output: &mut K,
) -> Status
    requires { CanRefuse status }
    ensures { IfSome (D.output why.now) (λ text.
        Tells status (refused_line text) (K.seen output.old) (K.seen output.new) result) }
{
    match shown(alloc, why) {
        Ok(why) => refuse(alloc, status, &why, output),
        Err(NoMemory) => Status::NoMemory,
    }
}

/// The line of a refusal.
fn refused_line(alloc: Global, why: &Bytes) -> Result<Bytes, NoMemory>
    ensures { IfOk result (λ line. line ≡ refused_line why.now) }
{
    let mut line = Bytes::from_slice(alloc, b"refused ")?;
    line.append(why.as_slice())?;
    line.append(b"\n")?;
    Ok(line)
}

/// A value as it is printed.
pub fn shown<D: Display>(alloc: Global, value: &D) -> Result<Bytes, NoMemory>
    ensures { IfOk result (λ text. IfSome (D.output value.now) (λ shown. text ≡ shown)) }
{
    let text = value.to_string(alloc)?;
    Bytes::from_slice(alloc, text.as_bytes())
}
