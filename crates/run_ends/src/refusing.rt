ghost use Rattle.std.specs.Prelude.{◌≡◌, IfOk};
ghost use Rattle.installer.specs.FaultText.{fault_text};
ghost use Rattle.run_ends.specs.Tells.{TellsRefused, RefusesInstall};

use crate::printing::refuse;
use crate::status::Status;
use installer::InstallFault;
use release_check::CheckFault;
use std::alloc::Global;
use td_base::{Bytes, NoMemory, Sink};

/// Ends a run because a folder was not installed.
pub fn refuse_install<K: Sink>(alloc: Global, fault: &InstallFault, output: &mut K) -> Status
    ensures { RefusesInstall fault.now (K.seen output.old) (K.seen output.new) result }
{
    match fault {
        InstallFault::NoMemory => Status::NoMemory,
        InstallFault::Check(CheckFault::ReadFault) => Status::NotRead,
        _ => tell_fault(alloc, fault, output),
    }
}

/// Prints why a folder was not installed.
fn tell_fault<K: Sink>(alloc: Global, fault: &InstallFault, output: &mut K) -> Status
    ensures { TellsRefused (fault_text fault.now) (K.seen output.old) (K.seen output.new) result }
{
    match fault_text(alloc, fault) {
        Ok(text) => refuse(alloc, Status::Refused, &text, output),
        Err(NoMemory) => Status::NoMemory,
    }
}

/// The text of why a folder was not installed.
pub fn fault_text(alloc: Global, fault: &InstallFault) -> Result<Bytes, NoMemory>
    ensures { IfOk result (λ text. text ≡ fault_text fault.now) }
{
    let mut text = Bytes::new(alloc);
    fault.put(alloc, &mut text)?;
    Ok(text)
}
