ghost use Rattle.std.specs.Prelude.{◌≡◌, ◌++◌, OnErr, OnOk};
ghost use Rattle.installer.specs.FaultText.{shown_text};

use release_check::CheckFault;
use std::alloc::Global;
use std::error::Error;
use std::fmt;
use td_base::{Bytes, NoMemory};

/// Why a folder's release did not join the history, which is then as it was.
#[derive(Debug, Drop)]
pub enum InstallFault {
    NoMemory,
    /// The folder is refused, or the store failed.
    Check(CheckFault),
    /// A rule refuses the folder's release. The number is the position of the first rule that does,
    /// counted from 1.
    Policy(u32),
}

impl From<NoMemory> for InstallFault {
    ghost use Rattle.installer.specs.declared.install_fault.InstallFault.TheVariants as fault;

    ghost from_gives = { λ _ e. e ≡ fault.NoMemory };

    fn from(_: NoMemory) -> Self {
        InstallFault::NoMemory
    }
}

impl From<CheckFault> for InstallFault {
    ghost use Rattle.installer.specs.FaultText.{of_check};

    ghost from_gives = { λ f e. e ≡ of_check f };

    fn from(fault: CheckFault) -> Self {
        match fault {
            CheckFault::NoMemory => InstallFault::NoMemory,
            fault => InstallFault::Check(fault),
        }
    }
}

/// Prints the folder's fault. A name or a path that is not UTF-8 is left out; [`InstallFault::put`]
/// writes its bytes as they are.
impl fmt::Display for InstallFault {
    ghost use Rattle.std.specs.Prelude.{Some};
    ghost use Rattle.installer.specs.FaultText.{shown_text};

    ghost output = { λ f. Some (shown_text f) };

    fn fmt<W: fmt::Write>(&self, f: &mut fmt::Formatter<W>) -> fmt::Result {
        match self {
            InstallFault::NoMemory => write!(f, "0 NoMemory"),
            InstallFault::Check(fault) => write!(f, "{fault}"),
            InstallFault::Policy(rule) => write!(f, "17 Policy {rule}"),
        }
    }
}

impl Error for InstallFault {}

impl InstallFault {
    ghost use Rattle.installer.specs.FaultText.{fault_text};

    /// Appends the fault as it is printed. When memory runs out nothing is appended.
    pub fn put(&self, alloc: Global, out: &mut Bytes) -> Result<(), NoMemory>
        ensures ok { OnOk result (out.new ≡ out.old ++ fault_text self.now) }
        ensures err { OnErr result (out.new ≡ out.old) }
    {
        match self {
            InstallFault::NoMemory => out.append(b"0 NoMemory"),
            InstallFault::Check(fault) => fault.put(alloc, out),
            InstallFault::Policy(_) => put_shown(alloc, out, self),
        }
    }
}

/// Appends the text of a fault that has no name and no path.
fn put_shown(alloc: Global, out: &mut Bytes, fault: &InstallFault) -> Result<(), NoMemory>
    ensures ok { OnOk result (out.new ≡ out.old ++ shown_text fault.now) }
    ensures err { OnErr result (out.new ≡ out.old) }
{
    let text = fault.to_string(alloc)?;
    out.append(text.as_bytes())
}
