//! Installs of folders under rules.
ghost use Rattle.std.specs.Prelude.{map};
ghost use Rattle.admission.specs.Rules.{KeepsAll};

use crate::installs::first_installer;
use crate::manifest_installs::{add_after, add_count};
use crate::rules::rules;
use admission::Kept;
use case_lines::{Answer, AnswerBuilder, Row, display_text};
use installer::{InstallFault, InstallPolicy, Installer};
use std::alloc::Global;
use std::sync::Wait;
use td_base::MemoryStore;

/// `ruled RULES DIR ..`: how many releases the history has after the first folder, and after each
/// further one that is installed under the rules. The fault of a folder, if any, is printed first.
pub fn counts<R: Wait>(
    rt: &R,
    alloc: Global,
    row: &Row,
    store: &mut MemoryStore,
    kept: &[Kept],
    asked: &InstallPolicy<'_>,
) -> Answer
    requires { KeepsAll (map (λ k. k.kind) kept.now) }
{
    let asked = InstallPolicy::new(rules(alloc, kept, row.word(0)?)?, asked.wants);
    begin(rt, alloc, row, store, &asked)
}

/// Begins a history with the first folder.
fn begin<R: Wait>(
    rt: &R,
    alloc: Global,
    row: &Row,
    store: &mut MemoryStore,
    asked: &InstallPolicy<'_>,
) -> Answer {
    match first_installer(rt, alloc, row.word(1)?, store) {
        Ok(installer) => {
            let mut installer = installer;
            let answer = install_rest(rt, alloc, row, store, &mut installer, asked);
            installer.close(rt);
            answer
        }
        Err(fault) => display_text(alloc, &fault),
    }
}

/// Installs the folders after the first.
fn install_rest<R: Wait>(
    rt: &R,
    alloc: Global,
    row: &Row,
    store: &mut MemoryStore,
    installer: &mut Installer,
    asked: &InstallPolicy<'_>,
) -> Answer {
    let mut builder = AnswerBuilder::new(alloc);
    add_count(&mut builder, installer);
    for dir in row.words().get(2..).unwrap_or(&[]) {
        let fault = fault_of(rt, alloc, dir.as_slice(), store, installer, asked);
        add_after(&mut builder, fault, installer);
    }
    builder.finish()
}

/// The fault of installing a folder, if it has one.
fn fault_of<R: Wait>(
    rt: &R,
    alloc: Global,
    dir: &[u8],
    store: &mut MemoryStore,
    installer: &mut Installer,
    asked: &InstallPolicy<'_>,
) -> Option<InstallFault> {
    installer.install(rt, alloc, dir, store, asked).err()
}
