ghost use Rattle.std.specs.Prelude.{map};
ghost use Rattle.admission.specs.Rules.{KeepsAll};
ghost use Rattle.subscribers.specs.Wishes.{WantsAll};

use crate::stage::run;
use admission::Kept;
use case_lines::{CaseFault, Tally, Texts, cut, hex_bytes, number};
use run_plans::{Case, File, RunResult, Trial};
use std::alloc::{AllocError, Global};
use std::sync::Wait;
use std::thread::Threads;
use subscribers::Want;

/// A table that is read line by line.
#[derive(Drop)]
pub struct Script {
    alloc: Global,
    texts: Texts,
    files: Vec<File>,
    case: Option<Case>,
    tally: Tally,
    stated: u64,
}

impl Script {
    pub fn new(alloc: Global) -> Script {
        Script {
            alloc,
            texts: Texts::new(alloc),
            files: Vec::new(alloc),
            case: None,
            tally: Tally::new(),
            stated: 0,
        }
    }

    /// The report after the last line. It has how many runs ended otherwise than the table says, if
    /// the table had as many runs as its line `runs` says.
    pub fn summary(&self) -> Result<String, AllocError> {
        let (cases, right, stated) = (self.tally.cases, self.tally.right, self.stated);
        if cases != stated {
            return format!(in self.alloc; "{cases} runs, where the table says {stated}");
        }
        let others = cases.saturating_sub(right);
        format!(in self.alloc;
            "all runs of the table, of which {others} ended otherwise than it says"
        )
    }

    /// Applies a line, and returns the report on it, if any.
    pub fn read_line<R: Threads + Wait + Copy + Send + 'static>(
        &mut self,
        rt: &R,
        kept: &[Kept],
        wants: &[Want],
        line: &str,
    ) -> Result<Option<String>, AllocError>
        requires rules { KeepsAll (map (λ k. k.kind) kept.now) }
        requires wants { WantsAll (map (λ w. w.kind) wants.now) }
    {
        match self.take(rt, kept, wants, line) {
            Ok(report) => Ok(report),
            Err(CaseFault::NoMemory) => Err(AllocError),
            Err(CaseFault::Strange) => Ok(Some(format!(in self.alloc; "strange line: {line}")?)),
        }
    }

    fn take<R: Threads + Wait + Copy + Send + 'static>(
        &mut self,
        rt: &R,
        kept: &[Kept],
        wants: &[Want],
        line: &str,
    ) -> Result<Option<String>, CaseFault>
        requires rules { KeepsAll (map (λ k. k.kind) kept.now) }
        requires wants { WantsAll (map (λ w. w.kind) wants.now) }
    {
        let (word, rest) = cut(line);
        if word == "run" {
            return self.run_case(rt, kept, wants, rest);
        }
        self.add(word, rest)?;
        Ok(None)
    }

    /// Applies a line that runs nothing.
    fn add(&mut self, word: &str, rest: &str) -> Result<(), CaseFault> {
        match word {
            "" | "#" => Ok(()),
            "file" => add_file(&mut self.files, &self.texts, rest),
            "hex" => add_hex_file(self.alloc, &mut self.files, &self.texts, rest),
            "remove" => {
                self.files = Vec::new(self.alloc);
                Ok(())
            }
            "case" => begin(self.alloc, &mut self.case, rest),
            "runs" => state(&mut self.stated, rest),
            _ => self.add_text(word, rest),
        }
    }

    /// A line that names a text, or one of a case.
    fn add_text(&mut self, word: &str, rest: &str) -> Result<(), CaseFault> {
        if self.texts.define(word, rest)? {
            return Ok(());
        }
        match &mut self.case {
            Some(case) => case.add(self.alloc, &self.texts, word, rest),
            None => Err(CaseFault::Strange),
        }
    }

    /// `run`, or `run cut`, `run unwritten`, `run unread` or `run ended`: once for each byte of the
    /// input or of the output.
    fn run_case<R: Threads + Wait + Copy + Send + 'static>(
        &mut self,
        rt: &R,
        kept: &[Kept],
        wants: &[Want],
        how: &str,
    ) -> Result<Option<String>, CaseFault>
        requires rules { KeepsAll (map (λ k. k.kind) kept.now) }
        requires wants { WantsAll (map (λ w. w.kind) wants.now) }
    {
        let Some(case) = &self.case else {
            return Err(CaseFault::Strange);
        };
        let mut report = None;
        for number in 1..case.count_runs(how).saturating_add(1) {
            let trial = Trial::of(how, number);
            let other = report_on(
                rt,
                self.alloc,
                kept,
                wants,
                self.files.as_slice(),
                case,
                trial,
            )?;
            self.tally.count(other.is_none());
            if other.is_some() {
                report = other;
            }
        }
        Ok(report)
    }
}

/// Begins a case.
fn begin(alloc: Global, case: &mut Option<Case>, title: &str) -> Result<(), CaseFault> {
    let begun = Case::new(alloc, title)?;
    *case = Some(begun);
    Ok(())
}

/// Reads how many runs the table has.
fn state(stated: &mut u64, word: &str) -> Result<(), CaseFault> {
    *stated = number(word.as_bytes())?;
    Ok(())
}

/// `file PATH TEXT`
fn add_file(files: &mut Vec<File>, texts: &Texts, rest: &str) -> Result<(), CaseFault> {
    let (path, text) = cut(rest);
    let bytes = texts.meaning(text)?;
    push_file(files, texts, path, bytes)
}

/// `hex PATH DIGITS`
fn add_hex_file(
    alloc: Global,
    files: &mut Vec<File>,
    texts: &Texts,
    rest: &str,
) -> Result<(), CaseFault> {
    let (path, digits) = cut(rest);
    let bytes = hex_bytes(alloc, digits.as_bytes())?;
    push_file(files, texts, path, bytes)
}

fn push_file(
    files: &mut Vec<File>,
    texts: &Texts,
    path: &str,
    bytes: Vec<u8>,
) -> Result<(), CaseFault> {
    let path = texts.meaning(path)?;
    files.push(File { path, bytes })?;
    Ok(())
}

/// Runs a case, and reports on it if it ended otherwise than the table says.
fn report_on<R: Threads + Wait + Copy + Send + 'static>(
    rt: &R,
    alloc: Global,
    kept: &[Kept],
    wants: &[Want],
    files: &[File],
    case: &Case,
    trial: Trial,
) -> Result<Option<String>, CaseFault>
    requires rules { KeepsAll (map (λ k. k.kind) kept.now) }
    requires wants { WantsAll (map (λ w. w.kind) wants.now) }
{
    let ending = run(rt, alloc, kept, wants, files, case, trial)?;
    if case.is_met_by(trial, &ending) {
        return Ok(None);
    }
    Ok(Some(as_line(alloc, case, &ending)?))
}

/// The report on a run that ended otherwise.
fn as_line(alloc: Global, case: &Case, ending: &RunResult) -> Result<String, AllocError> {
    let (title, ending) = (case.title.as_str(), ending.as_text(alloc)?);
    format!(in alloc; "{title}: ended with {ending}")
}
