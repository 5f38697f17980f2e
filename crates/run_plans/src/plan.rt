//! What a table says of the network of a run.
use case_lines::{CaseFault, Texts, number};
use std::alloc::Global;

/// The doors and upstreams of a case's network, and its failing calls.
#[derive(Drop)]
pub struct NetworkPlan {
    pub doors: Vec<DoorPlan>,
    pub upstreams: Vec<UpstreamPlan>,
    /// The numbers of the calls that fail, from 1, of both kinds counted together.
    pub failing: Vec<u64>,
}

/// The answers of an upstream, one for each exchange.
#[derive(Drop)]
pub struct UpstreamPlan {
    pub answers: Vec<Vec<u8>>,
    /// The numbers of the exchanges that fail, from 1, without taking an answer.
    pub failing: Vec<u64>,
}

/// The answers of a door, one step for each call.
#[derive(Drop)]
pub struct DoorPlan {
    pub steps: Vec<StepPlan>,
    /// The numbers of the calls that fail, from 1, without taking a step.
    pub failing: Vec<u64>,
}

#[derive(Drop)]
pub enum StepPlan {
    /// A connection.
    Conn(ConnPlan),
    /// No connection waits.
    Idle,
}

/// A connection with this input.
#[derive(Drop)]
pub struct ConnPlan {
    pub input: Vec<u8>,
    /// The numbers of the reads and of the writes that fail, from 1.
    pub reads_failing: Vec<u64>,
    pub writes_failing: Vec<u64>,
}

/// Whether a line of this word is about a network.
pub fn is_of_network(word: &str) -> bool {
    match word {
        "door"
        | "upstream"
        | "answer"
        | "fail-exchange"
        | "fail-network"
        | "conn"
        | "idle"
        | "fail-accept"
        | "fail-conn-read"
        | "fail-conn-write" => true,
        _ => false,
    }
}

impl NetworkPlan {
    /// A network without doors and upstreams, in which no call fails.
    pub fn new(alloc: Global) -> NetworkPlan {
        NetworkPlan {
            doors: Vec::new(alloc),
            upstreams: Vec::new(alloc),
            failing: Vec::new(alloc),
        }
    }

    /// Adds a line of the table.
    pub fn add(
        &mut self,
        alloc: Global,
        texts: &Texts,
        word: &str,
        rest: &str,
    ) -> Result<(), CaseFault> {
        match word {
            "door" => push_door(alloc, &mut self.doors),
            "upstream" => push_upstream(alloc, &mut self.upstreams),
            "answer" | "fail-exchange" => match self.upstreams.last_mut() {
                Some(upstream) => upstream.add(texts, word, rest),
                None => Err(CaseFault::Strange),
            },
            "fail-network" => push_call(&mut self.failing, rest),
            _ => match self.doors.last_mut() {
                Some(door) => door.add(alloc, texts, word, rest),
                None => Err(CaseFault::Strange),
            },
        }
    }
}

impl UpstreamPlan {
    fn add(&mut self, texts: &Texts, word: &str, rest: &str) -> Result<(), CaseFault> {
        match word {
            "answer" => push_answer(&mut self.answers, texts, rest),
            _ => push_call(&mut self.failing, rest),
        }
    }
}

impl DoorPlan {
    fn add(
        &mut self,
        alloc: Global,
        texts: &Texts,
        word: &str,
        rest: &str,
    ) -> Result<(), CaseFault> {
        match word {
            "conn" => push_conn(alloc, &mut self.steps, texts, rest),
            "idle" => push_step(&mut self.steps, StepPlan::Idle),
            "fail-accept" => push_calls(&mut self.failing, rest),
            _ => match self.steps.last_mut() {
                Some(StepPlan::Conn(conn)) => conn.add(word, rest),
                Some(StepPlan::Idle) | None => Err(CaseFault::Strange),
            },
        }
    }
}

impl ConnPlan {
    fn add(&mut self, word: &str, rest: &str) -> Result<(), CaseFault> {
        match word {
            "fail-conn-read" => push_call(&mut self.reads_failing, rest),
            "fail-conn-write" => push_call(&mut self.writes_failing, rest),
            _ => Err(CaseFault::Strange),
        }
    }
}

/// Adds a door without steps.
fn push_door(alloc: Global, doors: &mut Vec<DoorPlan>) -> Result<(), CaseFault> {
    doors.push(DoorPlan {
        steps: Vec::new(alloc),
        failing: Vec::new(alloc),
    })?;
    Ok(())
}

/// Adds an upstream without answers.
fn push_upstream(alloc: Global, upstreams: &mut Vec<UpstreamPlan>) -> Result<(), CaseFault> {
    upstreams.push(UpstreamPlan {
        answers: Vec::new(alloc),
        failing: Vec::new(alloc),
    })?;
    Ok(())
}

fn push_answer(answers: &mut Vec<Vec<u8>>, texts: &Texts, text: &str) -> Result<(), CaseFault> {
    let answer = texts.meaning(text)?;
    answers.push(answer)?;
    Ok(())
}

/// Adds a connection with this input.
fn push_conn(
    alloc: Global,
    steps: &mut Vec<StepPlan>,
    texts: &Texts,
    input: &str,
) -> Result<(), CaseFault> {
    let conn = ConnPlan {
        input: texts.meaning(input)?,
        reads_failing: Vec::new(alloc),
        writes_failing: Vec::new(alloc),
    };
    push_step(steps, StepPlan::Conn(conn))
}

fn push_step(steps: &mut Vec<StepPlan>, step: StepPlan) -> Result<(), CaseFault> {
    steps.push(step)?;
    Ok(())
}

/// Adds the number of a call that fails.
pub fn push_call(failing: &mut Vec<u64>, word: &str) -> Result<(), CaseFault> {
    let call = number(word.as_bytes())?;
    failing.push(call)?;
    Ok(())
}

/// `FIRST`, or `FIRST LAST`: adds the numbers of calls that fail.
fn push_calls(failing: &mut Vec<u64>, rest: &str) -> Result<(), CaseFault> {
    let (first, last) = rest.split_once(' ').unwrap_or((rest, rest));
    let last = number(last.as_bytes())?;
    for call in number(first.as_bytes())?..last.saturating_add(1) {
        failing.push(call)?;
    }
    Ok(())
}
