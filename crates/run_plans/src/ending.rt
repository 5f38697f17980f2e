//! How a run ends, as the table says it and as it is compared.
use crate::exchanges::PastExchange;
use case_lines::{AnswerBuilder, CaseFault, Texts, cut, escape, number, numbers};
use std::alloc::{AllocError, Global};
use td_base::End;

/// How a run ends.
#[derive(Drop)]
pub struct RunResult {
    pub status: u8,
    pub output: Vec<u8>,
    /// The doors that were requested from the network.
    pub asked: Vec<NetworkAsked>,
    /// How often the spawner was to start a work.
    pub begun: u64,
    /// The addresses at which the network was to reach an upstream.
    pub reached: Vec<Vec<u8>>,
    /// The doors that were handed back.
    pub doors: Vec<DoorEnd>,
    /// The exchanges of the upstream that was handed back.
    pub exchanges: Option<Vec<PastExchange>>,
}

/// A request for a number of doors at an address.
#[derive(Drop, PartialEq)]
pub struct NetworkAsked {
    pub address: Vec<u8>,
    pub doors: u64,
}

/// A door that was handed back.
#[derive(Drop, PartialEq)]
pub struct DoorEnd {
    /// How many of its connections are still to come.
    pub coming: u64,
    pub served: Vec<ConnEnd>,
}

/// A connection that was handed back.
#[derive(Drop, PartialEq)]
pub struct ConnEnd {
    pub end: End,
    /// The places at which its requests were answered.
    pub places: Vec<u32>,
    /// What was written to it.
    pub output: Vec<u8>,
}

/// Whether a line of this word tells how a run ends.
pub fn is_of_ending(word: &str) -> bool {
    match word {
        "status"
        | "output"
        | "starts"
        | "asks"
        | "back"
        | "served"
        | "reaches"
        | "up"
        | "exchange" => true,
        _ => false,
    }
}

impl RunResult {
    /// The end of a run that does nothing.
    pub fn new(alloc: Global) -> RunResult {
        RunResult {
            status: 0,
            output: Vec::new(alloc),
            asked: Vec::new(alloc),
            begun: 0,
            reached: Vec::new(alloc),
            doors: Vec::new(alloc),
            exchanges: None,
        }
    }

    /// Adds what a line of the table says of the end.
    pub fn add(
        &mut self,
        alloc: Global,
        texts: &Texts,
        word: &str,
        rest: &str,
    ) -> Result<(), CaseFault> {
        match word {
            "status" => read_status(&mut self.status, rest),
            "output" => texts.append(rest.as_bytes(), &mut self.output),
            "starts" => read_count(&mut self.begun, rest),
            "asks" => push_asked(&mut self.asked, texts, rest),
            "back" => push_door(alloc, &mut self.doors, rest),
            "served" => push_served(alloc, &mut self.doors, texts, rest),
            "reaches" => push_reached(&mut self.reached, texts, rest),
            "up" => {
                self.exchanges = Some(Vec::new(alloc));
                Ok(())
            }
            "exchange" => self.add_exchange(texts, rest),
            _ => Err(CaseFault::Strange),
        }
    }

    fn add_exchange(&mut self, texts: &Texts, request: &str) -> Result<(), CaseFault> {
        let after = self.output.len();
        match &mut self.exchanges {
            Some(all) => push_exchange(all, texts, request, after),
            None => Err(CaseFault::Strange),
        }
    }

    /// The end as the table would write it.
    pub fn as_text(&self, alloc: Global) -> Result<String, AllocError> {
        let mut builder = AnswerBuilder::new(alloc);
        self.add_to(&mut builder);
        match builder.finish() {
            Ok(text) => escape(alloc, text.as_slice()),
            Err(_) => Err(AllocError),
        }
    }

    fn add_to(&self, builder: &mut AnswerBuilder) {
        builder.add_debug(&self.status);
        builder.add_bytes(b" ");
        builder.add_bytes(self.output.as_slice());
        for asked in &self.asked {
            asked.add_to(builder);
        }
        if self.begun > 0 {
            builder.add_bytes(b", starts ");
            builder.add_debug(&self.begun);
        }
        for door in &self.doors {
            door.add_to(builder);
        }
        self.add_upstream(builder);
    }

    fn add_upstream(&self, builder: &mut AnswerBuilder) {
        for address in &self.reached {
            builder.add_bytes(b", reaches ");
            builder.add_bytes(address.as_slice());
        }
        if let Some(exchanges) = &self.exchanges {
            builder.add_bytes(b", up");
            for exchange in exchanges {
                exchange.add_to(builder);
            }
        }
    }
}

impl NetworkAsked {
    /// `ADDRESS DOORS`
    fn read(texts: &Texts, rest: &str) -> Result<NetworkAsked, CaseFault> {
        let (address, doors) = cut(rest);
        let doors = number(doors.as_bytes())?;
        Ok(NetworkAsked {
            address: texts.meaning(address)?,
            doors,
        })
    }

    fn add_to(&self, builder: &mut AnswerBuilder) {
        builder.add_bytes(b", asks ");
        builder.add_bytes(self.address.as_slice());
        builder.add_bytes(b" ");
        builder.add_debug(&self.doors);
    }
}

impl DoorEnd {
    fn add_to(&self, builder: &mut AnswerBuilder) {
        builder.add_bytes(b", back ");
        builder.add_debug(&self.coming);
        for served in &self.served {
            served.add_to(builder);
        }
    }
}

impl ConnEnd {
    /// `END PLACES TEXT`
    fn read(alloc: Global, texts: &Texts, rest: &str) -> Result<ConnEnd, CaseFault> {
        let (end, rest) = cut(rest);
        let (places, text) = cut(rest);
        let end = end_of(end)?;
        let places = read_places(alloc, texts, places)?;
        Ok(ConnEnd {
            end,
            places,
            output: texts.meaning(text)?,
        })
    }

    fn add_to(&self, builder: &mut AnswerBuilder) {
        builder.add_bytes(b", served ");
        builder.add_bytes(name_of(self.end));
        builder.add_bytes(b" ");
        add_places(builder, self.places.as_slice());
        builder.add_bytes(b" ");
        builder.add_bytes(self.output.as_slice());
    }
}

/// The places, separated by commas. A dash means none.
fn add_places(builder: &mut AnswerBuilder, places: &[u32]) {
    if places.is_empty() {
        builder.add_bytes(b"-");
    }
    for (at, place) in places.iter().enumerate() {
        if at > 0 {
            builder.add_bytes(b",");
        }
        builder.add_debug(place);
    }
}

/// The places, separated by commas. A dash means none.
fn read_places(alloc: Global, texts: &Texts, word: &str) -> Result<Vec<u32>, CaseFault> {
    let text = texts.meaning(word)?;
    let places = numbers(alloc, text.as_slice())?;
    small_numbers(alloc, places.as_slice())
}

fn small_numbers(alloc: Global, numbers: &[u64]) -> Result<Vec<u32>, CaseFault> {
    let mut all = Vec::new(alloc);
    for number in numbers {
        push_small(&mut all, *number)?;
    }
    Ok(all)
}

fn push_small(all: &mut Vec<u32>, number: u64) -> Result<(), CaseFault> {
    let number = u32::try_from(number).ok().ok_or(CaseFault::Strange)?;
    all.push(number)?;
    Ok(())
}

fn push_asked(all: &mut Vec<NetworkAsked>, texts: &Texts, rest: &str) -> Result<(), CaseFault> {
    let asked = NetworkAsked::read(texts, rest)?;
    all.push(asked)?;
    Ok(())
}

fn push_door(alloc: Global, all: &mut Vec<DoorEnd>, coming: &str) -> Result<(), CaseFault> {
    let coming = number(coming.as_bytes())?;
    all.push(DoorEnd {
        coming,
        served: Vec::new(alloc),
    })?;
    Ok(())
}

/// Adds a connection to the last door.
fn push_served(
    alloc: Global,
    doors: &mut Vec<DoorEnd>,
    texts: &Texts,
    rest: &str,
) -> Result<(), CaseFault> {
    match doors.last_mut() {
        Some(door) => push_conn(alloc, &mut door.served, texts, rest),
        None => Err(CaseFault::Strange),
    }
}

fn push_conn(
    alloc: Global,
    all: &mut Vec<ConnEnd>,
    texts: &Texts,
    rest: &str,
) -> Result<(), CaseFault> {
    let served = ConnEnd::read(alloc, texts, rest)?;
    all.push(served)?;
    Ok(())
}

fn push_reached(all: &mut Vec<Vec<u8>>, texts: &Texts, address: &str) -> Result<(), CaseFault> {
    let address = texts.meaning(address)?;
    all.push(address)?;
    Ok(())
}

fn push_exchange(
    all: &mut Vec<PastExchange>,
    texts: &Texts,
    request: &str,
    after: usize,
) -> Result<(), CaseFault> {
    let exchange = PastExchange::read(texts, request, after)?;
    all.push(exchange)?;
    Ok(())
}

/// A status, which is a byte.
fn read_status(status: &mut u8, word: &str) -> Result<(), CaseFault> {
    let number = number(word.as_bytes())?;
    *status = u8::try_from(number).ok().ok_or(CaseFault::Strange)?;
    Ok(())
}

fn read_count(count: &mut u64, word: &str) -> Result<(), CaseFault> {
    *count = number(word.as_bytes())?;
    Ok(())
}

/// The end of this name.
fn end_of(name: &str) -> Result<End, CaseFault> {
    match name {
        "closed" => Ok(End::Closed),
        "read" => Ok(End::ReadFault),
        "write" => Ok(End::WriteFault),
        "memory" => Ok(End::NoMemory),
        _ => Err(CaseFault::Strange),
    }
}

fn name_of(end: End) -> &'static [u8] {
    match end {
        End::Closed => b"closed",
        End::ReadFault => b"read",
        End::WriteFault => b"write",
        End::NoMemory => b"memory",
    }
}
