//! A door at a socket of this machine, its clients, and the connection that it handed out.
use crate::fault::fault_of_call;
use case_lines::CaseFault;
use devices::{RealConn, RealDoor};
use std::alloc::Global;
use std::io;
use std::io::{Eprint, Read, Write};
use std::net::{Net, Shutdown, TcpStream};
use std::time::Clock;
use td_base::{Accepted, Conn, Door, DoorAnswer, End, Places, ReadStep, Report, WriteStep};

/// The most turns of a loop.
const TURNS: u64 = 1_000;

/// A door and its clients.
#[derive(Drop)]
pub struct Talk<R> {
    pub door: RealDoor<R>,
    /// The clients, the latest last. A step of a client is one of the last client.
    pub clients: Vec<TcpStream>,
    /// The connection that the door handed out and that is not handed back yet.
    pub conn: Option<RealConn<TcpStream, R>>,
}

impl<R: Clock + Eprint + Copy> Talk<R> {
    /// Only the door.
    pub fn new(alloc: Global, door: RealDoor<R>) -> Talk<R> {
        Talk {
            door,
            clients: Vec::new(alloc),
            conn: None,
        }
    }

    /// Requests a connection from the door once, and keeps it.
    fn ask(&mut self) -> DoorAnswer {
        match self.door.accept() {
            Accepted::Given(conn) => {
                self.conn = Some(conn);
                DoorAnswer::Given
            }
            Accepted::Idle => DoorAnswer::Idle,
            Accepted::Ended => DoorAnswer::Ended,
            Accepted::Failed => DoorAnswer::Failed,
        }
    }

    /// The answers of the door to two requests.
    pub fn twice(&mut self) -> (DoorAnswer, DoorAnswer) {
        let first = self.ask();
        (first, self.ask())
    }

    /// Requests a connection until the door does not answer that none waits, at most twenty times.
    pub fn next(&mut self) -> DoorAnswer {
        for _ in 0..20 {
            let answer = self.ask();
            if answer != DoorAnswer::Idle {
                return answer;
            }
        }
        DoorAnswer::Idle
    }

    /// Hands the connection back.
    pub fn finish(&mut self) -> Result<(), CaseFault> {
        let Some(conn) = self.conn.take() else {
            return Err(CaseFault::Strange);
        };
        let alloc = *self.clients.allocator();
        let report = Report {
            end: End::Closed,
            places: Places::new(alloc),
            computed: 0,
        };
        self.door.finish(conn, report);
        Ok(())
    }

    /// Reads from the connection into this buffer.
    pub fn read(&mut self, room: &mut [u8]) -> Result<ReadStep, CaseFault> {
        match &mut self.conn {
            Some(conn) if !room.is_empty() => Ok(conn.read(room)),
            _ => Err(CaseFault::Strange),
        }
    }

    /// Writes to the connection.
    pub fn write(&mut self, piece: &[u8]) -> Result<WriteStep, CaseFault> {
        match &mut self.conn {
            Some(conn) if !piece.is_empty() => Ok(conn.write(piece)),
            _ => Err(CaseFault::Strange),
        }
    }

    /// Writes until all is taken or a write fails, and returns how many bytes were taken.
    pub fn write_all(&mut self, bytes: &[u8]) -> Result<usize, CaseFault> {
        let mut left = bytes;
        for _ in 0..TURNS {
            if left.is_empty() {
                break;
            }
            match self.write(left)? {
                WriteStep::Took(count) => left = left.get(count..).unwrap_or(&[]),
                WriteStep::Failed => break,
            }
        }
        Ok(bytes.len().saturating_sub(left.len()))
    }

    /// Sends bytes from the last client.
    pub fn send(&mut self, bytes: &[u8]) -> Result<(), CaseFault> {
        match self.clients.last_mut() {
            Some(client) => client.write_all(bytes).map_err(fault_of_call),
            None => Err(CaseFault::Strange),
        }
    }

    /// Closes the sending side of the last client.
    pub fn shut(&mut self) -> Result<(), CaseFault> {
        match self.clients.last() {
            Some(client) => client.shutdown(Shutdown::Write).map_err(fault_of_call),
            None => Err(CaseFault::Strange),
        }
    }

    /// What the last client receives until the end.
    pub fn text(&mut self, alloc: Global) -> Result<String, CaseFault> {
        match self.clients.pop() {
            Some(client) => io::read_to_string(alloc, client).map_err(fault_of_call),
            None => Err(CaseFault::Strange),
        }
    }

    /// Lets the last client read until it has `most` bytes, and returns how many it has. Between
    /// two reads it requests a connection from the door, until one is handed out.
    pub fn pump(&mut self, room: &mut [u8], most: usize) -> Result<usize, CaseFault> {
        let mut got = 0usize;
        for _ in 0..TURNS {
            if got < most {
                got = got.saturating_add(self.get(room)?);
            } else if self.conn.is_some() {
                break;
            }
            if self.conn.is_none() {
                let _ = self.ask();
            }
        }
        Ok(got)
    }

    /// Reads what arrives at the last client.
    fn get(&mut self, room: &mut [u8]) -> Result<usize, CaseFault> {
        match self.clients.last_mut() {
            Some(client) => client.read(room).map_err(fault_of_call),
            None => Err(CaseFault::Strange),
        }
    }
}

/// A client of the door.
pub fn client<R: Net<Stream = TcpStream> + Clock + Eprint + Copy>(
    rt: &R,
    talk: &mut Talk<R>,
) -> Result<(), CaseFault> {
    let address = talk.door.local_addr().map_err(fault_of_call)?;
    let client = TcpStream::connect(rt, address).map_err(fault_of_call)?;
    Ok(talk.clients.push(client)?)
}
