use crate::{CaseFault, number};
use std::alloc::{AllocError, Global};
use std::collections::BTreeMap;

/// The state of the reader of a text.
#[derive(Clone, Copy)]
enum Place {
    Plain,
    /// After a backslash.
    Escape,
    /// After `\x`, and then after its first digit.
    Hex,
    LowHex(u8),
    /// After a dollar sign.
    Dollar,
    /// In a name, which begins at this position.
    Name(usize),
}

/// The named texts of a table.
#[derive(Drop)]
pub struct Texts {
    alloc: Global,
    named: BTreeMap<Vec<u8>, Vec<u8>>,
}

impl Texts {
    /// No texts.
    pub fn new(alloc: Global) -> Texts {
        Texts {
            alloc,
            named: BTreeMap::new(alloc),
        }
    }

    /// Handles a line that names a text, and returns whether the line is one: `let NAME TEXT` or
    /// `series NAME FROM TO TEXT`.
    pub fn define(&mut self, word: &str, rest: &str) -> Result<bool, CaseFault> {
        match word {
            "let" => {
                let (name, text) = cut(rest);
                let text = self.meaning(text)?;
                self.name(name, text)?;
                Ok(true)
            }
            "series" => {
                let (name, rest) = cut(rest);
                let (from, rest) = cut(rest);
                let (to, text) = cut(rest);
                let all = self.series(number(from.as_bytes())?, number(to.as_bytes())?, text)?;
                self.name(name, all)?;
                Ok(true)
            }
            _ => Ok(false),
        }
    }

    /// Gives a text a name.
    fn name(&mut self, name: &str, text: Vec<u8>) -> Result<(), AllocError> {
        let name = Vec::from_slice(self.alloc, name.as_bytes())?;
        let _ = self.named.insert(name, text)?;
        Ok(())
    }

    /// The text once for each number of the range, with `$(n)` as the number.
    fn series(&mut self, from: u64, to: u64, text: &str) -> Result<Vec<u8>, CaseFault> {
        let mut all = Vec::new(self.alloc);
        for n in from..to.saturating_add(1) {
            let digits = n.to_string(self.alloc)?;
            self.name("n", Vec::from_slice(self.alloc, digits.as_bytes())?)?;
            self.append(text.as_bytes(), &mut all)?;
        }
        Ok(all)
    }

    /// The bytes of a text of the table.
    pub fn meaning(&self, text: &str) -> Result<Vec<u8>, CaseFault> {
        let mut out = Vec::new(self.alloc);
        self.append(text.as_bytes(), &mut out)?;
        Ok(out)
    }

    /// Appends the bytes of a text of the table.
    pub fn append(&self, text: &[u8], out: &mut Vec<u8>) -> Result<(), CaseFault> {
        let mut place = Place::Plain;
        for (at, byte) in text.iter().enumerate() {
            place = self.step(text, place, at, *byte, out)?;
        }
        match place {
            Place::Plain => Ok(()),
            _ => Err(CaseFault::Strange),
        }
    }

    /// Reads one byte, and returns the next state.
    fn step(
        &self,
        text: &[u8],
        place: Place,
        at: usize,
        byte: u8,
        out: &mut Vec<u8>,
    ) -> Result<Place, CaseFault> {
        match (place, byte) {
            (Place::Plain, b'\\') => Ok(Place::Escape),
            (Place::Plain, b'$') => Ok(Place::Dollar),
            (Place::Escape, b'e') => Ok(Place::Plain),
            (Place::Escape, b'x') => Ok(Place::Hex),
            (Place::Hex, _) => Ok(Place::LowHex(digit(byte)?)),
            (Place::Dollar, b'(') => Ok(Place::Name(at.saturating_add(1))),
            (Place::Dollar, _) => Err(CaseFault::Strange),
            (Place::Name(from), b')') => {
                self.append_named(text.get(from..at).unwrap_or(&[]), out)?;
                Ok(Place::Plain)
            }
            (Place::Name(from), _) => Ok(Place::Name(from)),
            (Place::LowHex(high), _) => {
                out.push(high.wrapping_mul(16) | digit(byte)?)?;
                Ok(Place::Plain)
            }
            (Place::Escape, _) => {
                out.push(control(byte)?)?;
                Ok(Place::Plain)
            }
            (Place::Plain, _) => {
                out.push(byte)?;
                Ok(Place::Plain)
            }
        }
    }

    /// Appends a named text, as often as the number after its star.
    fn append_named(&self, name: &[u8], out: &mut Vec<u8>) -> Result<(), CaseFault> {
        let star = name.iter().position(|b| *b == b'*').unwrap_or(name.len());
        let times = number(name.get(star.saturating_add(1)..).unwrap_or(b"1"))?;
        let Some(text) = self.named.get(name.get(..star).unwrap_or(&[])) else {
            return Err(CaseFault::Strange);
        };
        for _ in 0..times {
            out.extend_from_slice(text.as_slice())?;
        }
        Ok(())
    }
}

/// The text before the first blank, and the text after it.
pub fn cut(text: &str) -> (&str, &str) {
    text.split_once(' ').unwrap_or((text, ""))
}

/// The value of a hex digit.
fn digit(byte: u8) -> Result<u8, CaseFault> {
    match byte {
        b'0'..=b'9' => Ok(byte - b'0'),
        b'a'..=b'f' => Ok(byte - b'a' + 10),
        _ => Err(CaseFault::Strange),
    }
}

/// The byte of an escape, from the character after the backslash.
fn control(byte: u8) -> Result<u8, CaseFault> {
    match byte {
        b'r' => Ok(b'\r'),
        b'n' => Ok(b'\n'),
        b't' => Ok(b'\t'),
        b'0' => Ok(0),
        b'\\' | b'$' => Ok(byte),
        _ => Err(CaseFault::Strange),
    }
}
