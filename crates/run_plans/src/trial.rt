//! The runs of a case.

/// How one run of a case differs from another.
#[derive(Clone, Copy)]
pub enum Trial {
    /// Not at all.
    Plain,
    /// The first read of the input gives this many bytes.
    Cut(usize),
    /// Each write to the output takes one byte, and the one with this number fails.
    Unwritten(usize),
    /// Each read of the input gives one byte, and the one with this number fails.
    Unread(usize),
    /// The input ends before its byte of this number.
    Ended(usize),
}

impl Trial {
    /// The trial with this number, from 1, among those of a name.
    pub fn of(how: &str, number: usize) -> Trial {
        match how {
            "cut" => Trial::Cut(number),
            "unwritten" => Trial::Unwritten(number),
            "unread" => Trial::Unread(number),
            "ended" => Trial::Ended(number),
            _ => Trial::Plain,
        }
    }

    /// The read that fails.
    pub fn failing_read(self) -> Option<usize> {
        match self {
            Trial::Unread(number) => Some(number),
            _ => None,
        }
    }

    /// The write that fails.
    pub fn failing_write(self) -> Option<usize> {
        match self {
            Trial::Unwritten(number) => Some(number),
            _ => None,
        }
    }
}
