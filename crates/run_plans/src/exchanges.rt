//! The exchanges of a run with its upstream.
use case_lines::{AnswerBuilder, CaseFault, Texts};

/// The limit that each exchange of the table sets for its answer, in bytes.
const MOST: u64 = 8_388_608;

/// An exchange of the upstream that was handed back.
#[derive(Drop)]
pub struct PastExchange {
    pub request: Vec<u8>,
    /// The limit of the answer, in bytes.
    pub most: u64,
    /// How many bytes of output come before it, if it is from the table.
    pub after: usize,
}

impl PastExchange {
    /// An exchange of the table, after this many bytes of output.
    pub fn read(texts: &Texts, request: &str, after: usize) -> Result<PastExchange, CaseFault> {
        Ok(PastExchange {
            request: texts.meaning(request)?,
            most: MOST,
            after,
        })
    }

    /// Appends it as the table would write it.
    pub fn add_to(&self, builder: &mut AnswerBuilder) {
        builder.add_bytes(b", exchange ");
        builder.add_bytes(self.request.as_slice());
        if self.most != MOST {
            builder.add_bytes(b" of ");
            builder.add_debug(&self.most);
        }
    }

    /// Whether another has the same request and limit.
    fn is(&self, other: &PastExchange) -> bool {
        self.request == other.request && self.most == other.most
    }
}

/// Whether the exchanges of a run are exactly those of the table that come before its output ends,
/// at this position.
pub fn are_met(table: &[PastExchange], seen: &[PastExchange], end: usize) -> bool {
    let mut left = seen.iter();
    for wanted in table {
        if wanted.after > end {
            continue;
        }
        match left.next() {
            Some(exchange) if wanted.is(exchange) => {}
            _ => return false,
        }
    }
    left.next().is_none()
}
