use crate::Leaps;
use td_base::Bytes;
use td_civil::Moment;

/// A release without its zones.
#[derive(Drop)]
pub struct Head {
    pub stamp: Moment,
    pub publisher: Bytes,
    pub version: Bytes,
    pub leaps: Option<Leaps>,
}
