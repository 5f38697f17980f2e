use thiserror::Error;

/// The text is not `YYYY-MM-DDTHH:MM:SSZ` of an existing date and time of day (RFC 3339, section
/// 5.6).
#[derive(Clone, Copy, Debug, PartialEq, Eq, Error)]
#[error("bad moment")]
pub struct BadMoment;
