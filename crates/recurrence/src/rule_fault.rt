use thiserror::Error;

/// No yearly rules say what the footer says: its dates shift with leap years or across the turn of
/// the year.
#[derive(Clone, Copy, Debug, PartialEq, Eq, Error)]
#[error("rule beyond")]
pub struct RuleBeyond;
