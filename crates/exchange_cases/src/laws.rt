//! Laws, each of which does nothing. A row that calls them shows that they can be called.
use case_lines::Answer;
use std::alloc::Global;
use sync_world::{
    Actions, aliases_follow, asks_are_answered, holds_comes, mirrors_hold, tokens_are_refused_late,
};
use zone_meaning::Zone;

/// `secondary-laws`: calls each law of a secondary, for the primary that answers by the actions.
pub fn of_secondaries(alloc: Global) -> Answer {
    mirrors_hold::<Actions>();
    holds_comes::<Actions>();
    asks_are_answered::<Actions>();
    tokens_are_refused_late::<Actions>();
    aliases_follow::<Zone>();
    case_lines::bytes(alloc, b"called")
}

/// `mirror-laws`: calls the laws of replies that a mirror reads, and of its exchanges.
pub fn of_mirrors(alloc: Global) -> Answer {
    http_client::one_reading();
    mirror::one_meaning();
    case_lines::bytes(alloc, b"called")
}

/// `connection-laws`: calls the laws of heads, and of the lines of a console.
pub fn of_connections(alloc: Global) -> Answer {
    http_request::gives();
    http_request::is_bounded();
    http_request::one_step();
    http_request::prefixes();
    http_request::refusal_stays();
    http_request::searches();
    console::folders_are_named();
    console::goes_on();
    console::reads_written();
    case_lines::bytes(alloc, b"called")
}
