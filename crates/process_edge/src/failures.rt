use devices::{ListenFailure, LookFailure};
use std::io::ErrorKind;

/// The last failure of each I/O object, if it failed.
#[derive(Clone, Copy)]
pub struct Failures<'a> {
    pub store: Option<&'a LookFailure>,
    pub input: Option<ErrorKind>,
    pub output: Option<ErrorKind>,
    /// The last failure to listen at an address.
    pub network: Option<&'a ListenFailure>,
    /// The last failure to accept a connection.
    pub door: Option<ErrorKind>,
    /// The last failure of an exchange with the server that is followed.
    pub upstream: Option<ErrorKind>,
}

impl Failures<'_> {
    /// Nothing failed.
    pub const NONE: Failures<'static> = Failures {
        store: None,
        input: None,
        output: None,
        network: None,
        door: None,
        upstream: None,
    };
}
