use td_base::Bytes;

/// A parameter of a query: absent, given once, or repeated.
#[derive(Drop)]
pub enum Param {
    Absent,
    /// The decoded value, in UTF-8.
    Once(Bytes),
    Repeated,
}

/// The action of RFC 7808, section 5, of a request target.
#[derive(Drop)]
pub enum Asked {
    Capabilities,
    /// The list of zones, with the parameter `changedsince`.
    List(Param),
    /// A search, with the parameter `pattern`, which is not absent.
    Find(Param),
    /// The data of a zone, whose name is not empty.
    Get {
        tzid: Bytes,
        start: Param,
        end: Param,
    },
    /// The observances of a zone, whose name is not empty.
    Expand {
        tzid: Bytes,
        start: Param,
        end: Param,
    },
    LeapSeconds,
    /// The well-known URI of the service (RFC 7808, section 4.2.1.3), which redirects clients.
    WellKnown,
    /// Not an action.
    Unknown,
}
