use td_base::Bytes;

/// The answer to a request, before it is written as HTTP.
#[derive(Drop)]
pub struct Answer {
    /// The status code: 200, 301, 304, 400, 404 or 406.
    pub status: u16,
    /// The media type of the body. It is not written with 304.
    pub kind: Option<Kind>,
    /// The entity tag, with its quotes (RFC 9110, section 8.8.3). An answer with a tag varies by
    /// Accept.
    pub tag: Option<Bytes>,
    /// Whether to send a Location field with the context path of the service.
    pub moved: bool,
    /// The content. It is not written with 304.
    pub body: Bytes,
}

/// The media type of a body.
#[derive(Clone, Copy, Debug, PartialEq, Eq)]
pub enum Kind {
    /// `application/json`.
    Json,
    /// `application/problem+json` (RFC 7807).
    Problem,
    /// `text/calendar` in UTF-8 (RFC 5545).
    Calendar,
    /// `application/tzif` (RFC 9636).
    Tzif,
    /// `application/calendar+json` (RFC 7265).
    CalendarJson,
}
