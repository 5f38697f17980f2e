ghost use Rattle.std.specs.Prelude.{◌≡◌};
ghost use Rattle.json_forms.specs.ProblemDocument.{status_of, title_of, type_of};

/// Why a request is refused (RFC 7808, section 5).
#[derive(Clone, Copy, Debug, PartialEq, Eq)]
pub enum Problem {
    InvalidAction,
    InvalidChangedsince,
    TzidNotFound,
    InvalidFormat,
    InvalidStart,
    InvalidEnd,
    InvalidPattern,
}

impl Problem {
    /// The HTTP status of the reply (RFC 9110, section 15).
    pub fn status(self) -> u16
        ensures { result ≡ status_of self }
    {
        match self {
            Problem::TzidNotFound => 404,
            Problem::InvalidFormat => 406,
            _ => 400,
        }
    }

    /// The title, for human readers.
    pub(crate) fn title(self) -> &'static str
        ensures { result.now ≡ title_of self }
    {
        match self {
            Problem::InvalidAction => "Unknown action",
            Problem::InvalidChangedsince => "Unknown synchronization token",
            Problem::TzidNotFound => "Unknown time zone identifier",
            Problem::InvalidFormat => "No acceptable format",
            Problem::InvalidStart => "Invalid start",
            Problem::InvalidEnd => "Invalid end",
            Problem::InvalidPattern => "Invalid pattern",
        }
    }

    /// The URN that identifies the problem (RFC 7808, section 10.4).
    pub(crate) fn urn(self) -> &'static str
        ensures { result.now ≡ type_of self }
    {
        match self {
            Problem::InvalidAction => "urn:ietf:params:tzdist:error:invalid-action",
            Problem::InvalidChangedsince => "urn:ietf:params:tzdist:error:invalid-changedsince",
            Problem::TzidNotFound => "urn:ietf:params:tzdist:error:tzid-not-found",
            Problem::InvalidFormat => "urn:ietf:params:tzdist:error:invalid-format",
            Problem::InvalidStart => "urn:ietf:params:tzdist:error:invalid-start",
            Problem::InvalidEnd => "urn:ietf:params:tzdist:error:invalid-end",
            Problem::InvalidPattern => "urn:ietf:params:tzdist:error:invalid-pattern",
        }
    }
}
