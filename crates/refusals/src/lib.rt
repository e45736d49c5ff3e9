// Why a call is refused, and why the guard stops: each with its number (SPECIFICATION 7.1, 5.10).
#![tactic(auto)]

ghost use Rattle.std.specs.Prelude.{◌≡◌};
ghost use Rattle.refusals.specs.Numbers.{number_of, reason_number};

// The numbers are Linux's (SPECIFICATION 1.6).
#[derive(Clone, Copy, PartialEq, Eq)]
pub enum Refusal {
    NotFound = 2,
    Stopped = 5,
    BadHandle = 9,
    TooManyMaps = 12,
    Denied = 13,
    Busy = 16,
    Exists = 17,
    NotDirectory = 20,
    IsDirectory = 21,
    Invalid = 22,
    TooManyOpen = 24,
    FileTooLarge = 27,
    NoSpace = 28,
    ReadOnly = 30,
    ShortBuffer = 34,
    TooLong = 36,
    NotEmpty = 39,
    NotPending = 61,
    WrongDigest = 74,
    BadImage = 84,
    Pending = 114,
}

impl Refusal {
    pub fn number(self) -> u8
        ensures { result ≡ number_of self }
    {
        self as u8
    }
}

// What of a reply is wrong.
#[derive(Clone, Copy, PartialEq, Eq)]
pub enum StopReason {
    Length = 1,
    Status = 2,
    Id = 3,
    Descriptor = 4,
    Page = 5,
    Stat = 6,
    Listing = 7,
    Map = 8,
}

impl StopReason {
    pub fn number(self) -> u8
        ensures { result ≡ reason_number self }
    {
        self as u8
    }
}
