// Why a call is refused, and the numbers that document 01 gives these reasons.
ghost use Rattle.std.specs.Prelude.{◌≡◌};
ghost use Rattle.checks.specs.Refusals.{refusal_number, answer_number};

// Document 01's "Refused" and request K2's 21, each with its number.
#[derive(Clone, Copy, Debug, PartialEq, Eq)]
pub enum Refusal {
    // The number names no mode.
    NoMode = 1,
    // The key has not the length that is asked for.
    KeyLength = 2,
    // A part of a buffer ends past the buffer.
    PastEnd = 3,
    // The tag has another length than its ticket's.
    TagLength = 4,
    // The short function's message is over 16 bytes.
    MessageLength = 5,
    // The short function's output is not of 1 to 16 bytes, or its buffer has another length.
    OutputLength = 6,
    // The row is not of five words.
    RowLength = 7,
    // The ticket was never issued.
    NeverIssued = 11,
    // The ticket is closed.
    Closed = 12,
    // Sixteen tickets are open.
    NoPlace = 13,
    // All ticket numbers are issued.
    AllIssued = 14,
    // Feeding has ended.
    FeedingEnded = 15,
    // The feed would pass what a ticket may be fed.
    FeedLimit = 16,
    // The draw would pass what its mode gives.
    DrawLimit = 17,
    // The ticket's mode has no tags.
    NoTags = 18,
    // Tags of that length are not given.
    NamedTagLength = 21,
}

impl Refusal {
    // Its number. A method, since `u32::from` would not say that it is document 01's.
    pub fn number(self) -> u32
        ensures { result ≡ refusal_number self }
    {
        self as u32
    }
}

// What C is answered: 0, or the number of the refusal.
pub fn number_of<T: Drop>(answer: Result<T, Refusal>) -> u32
    ensures { result ≡ answer_number answer }
{
    match answer {
        Ok(_) => 0,
        Err(refusal) => refusal.number(),
    }
}
