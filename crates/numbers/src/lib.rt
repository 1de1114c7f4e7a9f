// Why a call is refused: a name and a cause for each number of 01's place table and of 02. A call that is not refused has number 0.
#![tactic(auto)]

ghost use Rattle.std.specs.Prelude.{◌≡◌};
ghost use Rattle.numbers.specs.Numbers.{no_row_left, refusal_number, number_of};

#[derive(Clone, Copy, Debug, PartialEq, Eq)]
pub enum Refusal {
    // 1: the length of a table is not a multiple of 4 from 4 to 1,024, or the eight lengths of a play do not add up to its words (02, ticket 6).
    TableLength = 1,
    // 2: no list of calls leaves the table.
    NotATree = 2,
    // 3: a round is 0 (not for path) or above 1,000,000.
    RoundRange = 3,
    // 4: the round to add is present.
    RoundPresent = 4,
    // 5: its parent is absent.
    ParentAbsent = 5,
    // 6: its parent is not below it.
    ParentNotBelow = 6,
    // 7: its value is not that of its parent.
    ValueDiffers = 7,
    // 8: its edge crosses a COMMITTED round.
    CrossesCommitted = 8,
    // 9: no row of the table is free, when all else is OK.
    NoFreeRow = 9,
    // 10: the round is absent.
    RoundAbsent = 10,
    // 11: the round to commit is COMMITTED.
    IsCommitted = 11,
    // 12: the round to commit is GHOST.
    IsGhost = 12,
    // 13: the slice lent for a path is too short.
    PathTooLong = 13,
    // 14: a message is under 8 bytes, or not of the length of its kind.
    MessageLength = 14,
    // 15: the kind of a message is not 1 to 4.
    MessageKind = 15,
    // 16: the presence or another field of a message is out of range.
    MessageField = 16,
    // 17: a record is not sound; of fresh, the slot, the number or N is not allowed.
    RecordUnsound = 17,
    // 18: the reply buffer is shorter than the longest message.
    ReplyTooShort = 18,
    // 19: the member does not lead the round.
    NotLeader = 19,
    // 20: the round is not above the one last led.
    NotAboveLed = 20,
    // 21: the sender does not lead the round, or is no member.
    WrongSender = 21,
    // 22: the member has moved past the round.
    MovedPast = 22,
    // 23: the member voted for another value in the round.
    AnotherValue = 23,
    // 24: the message is not awaited.
    NotAwaited = 24,
    // 25: the sender is counted already.
    CountedAlready = 25,
    // 26: the count is above 1,000, or bytes, count and kinds do not match exactly.
    ListShape = 26,
    // 27: N is not 3, 5 or 7.
    OfficeSize = 27,
    // 28: the store is not 1 to 2,000 whole rows, or there are too few answer bytes.
    StoreOrAnswers = 28,
    // 29: the member is N or above, or no such message was sent.
    NoMemberOrMessage = 29,
    // 30: a message would be sent, and the messages sent fill the store.
    StoreFull = 30,
    // 31: the two tables of a preview differ in length (02, ticket 5).
    LengthsDiffer = 31,
    // 32: the slot of a message or of an event is above 7, or a message is of another slot (02, ticket 6).
    WrongSlot = 32,
}

impl From<Refusal> for u32 {
    ghost from_gives = { λ refusal number. number ≡ refusal_number refusal };

    fn from(refusal: Refusal) -> u32 {
        refusal as u32
    }
}

// A number as play writes it, in one byte.
impl From<Refusal> for u8 {
    ghost from_gives = { λ refusal number. number ≡ refusal_number refusal };

    fn from(refusal: Refusal) -> u8 {
        refusal as u8
    }
}

// The number of an answer: 0 where the call is done.
pub fn number_of<T: Drop>(answer: Result<T, Refusal>) -> u32
    ensures { result ≡ number_of answer }
{
    match answer {
        Ok(_) => 0,
        Err(refusal) => u32::from(refusal),
    }
}

// Whether no row is left where so many of so many are used: the cause of 9 and of 30.
pub fn no_row_left(rows: usize, used: usize) -> bool
    ensures { result ≡ no_row_left rows used }
{
    rows <= used
}
