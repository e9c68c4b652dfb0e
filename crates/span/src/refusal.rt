// The refusals, by document 01's numbers. Where several apply the lowest is given, but 15 goes first and 13 last.
ghost use Rattle.std.specs.Prelude.{◌≡◌, Ok, Err};
ghost use Rattle.span.specs.Refusal.{number_of, code_of, Names};

use std::error::Error;
use std::fmt;

// Why a call does nothing. The variants stand in the order of their numbers, 1 to 15.
#[derive(Clone, Copy, Debug, PartialEq, Eq, PartialOrd, Ord, Hash)]
pub enum Refusal {
    // A chunk that no constructor makes: text that is empty, reversed or ends past 4,294,967,292; unknown of length 0; a move anchor
    // that says more. A history's delete of length 0.
    Chunk,
    // A counter below zero, or counter + length past 2,147,483,647, of an own or a real id; lamport + length past 4,294,967,295; the
    // unknown peer in a real id.
    Id,
    // One of the ids is in the list.
    IdTaken,
    // A seventeenth peer.
    Peers,
    // A counter that is not the count held for the peer.
    Counter,
    // A version that is malformed, or what names something that is not held.
    Version,
    // A version that is not closed or ends inside a delete; an own count in the context that is not the counter.
    NotClosed,
    // A position past the visible length; a slice's range that is empty, reversed, or ends past its piece.
    Range,
    // A history that holds 2,000 edits.
    Edits,
    // More than 65,536 units, or a list that exceeds its room.
    Room,
    // A count of deletes outside i16.
    Count,
    // A delta that would insert a unit without a real id.
    NoRealId,
    // A lent output that is too short.
    Output,
    // Pieces that do not join; an entry of a delta, or an old unit, that does not fit.
    Mismatch,
    // A store or a history that is not well formed.
    Store,
}

impl Refusal {
    // Document 01's number. 0 is none of them: it stands for done.
    pub fn number(self) -> u8
        ensures { result ≡ number_of self }
    {
        match self {
            Refusal::Chunk => 1,
            Refusal::Id => 2,
            Refusal::IdTaken => 3,
            Refusal::Peers => 4,
            Refusal::Counter => 5,
            Refusal::Version => 6,
            Refusal::NotClosed => 7,
            Refusal::Range => 8,
            Refusal::Edits => 9,
            Refusal::Room => 10,
            Refusal::Count => 11,
            Refusal::NoRealId => 12,
            Refusal::Output => 13,
            Refusal::Mismatch => 14,
            Refusal::Store => 15,
        }
    }
}

// The number of an outcome: 0 where it is done, and else the refusal's. What a caller in C sees, and what a program prints.
pub fn code_of(outcome: Result<(), Refusal>) -> u8
    ensures { result ≡ code_of outcome }
{
    match outcome {
        Ok(()) => 0,
        Err(refusal) => refusal.number(),
    }
}

// A number that no refusal has.
#[derive(Clone, Copy, Debug, PartialEq, Eq)]
pub struct UnknownNumber(pub u8);

impl TryFrom<u8> for Refusal {
    type Error = UnknownNumber;

    ghost try_from_gives = { Names };

    fn try_from(number: u8) -> Result<Self, UnknownNumber> {
        match number {
            1 => Ok(Refusal::Chunk),
            2 => Ok(Refusal::Id),
            3 => Ok(Refusal::IdTaken),
            4 => Ok(Refusal::Peers),
            5 => Ok(Refusal::Counter),
            6 => Ok(Refusal::Version),
            7 => Ok(Refusal::NotClosed),
            8 => Ok(Refusal::Range),
            9 => Ok(Refusal::Edits),
            10 => Ok(Refusal::Room),
            11 => Ok(Refusal::Count),
            12 => Ok(Refusal::NoRealId),
            13 => Ok(Refusal::Output),
            14 => Ok(Refusal::Mismatch),
            15 => Ok(Refusal::Store),
            _ => Err(UnknownNumber(number)),
        }
    }
}

impl fmt::Display for Refusal {
    fn fmt<W: fmt::Write>(&self, f: &mut fmt::Formatter<W>) -> fmt::Result {
        write!(f, "refusal {}", self.number())
    }
}

impl Error for Refusal {}
