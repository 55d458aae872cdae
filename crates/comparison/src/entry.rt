// An entry of the report: what compare writes of each difference, and how it is read again.
ghost use Rattle.std.specs.Prelude.{pos};
ghost use Rattle.comparison.specs.Entries.{number_of, side_number, four_numbers, Reads};

use std::fmt;

// What an entry is about: its first number. Five are about a batch that both blocks have, one about a batch that one lacks, the others about totals.
#[derive(Clone, Copy, Debug, PartialEq, Eq)]
pub enum Kind {
    Number = 1,
    Flag = 2,
    Length = 3,
    Operation = 4,
    Count = 5,
    Missing = 6,
    Batches = 7,
    Padded = 8,
    Raw = 9,
    Paddings = 10,
}

// A block's side: what a missing batch has as its place.
#[derive(Clone, Copy, Debug, PartialEq, Eq)]
pub enum Side {
    First = 1,
    Second = 2,
}

// What a kind does not tell is 0.
#[derive(Clone, Copy, Debug, PartialEq, Eq)]
pub struct Entry {
    pub kind: Kind,
    pub batch: usize,
    pub place: usize,
    pub difference: i32,
}

// Numbers that are no entry's.
#[derive(Clone, Copy, Debug, PartialEq, Eq)]
pub struct NoEntry;

impl TryFrom<i32> for Kind {
    type Error = NoEntry;

    ghost try_from_gives = { Reads (λ kind. pos (number_of kind)) };

    fn try_from(number: i32) -> Result<Kind, NoEntry> {
        match number {
            1 => Ok(Kind::Number),
            2 => Ok(Kind::Flag),
            3 => Ok(Kind::Length),
            4 => Ok(Kind::Operation),
            5 => Ok(Kind::Count),
            6 => Ok(Kind::Missing),
            7 => Ok(Kind::Batches),
            8 => Ok(Kind::Padded),
            9 => Ok(Kind::Raw),
            10 => Ok(Kind::Paddings),
            _ => Err(NoEntry),
        }
    }
}

impl TryFrom<usize> for Side {
    type Error = NoEntry;

    ghost try_from_gives = { Reads side_number };

    fn try_from(number: usize) -> Result<Side, NoEntry> {
        match number {
            1 => Ok(Side::First),
            2 => Ok(Side::Second),
            _ => Err(NoEntry),
        }
    }
}

impl fmt::Display for Side {
    fn fmt<W: fmt::Write>(&self, f: &mut fmt::Formatter<W>) -> fmt::Result {
        f.write_str(match self {
            Side::First => "first",
            Side::Second => "second",
        })
    }
}

impl TryFrom<&[i32]> for Entry {
    type Error = NoEntry;

    ghost try_from_gives = { λ s r. Reads four_numbers s.now r };

    fn try_from(numbers: &[i32]) -> Result<Entry, NoEntry> {
        let [kind, batch, place, difference] = *numbers else {
            return Err(NoEntry);
        };
        let kind = Kind::try_from(kind)?;
        let (Ok(batch), Ok(place)) = (usize::try_from(batch), usize::try_from(place)) else {
            return Err(NoEntry);
        };
        Ok(Entry {
            kind,
            batch,
            place,
            difference,
        })
    }
}
