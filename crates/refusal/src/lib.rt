// Refusals (document 01, "Numbers of refusal"): why, and at which byte, operation or batch.
#![tactic(auto)]

ghost use Rattle.std.specs.Prelude.{◌≡◌};
ghost use Rattle.refusal.specs.Told.{number_of, place_of};

use std::fmt;

// By name, in the order of their numbers: 1 to 16 of document 01, 17 of M-101, 18 of M-107. A place counts from 0 and names the first at fault.
#[derive(Clone, Copy, Debug, PartialEq, Eq)]
pub enum Refusal {
    PastEnd,
    CutShort { byte: usize },
    OverLimit,
    Unassigned { operation: usize },
    TooManyBatches,
    BadNibble { batch: usize },
    PastOperations { batch: usize },
    NoSlot { batch: usize },
    SlotTaken { batch: usize },
    BadPadding { batch: usize },
    LeftOver,
    EmptyList,
    NoRoom,
    BadTable,
    BadStructure { batch: usize },
    BadCommitment { batch: usize },
    BadValue { operation: usize },
    Unfinished { batch: usize },
}

impl Refusal {
    pub fn number(self) -> u8
        ensures { result ≡ number_of self }
    {
        match self {
            Refusal::PastEnd => 1,
            Refusal::CutShort { .. } => 2,
            Refusal::OverLimit => 3,
            Refusal::Unassigned { .. } => 4,
            Refusal::TooManyBatches => 5,
            Refusal::BadNibble { .. } => 6,
            Refusal::PastOperations { .. } => 7,
            Refusal::NoSlot { .. } => 8,
            Refusal::SlotTaken { .. } => 9,
            Refusal::BadPadding { .. } => 10,
            Refusal::LeftOver => 11,
            Refusal::EmptyList => 12,
            Refusal::NoRoom => 13,
            Refusal::BadTable => 14,
            Refusal::BadStructure { .. } => 15,
            Refusal::BadCommitment { .. } => 16,
            Refusal::BadValue { .. } => 17,
            Refusal::Unfinished { .. } => 18,
        }
    }

    // 0 where it names nothing.
    pub fn place(self) -> usize
        ensures { result ≡ place_of self }
    {
        match self {
            Refusal::CutShort { byte } => byte,
            Refusal::Unassigned { operation } | Refusal::BadValue { operation } => operation,
            Refusal::BadNibble { batch }
            | Refusal::PastOperations { batch }
            | Refusal::NoSlot { batch }
            | Refusal::SlotTaken { batch }
            | Refusal::BadPadding { batch }
            | Refusal::BadStructure { batch }
            | Refusal::BadCommitment { batch }
            | Refusal::Unfinished { batch } => batch,
            Refusal::PastEnd
            | Refusal::OverLimit
            | Refusal::TooManyBatches
            | Refusal::LeftOver
            | Refusal::EmptyList
            | Refusal::NoRoom
            | Refusal::BadTable => 0,
        }
    }
}

// What it means (document 01, "Numbers of refusal"), in the words of rust/oliastrofu; and which operation or batch it names.
impl fmt::Display for Refusal {
    fn fmt<W: fmt::Write>(&self, f: &mut fmt::Formatter<W>) -> fmt::Result {
        match self {
            Refusal::PastEnd => write!(f, "the place to begin at is past the end of the bytes"),
            Refusal::CutShort { .. } => write!(
                f,
                "the bytes end inside the count, an operation or the batch count"
            ),
            Refusal::OverLimit => write!(
                f,
                "a count has a wrong form or is over a limit, or lengths do not match"
            ),
            Refusal::Unassigned { operation } => write!(
                f,
                "an operation's opcode is unassigned: 128 or more, or of kind 3, operation {operation}"
            ),
            Refusal::TooManyBatches => write!(
                f,
                "more batches than the bytes that are left can hold"
            ),
            Refusal::BadNibble { batch } => write!(
                f,
                "a group's length is over 9, in batch {batch}"
            ),
            Refusal::PastOperations { batch } => write!(
                f,
                "a batch runs past the operations, in batch {batch}"
            ),
            Refusal::NoSlot { batch } => write!(
                f,
                "an immediate's slot is past the groups, in batch {batch}"
            ),
            Refusal::SlotTaken { batch } => write!(
                f,
                "an immediate's slot is a group of operations, in batch {batch}"
            ),
            Refusal::BadPadding { batch } => write!(
                f,
                "a padding flag stands where no padding is, in batch {batch}"
            ),
            Refusal::LeftOver => write!(f, "operations are left over after the last batch"),
            Refusal::EmptyList => write!(f, "the list to batch is empty"),
            Refusal::NoRoom => write!(f, "a lent output is smaller than the result needs"),
            Refusal::BadTable => write!(f, "the table is not 128 bytes or not good"),
            Refusal::BadStructure { batch } => write!(
                f,
                "the batches' structure does not hold, in batch {batch}"
            ),
            Refusal::BadCommitment { batch } => write!(
                f,
                "a group number, an immediate or an empty group's 0 differs, in batch {batch}"
            ),
            Refusal::BadValue { operation } => write!(
                f,
                "an operation's value is not below the field's size, or not 0 where its kind has none, operation {operation}"
            ),
            Refusal::Unfinished { batch } => write!(
                f,
                "the block is not finished: batching its own operations does not make it, in batch {batch}"
            ),
        }
    }
}
