// The files of cases (rust/README.md, "The files of cases"): the numbers of a line, the runs that it lends, and what it has beside ours.
#![tactic(auto)]

ghost use Rattle.std.specs.Prelude.{◌≡◌, ◌≤◌, ◌<◌, ◌==◌, ◌⊎◌, length, IsTrue, IfSome, MatchOption, false};
ghost use Rattle.cases.specs.Functions.{number_of, Names};
ghost use Rattle.cases.specs.Lines.{StartsWith, StartsRun};

use std::fmt;
use text::Radix;

// ---- the items of runs

pub trait Item: Copy {
    // What an output is lent full of, so that zeroing is seen.
    const SOIL: Self;

    // An item and the number that a line has for it.
    fn from_number(number: u64) -> Option<Self>;

    fn number(self) -> u64;
}

impl Item for u8 {
    const SOIL: u8 = 0xa5;

    fn from_number(number: u64) -> Option<u8> {
        u8::try_from(number).ok()
    }

    fn number(self) -> u64 {
        u64::from(self)
    }
}

impl Item for u64 {
    const SOIL: u64 = 0xa5a5a5a5a5a5a5a5;

    fn from_number(number: u64) -> Option<u64> {
        Some(number)
    }

    fn number(self) -> u64 {
        self
    }
}

// A signed number as its 32 bits.
impl Item for i32 {
    const SOIL: i32 = -0x5a5a5a5b;

    fn from_number(number: u64) -> Option<i32> {
        Some(u32::try_from(number).ok()?.cast_signed())
    }

    fn number(self) -> u64 {
        u64::from(self.cast_unsigned())
    }
}

// ---- a line: numbers, after each a space or the line feed

// What is left of a line.
#[derive(Clone, Copy)]
pub struct Line<'a> {
    rest: &'a [u8],
}

// How long a run is, and how many of its items are given; after these come copies of the last of them, or of 0 where none is.
#[derive(Clone, Copy)]
struct Head {
    length: usize,
    given: usize,
}

// No run is longer.
const MOST: usize = 1343652;

// How much room a line says for a block.
#[derive(Clone, Copy, Debug, PartialEq, Eq)]
pub struct Rooms {
    pub codes: usize,
    pub values: usize,
    pub records: usize,
}

impl<'a> Line<'a> {
    pub fn new(text: &'a [u8]) -> Line<'a>
        ensures { result.rest.now ≡ text.now }
    {
        Line { rest: text }
    }

    pub fn is_read(&self) -> bool
        ensures { result ≡ (length self.now.rest.now == 0) }
    {
        self.rest.is_empty()
    }

    pub fn number(&mut self) -> Option<u64>
        ensures { IfSome result (λ n. StartsWith self.old.rest.now n self.new.rest.now) }
    {
        let end = self.rest.iter().position(|b| matches!(b, b' ' | b'\n'))?;
        let (word, rest) = self.rest.split_at(end);
        self.rest = &rest[1..];
        text::number(word, Radix::Hex).ok()
    }

    pub fn index(&mut self) -> Option<usize>
        ensures { IfSome result (λ n. StartsWith self.old.rest.now n self.new.rest.now) }
    {
        Some(self.number()? as usize)
    }

    // Past so many numbers.
    fn pass(&mut self, n: usize) -> Option<()> {
        for _ in 0..n {
            self.number()?;
        }
        Some(())
    }

    fn head(&mut self, most: usize) -> Option<Head>
        ensures { IfSome result (λ h. (h.length ≤ most) × (h.given ≤ h.length) × StartsRun self.old.rest.now h.length) }
    {
        let length = self.index()?;
        let given = self.index()?;
        if most < length || length < given {
            return None;
        }
        Some(Head { length, given })
    }

    // A run that is lent, at the front of the room for it.
    pub fn run<'b, T: Item>(&mut self, room: &'b mut [T]) -> Option<&'b mut [T]>
        ensures bound { IfSome result (λ run. length run.now ≤ length room.old) }
        ensures told { IfSome result (λ run. StartsRun self.old.rest.now (length run.now)) }
    {
        let Head { length, given } = self.head(room.len())?;
        let mut last = T::from_number(0)?;
        let run = &mut room[..length];
        for (i, item) in run.iter_mut().enumerate() {
            if i < given {
                last = T::from_number(self.number()?)?;
            }
            *item = last;
        }
        Some(run)
    }

    // As much room for an output as the line says.
    pub fn room<'b, T: Item>(&mut self, room: &'b mut [T]) -> Option<&'b mut [T]>
        ensures bound { IfSome result (λ lent. length lent.now ≤ length room.old) }
        ensures told { IfSome result (λ lent. StartsWith self.old.rest.now (length lent.now) self.new.rest.now) }
    {
        let n = self.index()?;
        let lent = room.get_mut(..n)?;
        for item in lent.iter_mut() {
            *item = T::SOIL;
        }
        Some(lent)
    }

    // How much room that is, for who has none at hand: at most so much.
    pub fn lent(&mut self, most: usize) -> Option<usize>
        ensures bound { IfSome result (λ lent. lent ≤ most) }
        ensures told { IfSome result (λ lent. StartsWith self.old.rest.now lent self.new.rest.now) }
    {
        let n = self.index()?;
        if most < n {
            return None;
        }
        Some(n)
    }

    // The same of a block: at most so many operations, and their records.
    fn rooms(&mut self, most: usize) -> Option<Rooms>
        ensures { IfSome result (λ r. (r.codes ≤ most) × (r.values ≤ most) × (r.records ≤ 1343652)) }
    {
        Some(Rooms {
            codes: self.lent(most)?,
            values: self.lent(most)?,
            records: self.lent(MOST)?,
        })
    }

    pub fn block_room(&mut self) -> Option<Rooms>
        ensures { IfSome result (λ r. (r.codes ≤ 65536) × (r.values ≤ 65536) × (r.records ≤ 1343652)) }
    {
        self.rooms(65536)
    }

    // Working room for one of two blocks that are compared: no case of theirs needs more.
    pub fn pair_room(&mut self) -> Option<Rooms>
        ensures { IfSome result (λ r. (r.codes ≤ 16384) × (r.values ≤ 16384) × (r.records ≤ 1343652)) }
    {
        self.rooms(16384)
    }
}

// ---- what the file has, beside ours

#[derive(Clone, Copy, Debug, PartialEq, Eq)]
pub enum Function {
    Build,
    Encode,
    Decode,
    Structure,
    Padding,
    Commitment,
    RawTable,
    PaddedTable,
    PaddedIndex,
    RawIndex,
    Group,
    NextGroup,
    DecodeStrict,
    Compare,
}

impl Function {
    // In the order of their numbers in a file, which begin at 1.
    pub const ALL: [Function; 14] = [
        Function::Build,
        Function::Encode,
        Function::Decode,
        Function::Structure,
        Function::Padding,
        Function::Commitment,
        Function::RawTable,
        Function::PaddedTable,
        Function::PaddedIndex,
        Function::RawIndex,
        Function::Group,
        Function::NextGroup,
        Function::DecodeStrict,
        Function::Compare,
    ];

    pub fn numbered(number: u64) -> Option<Function>
        ensures { MatchOption result ((number ≡ 0) ⊎ (14 < number)) (λ function. number ≡ number_of function) }
    {
        let i = (number as usize).checked_sub(1)?;
        Function::ALL.get(i).copied()
    }
}

// Any number has one: compare is that of all that are no other's.
impl From<u64> for Function {
    ghost from_gives = { λ n function. Names n function };

    fn from(number: u64) -> Function {
        Function::numbered(number).unwrap_or(Function::Compare)
    }
}

impl fmt::Display for Function {
    fn fmt<W: fmt::Write>(&self, f: &mut fmt::Formatter<W>) -> fmt::Result {
        match self {
            Function::Build => write!(f, "build"),
            Function::Encode => write!(f, "encode"),
            Function::Decode => write!(f, "decode"),
            Function::Structure => write!(f, "structure"),
            Function::Padding => write!(f, "padding"),
            Function::Commitment => write!(f, "commitment"),
            Function::RawTable => write!(f, "raw table"),
            Function::PaddedTable => write!(f, "padded table"),
            Function::PaddedIndex => write!(f, "padded index"),
            Function::RawIndex => write!(f, "raw index"),
            Function::Group => write!(f, "group"),
            Function::NextGroup => write!(f, "next group"),
            Function::DecodeStrict => write!(f, "decode strict"),
            Function::Compare => write!(f, "compare"),
        }
    }
}

// The function of any number.
pub fn say_function(rt: HostRuntime, what: u64) {
    console::print_pieces(rt, Function::from(what));
}

// A case: which line of the file it is, its function and table, what is left of its line, and whether all was alike so far.
#[derive(Clone, Copy)]
pub struct Case<'a> {
    pub rt: HostRuntime,
    pub place: usize,
    pub function: Function,
    pub table: &'a [u8],
    pub line: Line<'a>,
    pub same: bool,
}

impl Case<'_> {
    // A line about what differs, and how.
    fn differs<D: fmt::Display + Drop>(&mut self, what: &[u8], how: D)
        ensures { self.new.same ≡ false }
    {
        self.same = false;
        let Case {
            place,
            function,
            ..
        } = self;
        console::print_pieces(self.rt, format_args!("  line {place}, {function}: "));
        console::print_bytes(self.rt, what);
        console::print_pieces(self.rt, how);
    }

    fn hold(&mut self, what: &[u8], ours: usize, theirs: usize) {
        if ours != theirs {
            self.differs(what, format_args!(" is {ours}, in the file {theirs}\n"));
        }
    }

    // One number of the reply.
    pub fn is(&mut self, what: &[u8], ours: usize) -> Option<()> {
        let theirs = self.line.index()?;
        self.hold(what, ours, theirs);
        Some(())
    }

    // The number of refusal, as a reply to C has it, and its place, which the original does not always name: the text has
    // usize::MAX for it.
    pub fn refusal(&mut self, number: u8, place: usize) -> Option<()> {
        self.is(b"number", usize::from(number))?;
        let theirs = self.line.index()?;
        if theirs != usize::MAX {
            self.hold(b"place", place, theirs);
        }
        Some(())
    }

    // The first item of ours that is not the file's, where so many are given; the line goes on behind those that it was held against.
    fn first_apart<T: Item>(&mut self, given: usize, ours: &[T]) -> Option<Option<usize>>
        ensures alike { self.new.same ≡ self.old.same }
        ensures within { IfSome result (λ first. IfSome first (λ i. i < length ours.now)) }
    {
        let mut theirs = 0;
        for (i, item) in ours.iter().enumerate() {
            if i < given {
                theirs = self.line.number()?;
            }
            if item.number() != theirs {
                return Some(Some(i));
            }
        }
        Some(None)
    }

    // A run of outputs. It is gone over as far as ours reaches, and the line as far as items are given: the length that the line says may be any.
    pub fn run_is<T: Item>(&mut self, what: &[u8], ours: &[T]) -> Option<()>
        ensures { IfSome result (λ _. IsTrue self.new.same → IsTrue self.old.same × StartsRun self.old.line.rest.now (length ours.now)) }
    {
        let Head { length, given } = self.line.head(MOST)?;
        let first = self.first_apart(given, ours)?;
        let held = first.map_or(ours.len(), |i| i + 1);
        self.line.pass(given.saturating_sub(held))?;
        if ours.len() != length {
            self.differs(what, " are not so many as in the file\n");
        } else if let Some(i) = first {
            self.differs(what, format_args!(" differ first at {i}\n"));
        }
        Some(())
    }

    // How a block was made.
    pub fn made(
        &mut self,
        number: u8,
        place: usize,
        batches: usize,
        operations: usize,
    ) -> Option<()> {
        self.refusal(number, place)?;
        self.is(b"batches", batches)?;
        self.is(b"operations", operations)
    }

    pub fn block_is(&mut self, codes: &[u8], values: &[u64], records: &[u8]) -> Option<()> {
        self.run_is(b"opcodes", codes)?;
        self.run_is(b"values", values)?;
        self.run_is(b"records", records)
    }
}
