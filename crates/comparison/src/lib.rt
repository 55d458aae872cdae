// The compare tool (M-105): how two blocks differ. Both are decoded into lent rooms and held against each other batch by batch; what differs first, of
// each kind, goes into a lent report, four signed 32-bit numbers for each entry. The rooms are empty again at the end.
#![tactic(auto)]

ghost use Rattle.std.specs.Prelude.{◌≡◌, ◌+◌, ◌-◌, ◌*◌, ◌/◌, ◌≤◌, ◌<◌, ◌^◌, [], ◌∷◌, length, IfSome, slice_index};
ghost use Rattle.std.specs.Int.{to_le_bytes, w64};
ghost use Rattle.std.proofs.lemmas.List.Edits.{sets};
ghost use Rattle.rules.specs.Lists.{in_row};
ghost use Rattle.rules.specs.Record.{part, record_size, record_at, no_block};
ghost use Rattle.rules.specs.Compare.{same_op, paddings_in, total_apart, blocks_apart, entry_numbers};
ghost use Rattle.rules.specs.Functions.{arena, block_in, room_in, filled, decoded, compared};
ghost use Rattle.op_batch.specs.RecordAt.{recorded};
ghost use Rattle.checks.specs.Batch.{Fits, Lies};
ghost use Rattle.comparison.specs.Replies.{mark_of, refusal_of, side, room_for, Compares};
ghost use Rattle.comparison.specs.Entries.{number_of, side_number, entry_of};
ghost use Rattle.comparison.specs.Model.{FirstApart, apart_from, whole_at, apart_of, Near, noted, entries_for, common_from, missing_from, totals_of, totals_for, Few, Adds, against_first, Written, Taken, front, Begins, headless};

mod entry;

use decoder::Decoded;
pub use entry::{Entry, Kind, NoEntry, Side};
use op_batch::{RECORD, RecordAt};
use refusal::Refusal;

// Why two blocks are not compared: one of them is refused, or the report is too short.
#[derive(Clone, Copy, Debug, PartialEq, Eq)]
pub enum Refused {
    First(Refusal),
    Second(Refusal),
    Report,
}

impl Refused {
    // 1 for the first block, 2 for the second, 0 for the report.
    pub fn mark(self) -> u8
        ensures { result ≡ mark_of self }
    {
        match self {
            Refused::First(_) => 1,
            Refused::Second(_) => 2,
            Refused::Report => 0,
        }
    }

    pub fn refusal(self) -> Refusal
        ensures { result ≡ refusal_of self }
    {
        match self {
            Refused::First(refusal) | Refused::Second(refusal) => refusal,
            Refused::Report => Refusal::NoRoom,
        }
    }
}

// A block that decode took, as it lies in its room: its runs and not checks' `Arena`, since each method goes by one or two of them.
#[derive(Clone, Copy)]
struct Block<'a> {
    codes: &'a [u8],
    values: &'a [u64],
    records: &'a [u8],
    ghost even: { length codes.now ≡ length values.now },
    ghost taken: { Taken (arena codes.now values.now records.now) },
}

// What is found of a batch that both blocks have: the first group whose number differs, whose flag does, whose length does, the first operation, and whether
// the group counts differ.
#[derive(Clone, Copy)]
struct Apart {
    number: Option<usize>,
    flag: Option<usize>,
    length: Option<usize>,
    operation: Option<usize>,
    count: bool,
}

// A block's totals.
#[derive(Clone, Copy)]
struct Totals {
    batches: usize,
    padded: usize,
    raw: usize,
    paddings: usize,
}

// A lent report and how many entries it has, counting those for which it has no room. That they are fewer than 2^20 is asked by each method that adds some: as
// a fact of the report it would be owed after each entry, and be asked all the same.
#[derive(Drop)]
struct Report<'a> {
    numbers: &'a mut [i32],
    entries: usize,
}

// ---- where two first differ

// The first of eight bytes: those of most batches are the same, which is seen at once.
fn byte_apart(x: u64, y: u64) -> Option<usize>
    ensures { FirstApart 8 (λ i. slice_index (to_le_bytes w64 x) i ≡ slice_index (to_le_bytes w64 y) i) result }
{
    if x == y {
        None
    } else {
        bytes_apart(x.to_le_bytes(), y.to_le_bytes())
    }
}

fn bytes_apart(x: [u8; 8], y: [u8; 8]) -> Option<usize>
    ensures { FirstApart 8 (λ i. slice_index x i ≡ slice_index y i) result }
{
    (0..8).position(|i| x[i] != y[i])
}

fn numbers_apart(first: RecordAt<'_>, second: RecordAt<'_>) -> Option<usize>
    ensures { FirstApart 8 (λ g. slice_index (recorded first.entry).numbers g ≡ slice_index (recorded second.entry).numbers g) result }
{
    (0..8).position(|g| first.number(g) != second.number(g))
}

impl<'a> Block<'a> {
    ghost use Rattle.comparison.specs.Block.{lying, ops_in};

    // What a room begins with.
    fn at_front(codes: &'a [u8], values: &'a [u64], records: &'a [u8], made: Decoded) -> Block<'a>
        requires { Begins (arena codes.now values.now records.now) made.operations made.batches }
        ensures { lying result ≡ front made.operations made.batches (arena codes.now values.now records.now) }
    {
        Block {
            codes: &codes[..made.operations],
            values: &values[..made.operations],
            records: &records[..RECORD * made.batches],
        }
    }

    // n operations of each, from two places on.
    fn ops_apart(&self, from: usize, other: &Block<'_>, at: usize, n: usize) -> Option<usize>
        requires { (from + n ≤ length self.now.codes.now) × (at + n ≤ length other.now.codes.now) }
        ensures { result ≡ apart_from same_op 0 (part n (ops_in self.now) from) (part n (ops_in other.now) at) }
    {
        let mine = self.codes[from..from + n]
            .iter()
            .zip(&self.values[from..from + n]);
        let theirs = other.codes[at..at + n]
            .iter()
            .zip(&other.values[at..at + n]);
        mine.zip(theirs).position(|(x, y)| x != y)
    }

    // The b-th batches, whose operations begin at two places.
    fn batch_apart(&self, from: usize, other: &Block<'_>, at: usize, b: usize) -> Apart
        requires { Lies (lying self.now) b from × Lies (lying other.now) b at }
        ensures { result ≡ apart_of (whole_at (lying self.now) b from) (whole_at (lying other.now) b at) }
    {
        let x = RecordAt {
            records: self.records,
            b,
        };
        let y = RecordAt {
            records: other.records,
            b,
        };
        let both = x.len().min(y.len());
        Apart {
            number: numbers_apart(x, y),
            flag: byte_apart(x.flags(), y.flags()),
            length: byte_apart(x.sizes(), y.sizes()),
            operation: self.ops_apart(from, other, at, both),
            count: x.count() != y.count(),
        }
    }

    // The flags under the count of the b-th batch: as far as one is set.
    fn paddings(&self, b: usize) -> usize
        requires { b < length self.now.records.now / record_size }
        ensures { (result ≡ paddings_in (record_at self.now.records.now b)) × (result ≤ 8) }
    {
        let batch = RecordAt {
            records: self.records,
            b,
        };
        let mut left = batch.flags(); // those of the groups that are still to come
        let mut n = 0;
        for _g in 0..batch.count() {
            if left == 0 {
                return n;
            }
            n += (left % 256) as usize;
            left /= 256;
        }
        n
    }

    fn totals(&self) -> Totals
        ensures { (result ≡ totals_of (block_in (lying self.now))) × Few result }
    {
        let batches = self.records.len() / RECORD;
        let padded = self.codes.len();
        let flagged = (0..batches).map(|b| self.paddings(b)).sum();
        Totals {
            batches,
            padded,
            raw: padded - flagged,
            paddings: flagged,
        }
    }
}

// ---- entries

impl Report<'_> {
    ghost use Rattle.comparison.specs.Block.{lying};

    fn put(&mut self, entry: Entry)
        requires { (self.old.entries < 2 ^ 20) × (entry.batch < 2 ^ 20) × (entry.place < 2 ^ 20) }
        ensures { Adds (entry_of entry ∷ []) self.old self.new }
    {
        // One by one, since of an entry that meets the run's end a part is stored, and a run of structs has no covered proof.
        let at = 4 * self.entries;
        word::store(self.numbers, at, entry.kind as i32);
        word::store(self.numbers, at + 1, entry.batch as i32);
        word::store(self.numbers, at + 2, entry.place as i32);
        word::store(self.numbers, at + 3, entry.difference);
        self.entries += 1;
    }

    // A place where two differ, if there is one.
    fn note(&mut self, kind: Kind, batch: usize, place: Option<usize>)
        requires { (self.old.entries < 2 ^ 20) × (batch < 2 ^ 20) × IfSome place (λ i. i < 2 ^ 20) }
        ensures { Adds (noted (number_of kind) batch place) self.old self.new × (self.new.entries ≤ self.old.entries + 1) }
    {
        if let Some(place) = place {
            self.put(Entry {
                kind,
                batch,
                place,
                difference: 0,
            });
        }
    }

    fn batch(&mut self, b: usize, apart: Apart)
        requires { (self.old.entries + 5 ≤ 2 ^ 20) × (b < 2 ^ 20) × Near apart }
        ensures { Adds (entries_for b apart) self.old self.new × (self.new.entries ≤ self.old.entries + 5) }
    {
        self.note(Kind::Number, b, apart.number);
        self.note(Kind::Flag, b, apart.flag);
        self.note(Kind::Length, b, apart.length);
        self.note(Kind::Operation, b, apart.operation);
        if apart.count {
            self.put(Entry {
                kind: Kind::Count,
                batch: b,
                place: 0,
                difference: 0,
            });
        }
    }

    // The first k batches, which both blocks have.
    fn batches(&mut self, first: &Block<'_>, second: &Block<'_>, k: usize)
        requires { (self.old.entries ≡ 0) × (record_size * k ≤ length first.now.records.now) × (record_size * k ≤ length second.now.records.now) }
        ensures { Adds (common_from k (lying first.now) 0 (lying second.now) 0 0) self.old self.new × (self.new.entries ≤ 5 * k) }
    {
        let mut from = 0;
        let mut at = 0;
        for b in 0..k {
            self.batch(b, first.batch_apart(from, second, at, b));
            from += RecordAt {
                records: first.records,
                b,
            }
            .len();
            at += RecordAt {
                records: second.records,
                b,
            }
            .len();
        }
    }

    // The batches from one up to another, which a side lacks.
    fn missing(&mut self, from: usize, to: usize, side: Side)
        requires { (from ≤ to) × (self.old.entries + to < 2 ^ 20) }
        ensures { Adds (missing_from (to - from) from (side_number side)) self.old self.new × (self.new.entries ≤ self.old.entries + (to - from)) }
    {
        for b in from..to {
            self.put(Entry {
                kind: Kind::Missing,
                batch: b,
                place: side as usize,
                difference: 0,
            });
        }
    }

    // Second minus first, negative where the second is smaller, where they differ.
    fn total(&mut self, kind: Kind, first: usize, second: usize)
        requires { (self.old.entries < 2 ^ 20) × (first < 2 ^ 20) × (second < 2 ^ 20) }
        ensures { Adds (total_apart (number_of kind) first second) self.old self.new × (self.new.entries ≤ self.old.entries + 1) }
    {
        if first != second {
            self.put(Entry {
                kind,
                batch: 0,
                place: 0,
                difference: second as i32 - first as i32,
            });
        }
    }

    fn totals(&mut self, first: Totals, second: Totals)
        requires { (self.old.entries + 4 ≤ 2 ^ 20) × Few first × Few second }
        ensures { Adds (totals_for first second) self.old self.new × (self.new.entries ≤ self.old.entries + 4) }
    {
        self.total(Kind::Batches, first.batches, second.batches);
        self.total(Kind::Padded, first.padded, second.padded);
        self.total(Kind::Raw, first.raw, second.raw);
        self.total(Kind::Paddings, first.paddings, second.paddings);
    }

    // Every entry, from the first on.
    fn blocks(&mut self, first: &Block<'_>, second: &Block<'_>)
        requires { self.old.entries ≡ 0 }
        ensures { Adds (blocks_apart (block_in (lying first.now)) (block_in (lying second.now))) self.old self.new × (self.new.entries < 2 ^ 20) }
    {
        let x = first.totals();
        let y = second.totals();
        let both = x.batches.min(y.batches);
        self.batches(first, second, both);
        self.missing(both, x.batches, Side::Second);
        self.missing(both, y.batches, Side::First);
        self.totals(x, y);
    }
}

// ---- two blocks

// Zeros over the first operations and records: with decode's zeros behind them the room is empty.
fn empty(out_codes: &mut [u8], out_values: &mut [u64], records: &mut [u8], made: Decoded)
    requires { (made.operations ≤ length out_codes.old) × (made.operations ≤ length out_values.old) × (record_size * made.batches ≤ length records.old) }
    ensures { arena out_codes.new out_values.new records.new ≡ headless made.operations made.batches (arena out_codes.old out_values.old records.old) }
{
    out_codes[..made.operations].fill(0);
    out_values[..made.operations].fill(0);
    records[..RECORD * made.batches].fill(0);
}

impl Block<'_> {
    ghost use Rattle.comparison.specs.Block.{lying, apart_in};

    // Every entry, from the first on, as far as the report has room, and how many there are.
    fn report(&self, other: &Block<'_>, report: &mut [i32]) -> usize
        ensures count { (result ≡ length (apart_in self.now other.now)) × (result < 2 ^ 20) }
        ensures run { report.new ≡ sets report.old 0 (in_row entry_numbers (apart_in self.now other.now)) }
    {
        let mut out = Report {
            numbers: report,
            entries: 0,
        };
        out.blocks(self, other);
        out.entries
    }

    // Another block, which is to be read, against this one: how many entries. What the report has after these is not said, nor what a refusal leaves in it.
    fn compare(
        &self,
        table: &[u8],
        s: &[u8],
        at: usize,
        out_codes: &mut [u8],
        out_values: &mut [u64],
        records: &mut [u8],
        report: &mut [i32],
    ) -> Result<usize, Refused>
        ensures written { Written (against_first (room_for report.old) (block_in (lying self.now)) (decoded 8 table.now s.now at (room_in (arena out_codes.old out_values.old records.old)))) report.new result }
        ensures room { arena out_codes.new out_values.new records.new ≡ filled (arena out_codes.old out_values.old records.old) no_block }
    {
        let made = decoder::decode(table, s, at, out_codes, out_values, records).map_err(
            Refused::Second,
        )?;
        let block = Block::at_front(out_codes, out_values, records, made);
        let entries = self.report(&block, report);
        empty(out_codes, out_values, records, made);
        if report.len() / 4 < entries {
            return Err(Refused::Report);
        }
        Ok(entries)
    }
}

// How the block in `second` from `second_at` on differs from the one in `first` from `first_at` on, each with its table and its working room. The rooms
// end zeroed. The report has the entries, then zeros; zeros alone where a block is refused or the report is too short.
// The runs come one by one, as the C interface lends them.
pub fn compare(
    first_table: &[u8],
    first: &[u8],
    first_at: usize,
    second_table: &[u8],
    second: &[u8],
    second_at: usize,
    first_codes: &mut [u8],
    first_values: &mut [u64],
    first_records: &mut [u8],
    second_codes: &mut [u8],
    second_values: &mut [u64],
    second_records: &mut [u8],
    report: &mut [i32],
) -> Result<usize, Refused>
    ensures { Compares (compared 8 (side first_table.now first.now first_at (arena first_codes.old first_values.old first_records.old)) (side second_table.now second.now second_at (arena second_codes.old second_values.old second_records.old)) (room_for report.old)) (arena first_codes.old first_values.old first_records.old) (arena first_codes.new first_values.new first_records.new) (arena second_codes.old second_values.old second_records.old) (arena second_codes.new second_values.new second_records.new) report.old report.new result }
{
    let made = match decoder::decode(
        first_table,
        first,
        first_at,
        first_codes,
        first_values,
        first_records,
    ) {
        Ok(made) => made,
        Err(refusal) => {
            decoder::clear_after(second_codes, second_values, second_records, 0, 0);
            word::zero_after(report, 0);
            return Err(Refused::First(refusal));
        }
    };
    let block = Block::at_front(first_codes, first_values, first_records, made);
    let r = block.compare(
        second_table,
        second,
        second_at,
        second_codes,
        second_values,
        second_records,
        report,
    );
    empty(first_codes, first_values, first_records, made);
    word::zero_after(report, 4 * r.unwrap_or(0));
    r
}
