// A block's batches, printed for a person; and the byte that a refusal points to. What would be read past a run's end is 0, and sums wrap, so that no run
// can trip the printing up.
#![tactic(auto)]

ghost use Rattle.std.specs.Prelude.{◌≡◌, ◌<◌, ◌≤◌, ◌*◌, ◌/◌, length, nat_lt, if◌then◌else◌};
ghost use Rattle.rules.specs.Record.{record_at, record_size};
ghost use Rattle.op_batch.specs.OpBatch.{record_in};
ghost use Rattle.listing.specs.Records.{no_record};

use console::Count;
pub use decoder::Decoded;
use op_batch::{OpBatch, RecordAt};
use operation::Kind;
use refusal::Refusal;
use space::Room;
use std::fmt;
use std::fmt::Write;
use wire::Item;

mod lent;

pub use lent::{
    place_byte, print_at, print_block, print_line, print_numbered, print_op_at, print_refusal,
    print_totals, print_words,
};

// Each `write_..` writes to what can fail, a line at a time: a Display of a batch or a block would hold its runs.

// ---- operations

// The name of an opcode's operation, or its number where it has none.
#[derive(Clone, Copy)]
struct Name(u8);

impl fmt::Display for Name {
    fn fmt<W: fmt::Write>(&self, f: &mut fmt::Formatter<W>) -> fmt::Result {
        match vm::name(self.0) {
            Some(name) => f.write_str(name),
            None => write!(f, "op {}", self.0),
        }
    }
}

// An operation that prints itself, with its value where its kind has one; wire's `Op` is one that was read.
#[derive(Clone, Copy)]
struct Operation {
    code: u8,
    value: u64,
}

impl fmt::Display for Operation {
    fn fmt<W: fmt::Write>(&self, f: &mut fmt::Formatter<W>) -> fmt::Result {
        let name = Name(self.code);
        match vm::kind(self.code) {
            Kind::Plain => write!(f, "{name}"),
            Kind::Placed | Kind::Carried | Kind::Unassigned => write!(f, "{name}({})", self.value),
        }
    }
}

// How many bytes of a block an operation takes.
fn op_size(code: u8) -> usize {
    match vm::kind(code) {
        Kind::Plain => 1,
        Kind::Placed | Kind::Carried | Kind::Unassigned => 9,
    }
}

// ---- what a block lies in

#[derive(Clone, Copy)]
pub struct Runs<'a> {
    pub codes: &'a [u8],
    pub values: &'a [u64],
    pub records: &'a [u8],
}

impl<'a> From<&'a Room> for Runs<'a> {
    fn from(room: &'a Room) -> Runs<'a> {
        Runs {
            codes: &room.codes,
            values: &room.values,
            records: &room.records,
        }
    }
}

impl Runs<'_> {
    fn operation(self, at: usize) -> Option<Operation> {
        Some(Operation {
            code: *self.codes.get(at)?,
            value: *self.values.get(at)?,
        })
    }

    // How many bytes the n operations from `at` on take.
    fn size(self, at: usize, n: usize) -> usize {
        let codes = self.codes.get(at..).unwrap_or_default();
        codes
            .iter()
            .take(n)
            .fold(0, |sum: usize, code| sum.wrapping_add(op_size(*code)))
    }

    pub fn record(self, b: usize) -> OpBatch
        ensures { record_in result ≡ if nat_lt b (length self.entry.records.now / record_size) then record_at self.entry.records.now b else no_record }
    {
        record(self.records, b)
    }

    pub fn paddings(self, batches: usize) -> usize
        ensures { result ≤ 8 * batches }
    {
        paddings(self.records, batches)
    }
}

// The b-th record, or one of zeros where the run ends before it.
pub fn record(records: &[u8], b: usize) -> OpBatch
    ensures { record_in result ≡ if nat_lt b (length records.now / record_size) then record_at records.now b else no_record }
{
    if b < records.len() / op_batch::RECORD {
        return RecordAt { records, b }.load();
    }
    OpBatch {
        starts: [0; 9],
        flags: [0; 8],
        groups: [0; 8],
        count: 0,
    }
}

// How many paddings so many batches have.
pub fn paddings(records: &[u8], batches: usize) -> usize
    ensures { result ≤ 8 * batches }
{
    (0..batches).fold(
        0,
        |n: usize, b| n.wrapping_add(flagged(&record(records, b))),
    )
}

// How many groups of a batch are flagged. A flag at or above the count is no group's.
fn flagged(batch: &OpBatch) -> usize
    ensures { result ≤ 8 }
{
    batch
        .flags
        .iter()
        .take(usize::from(batch.count))
        .filter(|flag| **flag != 0)
        .count()
}

// The operation at a place, after a space.
pub fn write_op_at<W: Write>(page: &mut W, runs: Runs, at: usize) -> fmt::Result {
    match runs.operation(at) {
        Some(operation) => write!(page, " {operation}"),
        None => Ok(()),
    }
}

// The n operations from `at` on.
fn write_ops<W: Write>(page: &mut W, runs: Runs, at: usize, n: usize) -> fmt::Result {
    for i in 0..n {
        write_op_at(page, runs, at.wrapping_add(i))?;
    }
    Ok(())
}

// ---- batches

// Where a batch starts: its first operation, and that one's byte.
#[derive(Clone, Copy)]
struct Place {
    operation: usize,
    byte: usize,
}

impl Place {
    // Where the operations after the next n stand.
    fn after(self, runs: Runs, n: usize) -> Place {
        Place {
            operation: self.operation.wrapping_add(n),
            byte: self.byte.wrapping_add(runs.size(self.operation, n)),
        }
    }
}

// Group g of a batch.
fn write_group<W: Write>(
    page: &mut W,
    runs: Runs,
    batch: &OpBatch,
    at: Place,
    g: usize,
) -> fmt::Result
    requires { g < 8 }
{
    let number = batch.groups[g];
    let from = usize::from(batch.starts[g]);
    let to = usize::from(batch.starts[g + 1]);
    if to <= from {
        return writeln!(page, "  group {g}: value {number}");
    }
    let Place { operation, byte } = at.after(runs, from);
    write!(
        page,
        "  group {g}, number {number}, operation {operation}, byte {byte}:"
    )?;
    write_ops(page, runs, operation, to - from)?;
    let padding = if batch.flags[g] == 0 {
        ""
    } else {
        " [padding]"
    };
    writeln!(page, "{padding}")
}

// The groups of a batch.
fn write_groups<W: Write>(page: &mut W, runs: Runs, batch: &OpBatch, at: Place) -> fmt::Result {
    for g in 0..usize::from(batch.count).min(8) {
        write_group(page, runs, batch, at, g)?;
    }
    Ok(())
}

// The flags of a batch at or above its group count, which mark no padding.
fn write_flags<W: Write>(page: &mut W, batch: &OpBatch) -> fmt::Result {
    for g in usize::from(batch.count)..8 {
        if batch.flags[g] != 0 {
            writeln!(
                page,
                "  group {g}: its flag stands at or above the group count and is kept; no padding"
            )?;
        }
    }
    Ok(())
}

// The batches of a block whose first operation is at a byte.
fn write_batches<W: Write>(page: &mut W, runs: Runs, batches: usize, first: usize) -> fmt::Result {
    let mut at = Place {
        operation: 0,
        byte: first,
    };
    for b in 0..batches {
        let batch = runs.record(b);
        let n = usize::from(batch.starts[8]);
        let groups = Count::of(usize::from(batch.count), "group", "groups");
        let operations = Count::of(n, "operation", "operations");
        writeln!(page, "batch {b}: {groups}, {operations}")?;
        write_groups(page, runs, &batch, at)?;
        write_flags(page, &batch)?;
        at = at.after(runs, n);
    }
    Ok(())
}

// ---- a block

// What stands after a block: nobody asks, so many bytes, or at least so many.
#[derive(Clone, Copy)]
pub enum After {
    Unasked,
    Bytes(usize),
    AtLeast(usize),
}

impl fmt::Display for After {
    fn fmt<W: fmt::Write>(&self, f: &mut fmt::Formatter<W>) -> fmt::Result {
        match *self {
            After::Unasked => Ok(()),
            After::Bytes(n) => write!(f, ", then {}", Count::of(n, "more byte", "more bytes")),
            After::AtLeast(n) => write!(
                f,
                ", then at least {}",
                Count::of(n, "more byte", "more bytes")
            ),
        }
    }
}

// A block that stands at a byte.
#[derive(Clone, Copy)]
pub struct Block {
    pub at: usize,
    pub made: Decoded,
}

// In a line: the totals of a block, and what stands after it.
pub fn write_totals<W: Write>(
    page: &mut W,
    records: &[u8],
    made: Decoded,
    after: After,
) -> fmt::Result {
    let batches = Count::of(made.batches, "batch", "batches");
    let operations = Count::of(made.operations, "operation", "operations");
    let paddings = Count::of(paddings(records, made.batches), "padding", "paddings");
    let bytes = Count::of(made.used, "byte", "bytes");
    writeln!(page, "{batches}, {operations}, {paddings}, {bytes}{after}")
}

// The same after the byte where the block stands.
pub fn write_line<W: Write>(
    page: &mut W,
    records: &[u8],
    block: Block,
    after: After,
) -> fmt::Result {
    write!(page, "block at byte {}: ", block.at)?;
    write_totals(page, records, block.made, after)
}

// The same, and the batches.
pub fn write_block<W: Write>(page: &mut W, runs: Runs, block: Block, after: After) -> fmt::Result {
    write_line(page, runs.records, block, after)?;
    let Block { at, made } = block;
    let first = at.wrapping_add(wire::count_size(made.operations as u64));
    write_batches(page, runs, made.batches, first)
}

// ---- where a refusal of decode points to, in the bytes of a block

fn byte(s: &[u8], at: usize) -> u8 {
    s.get(at).copied().unwrap_or(0)
}

// The byte of operation i; of what comes after the operations where there are i.
fn operation_byte(s: &[u8], first: usize, i: usize) -> usize {
    (0..i).fold(first, |at: usize, _| at.wrapping_add(op_size(byte(s, at))))
}

// Four bytes, the lowest first.
fn four(s: &[u8], at: usize) -> usize {
    u32::from_le_bytes([0, 1, 2, 3].map(|k| byte(s, at.wrapping_add(k)))) as usize
}

// The byte of what a refusal names behind a block's count, by the refusal's number: an operation, a batch's flags or its nibbles, or the batch count.
fn item_byte(s: &[u8], count: Item<u64>, number: u8, place: usize) -> usize {
    let batch_count = operation_byte(s, count.next, count.item as usize);
    let nibbles = batch_count.wrapping_add(4);
    match number {
        4 | 17 => operation_byte(s, count.next, place),
        ..6 => batch_count,
        10 => nibbles
            .wrapping_add(four(s, batch_count).wrapping_mul(4))
            .wrapping_add(place),
        _ => nibbles.wrapping_add(place.wrapping_mul(4)),
    }
}

// The byte that a refusal points to, where it has one; the block is at a byte.
pub fn refusal_byte(s: &[u8], from: usize, refusal: Refusal) -> Option<usize> {
    match refusal {
        Refusal::PastEnd
        | Refusal::LeftOver
        | Refusal::EmptyList
        | Refusal::NoRoom
        | Refusal::BadTable
        | Refusal::BadStructure { .. }
        | Refusal::BadCommitment { .. }
        | Refusal::Unfinished { .. } => None,
        _ => Some(place_byte(s, from, refusal.number(), refusal.place())),
    }
}

// The number of a refusal of decode, and the byte that it points to, where it has one.
pub fn write_numbered<W: Write>(
    page: &mut W,
    s: &[u8],
    from: usize,
    refusal: Refusal,
) -> fmt::Result {
    write!(page, "{}", refusal.number())?;
    match refusal_byte(s, from, refusal) {
        Some(byte) => write!(page, " at byte {byte}"),
        None => Ok(()),
    }
}
