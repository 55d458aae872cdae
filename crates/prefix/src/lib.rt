// The two index tables of a block, RawToPaddedPrefix and PaddedToRawPrefix, and lookups in them (document 01, "Lookups and tables").
#![tactic(auto)]

ghost use Rattle.std.specs.Prelude.{◌≡◌, ◌+◌, ◌*◌, ◌/◌, ◌≤◌, ◌<◌, ◌^◌, length};
ghost use Rattle.rules.specs.Record.{record_size, record_at, records_in};
ghost use Rattle.rules.specs.Lookups.{marks, raw_at, padded_at, padded_index, raw_index};
ghost use Rattle.rules.specs.Functions.{raw_tabled, padded_tabled, table_of};
ghost use Rattle.op_batch.specs.RecordAt.{recorded};
ghost use Rattle.checks.specs.Arena.{lying};
ghost use Rattle.checks.specs.Batch.{Fits, AllFit};
ghost use Rattle.prefix.specs.Tables.{padded_found, raw_found, padded_by, raw_by, table_by, table_from, pads_in, kept_in, marks_at, Goes, Filling, Answered};

use checks::Arena;
use op_batch::{RECORD, RecordAt};
use refusal::Refusal;

// An index of an operation among those without flagged paddings, and among all.
#[derive(Clone, Copy, Debug, PartialEq, Eq)]
pub struct RawIndex(pub usize);

#[derive(Clone, Copy, Debug, PartialEq, Eq)]
pub struct PaddedIndex(pub usize);

// The two tables by name: they differ in no more than the entries of a padding.
#[derive(Clone, Copy, Debug, PartialEq, Eq)]
pub enum Prefix {
    RawToPadded,
    PaddedToRaw,
}

// ---- lookups: the one adds, the other takes away, and each has its own index type, so that a trait would be longer than the four functions

// Where the entry of a raw index leads.
pub fn padded_by(entry: u64, i: RawIndex) -> Option<PaddedIndex>
    ensures { result ≡ padded_found (padded_by entry (raw_at i.0)) }
{
    i.0.checked_add(entry as usize).map(PaddedIndex)
}

#[tactic(auto, unfolding(rules::specs::Lookups::padded_index))]
pub fn raw_to_padded_index(table: &[u64], i: RawIndex) -> Option<PaddedIndex>
    ensures { result ≡ padded_found (padded_index table.now (raw_at i.0)) }
{
    let entry = table.get(i.0)?;
    padded_by(*entry, i)
}

// Where the entry of a padded index leads.
pub fn raw_by(entry: u64, i: PaddedIndex) -> Option<RawIndex>
    ensures { result ≡ raw_found (raw_by entry (padded_at i.0)) }
{
    i.0.checked_sub(entry as usize).map(RawIndex)
}

#[tactic(auto, unfolding(rules::specs::Lookups::raw_index))]
pub fn padded_to_raw_index(table: &[u64], i: PaddedIndex) -> Option<RawIndex>
    ensures { result ≡ raw_found (raw_index table.now (padded_at i.0)) }
{
    let entry = table.get(i.0)?;
    raw_by(*entry, i)
}

// ---- tables

// How far a table is: entries written, entries after them that wait until the next padding since their value is the same, paddings counted.
#[derive(Clone, Copy)]
struct Filled {
    entries: usize,
    waiting: usize,
    paddings: usize,
}

// The flagged paddings of a group, 0 or 1.
fn pads_in(size: usize, flag: u8) -> usize
    ensures { (result ≡ pads_in size flag) × (result ≤ 1) × (result ≤ size) }
{
    usize::from(size != 0 && flag == 1)
}

// The entries of a group: the raw table has none for a padding.
fn kept_in(which: Prefix, size: usize, pads: usize) -> usize
    requires { pads ≤ size }
    ensures { (result ≡ kept_in which size pads) × (result ≤ size) }
{
    match which {
        Prefix::RawToPadded => size - pads,
        Prefix::PaddedToRaw => size,
    }
}

// The entries of one batch, group by group as far as flags are set.
#[tactic(auto, using(crate::proofs::Entries::rising, crate::proofs::Entries::ending))]
fn batch_entries(batch: RecordAt<'_>, which: Prefix, from: Filled, out: &mut [u64]) -> Filled
    requires fits { Fits (recorded batch) × (batch.b < 16384) }
    requires waiting_bound { (from.entries + from.waiting ≤ 72 * batch.b) × (from.paddings ≤ 8 * batch.b) }
    ensures goes { Goes which (marks_at (recorded batch.entry) 0) from result out.old out.new }
    ensures waiting_bound_2 { (result.entries + result.waiting ≤ 72 * (batch.entry.b + 1)) × (result.paddings ≤ 8 * (batch.entry.b + 1)) }
{
    let mut done = from;
    let mut left = batch.flags(); // those from the g-th on
    let mut start = 0;
    for g in 0..8 {
        if left == 0 {
            break;
        }
        left /= 256;
        let end = batch.start(g + 1);
        let pads = pads_in(end - start, batch.flag(g));
        done.waiting += kept_in(which, end - start, pads);
        start = end;
        if pads == 1 {
            word::fill(out, done.entries, done.waiting, done.paddings as u64);
            done.entries += done.waiting;
            done.waiting = 0;
            done.paddings += 1;
        }
    }
    done.waiting += batch.len() - start;
    done
}

// A whole table, and how many entries it has; those past the end of the lent run are left out.
fn fill(records: &[u8], which: Prefix, out: &mut [u64]) -> usize
    requires { (length records.now / record_size ≤ 16384) × AllFit records.now }
    ensures { Filling (table_from which 0 (marks (records_in records.now))) result out.old out.new }
{
    let mut done = Filled {
        entries: 0,
        waiting: 0,
        paddings: 0,
    };
    for b in 0..records.len() / RECORD {
        done = batch_entries(RecordAt { records, b }, which, done, out);
    }
    let last = done.waiting + 1;
    word::fill(out, done.entries, last, done.paddings as u64);
    done.entries + last
}

// Either table: how many entries it has. Which one is told by a value and not by a closure: what is proved of both tables speaks of them by it.
// Drawn into its callers, and these into theirs: handed on by a pointer, an arena keeps its values alive, of which a table needs only how many there are.
#[inline(always)]
pub fn table(arena: Arena<'_>, which: Prefix, out: &mut [u64]) -> Result<usize, Refusal>
    ensures { Answered (table_of (table_by which) 8 (lying arena.entry) (length out.old)) result out.old out.new }
{
    if let Err(refusal) = arena.padding() {
        word::zero_after(out, 0);
        return Err(refusal);
    }
    let entries = fill(arena.records, which, out);
    if out.len() < entries {
        word::zero_after(out, 0);
        return Err(Refusal::NoRoom);
    }
    word::zero_after(out, entries);
    Ok(entries)
}

// RawToPaddedPrefix: for each raw operation the flagged paddings before it, then all. Refusals 3, 15, 10, 13.
#[inline(always)]
pub fn raw_to_padded(arena: Arena<'_>, out: &mut [u64]) -> Result<usize, Refusal>
    ensures { Answered (raw_tabled 8 (lying arena.entry) (length out.old)) result out.old out.new }
{
    table(arena, Prefix::RawToPadded, out)
}

// PaddedToRawPrefix: the same for each padded operation.
#[inline(always)]
pub fn padded_to_raw(arena: Arena<'_>, out: &mut [u64]) -> Result<usize, Refusal>
    ensures { Answered (padded_tabled 8 (lying arena.entry) (length out.old)) result out.old out.new }
{
    table(arena, Prefix::PaddedToRaw, out)
}
