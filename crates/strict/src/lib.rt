// Strict reading (M-107): a block that decode takes is read only if it is finished, one that batching its own list makes. Its operations are batched
// again as they lie, flagged padding left out, and each batch that ends is held against the block's next record. Nothing is written, so that no room
// is asked for: of a batch in hand only its numbers are kept, the sizes of its groups and its flags. A record's group numbers and count need no look:
// they follow from these and the operations (`shapes`, crates/claims).
#![tactic(auto)]

ghost use Rattle.std.specs.Prelude.{◌≡◌, true, ◌&&◌, ◌+◌, ◌*◌, ◌/◌, ◌-◌, ◌≤◌, ◌<◌, ◌^◌, length, leb, ltb, ◌∷◌, [], Ok};
ghost use Rattle.std.specs.Int.{from_bool};
ghost use Rattle.rules.specs.Record.{record_size, record_at, records_from};
ghost use Rattle.rules.specs.Checks.{ninth};
ghost use Rattle.rules.specs.Lookups.{marks};
ghost use Rattle.rules.specs.Strict.{unmarked};
ghost use Rattle.rules.specs.Functions.{arena};
ghost use Rattle.refusal.specs.Told.{told};
ghost use Rattle.accumulator.specs.Model.{fits_in};
ghost use Rattle.prefix.specs.Tables.{marks_at};
ghost use Rattle.decoder.specs.Replies.{StrictlyDecodes};
ghost use Rattle.strict.specs.Draft.{shape_of, new_draft, closed_draft, ended_draft, ready_draft, joined_draft, added_draft};
ghost use Rattle.strict.specs.Model.{shape_at, held, ended_work, room_work, codes_part, new_work, Judged, verdict_in};

use accumulator::OpBatchAccumulator;
use decoder::Decoded;
use op_batch::RecordAt;
use refusal::Refusal;
use std::marker::Model;

// The sizes and the flags of a batch's groups, each as the bytes of one number, the first lowest: `RecordAt` gives them so, and eight are compared at once.
#[derive(Clone, Copy, PartialEq, Eq)]
struct Shape {
    sizes: u64,
    flags: u64,
}

// The batch in hand: its numbers, and the shape of its closed groups.
#[derive(Clone, Copy)]
struct Draft {
    acc: OpBatchAccumulator,
    shape: Shape,
}

impl Model for Draft {
    ghost use Rattle.strict.specs.Draft.{Draft, Fine};

    ghost Value = { Draft };

    ghost view = { λ d. record { acc = d.acc; sizes = d.shape.sizes; flags = d.shape.flags } };

    ghost invariant = { λ d. Fine 8 (record { acc = d.acc; sizes = d.shape.sizes; flags = d.shape.flags }) };

    ghost inverse = { λ d. record { acc = d.acc; shape = record { sizes = d.sizes; flags = d.flags } } };
}

// The batch in hand, how many batches before it are the block's, or the refusal of the first that is not, and how many operations were added.
#[derive(Clone, Copy)]
struct Work {
    draft: Draft,
    same: Result<usize, Refusal>,
    raw: usize,
}

// A block: a kind for each opcode, its opcodes and its records.
#[derive(Clone, Copy)]
struct Walk<'a> {
    table: &'a [u8],
    codes: &'a [u8],
    records: &'a [u8],
    ghost judged: { Judged table.now codes.now records.now (length records.now / record_size) },
}

// ---- one batch

// What the g-th of eight bytes counts.
fn unit(g: usize) -> u64
    requires { g < 8 }
    ensures { result ≡ 256 ^ g }
{
    1u64 << (8 * g)
}

impl Draft {
    fn new() -> Draft
        ensures { result ≡ new_draft }
    {
        Draft {
            acc: OpBatchAccumulator::new(),
            shape: Shape { sizes: 0, flags: 0 },
        }
    }

    // Its shape with the current group closed.
    fn closed(&self) -> Shape
        ensures { result ≡ shape_of (closed_draft self.now) }
    {
        let pad = u64::from(self.acc.padding());
        let unit = unit(self.acc.cur);
        Shape {
            sizes: self.shape.sizes + (self.acc.inside as u64 + pad) * unit,
            flags: self.shape.flags + pad * unit,
        }
    }

    // Closes the current group and opens the next free one.
    fn close(self) -> Draft
        requires { self.acc.next < 8 }
        ensures { result ≡ closed_draft self }
    {
        let shape = self.closed();
        Draft {
            acc: self.acc.turn(),
            shape,
        }
    }

    // Closes and opens until next free is a power of two, then closes the last.
    fn end(self) -> Shape
        ensures { result ≡ shape_of (ended_draft self) }
    {
        let mut d = self;
        for _ in self.acc.next..accumulator::target_num_groups(self.acc.next) {
            d = d.close();
        }
        d.closed()
    }

    // Whether an operation fits.
    fn fits(&self, imm: bool) -> bool
        ensures { result ≡ fits_in 8 imm self.now.acc }
    {
        self.acc.can_accept_op(op_batch::WIDTH, imm)
    }

    // Closes the current group where it cannot take the operation.
    fn advance(self, imm: bool) -> Draft
        requires { fits_in 8 imm self.acc ≡ true }
        ensures value { result ≡ ready_draft imm self }
        ensures joins { (result.acc.inside + from_bool imm < 9) × (result.acc.next + from_bool imm ≤ 8) }
    {
        if self.acc.full(imm) {
            self.close()
        } else {
            self
        }
    }

    // An operation that fits is added.
    fn add(self, code: u8, imm: bool) -> Draft
        requires { (fits_in 8 imm self.acc ≡ true) × (code < 128) }
        ensures { result ≡ added_draft code imm self }
    {
        self.advance(imm).join(code, imm)
    }

    // ---- the fast path
    //
    // Nearly every operation closes nothing. Whether it does is asked by numbers, as in the batcher's `join_ops`, so that no branch depends on whether
    // an operation has an immediate: no processor foresees it.

    // Whether an operation joins the current group as it is.
    fn joins(&self, imm: bool) -> bool
        ensures { result ≡ (ltb (self.now.acc.inside + from_bool imm) 9 && leb (self.now.acc.next + from_bool imm) 8) }
    {
        let slots = usize::from(imm);
        self.acc.inside + slots < accumulator::GROUP_SIZE
            && self.acc.next + slots <= op_batch::WIDTH
    }

    fn join(self, code: u8, imm: bool) -> Draft
        requires { (code < 128) × (self.acc.inside + from_bool imm < 9) × (self.acc.next + from_bool imm ≤ 8) }
        ensures { result ≡ joined_draft code imm self }
    {
        let acc = self.acc.push_op(code, imm);
        Draft {
            acc: OpBatchAccumulator {
                next: acc.next + usize::from(imm),
                ..acc
            },
            ..self
        }
    }
}

// ---- batch by batch, beside the block's records
//
// What a batch in hand goes through is the accumulator's and the batcher's, and stands here again since nothing is written: one machine for both would be
// over a trait, of where a closed group goes, with laws and two more types that keep them.

impl Walk<'_> {
    ghost use Rattle.strict.specs.Walk.{batches_in, fed_in};

    fn batches(&self) -> usize
        ensures { result ≡ batches_in self.now }
    {
        self.records.len() / op_batch::RECORD
    }

    fn shape(&self, b: usize) -> Shape
        requires { b < batches_in self.now }
        ensures { result ≡ shape_at self.now.records.now b }
    {
        let record = RecordAt {
            records: self.records,
            b,
        };
        Shape {
            sizes: record.sizes(),
            flags: record.flags(),
        }
    }

    // Whether the batch in hand, ended, is the record after those that are the same, unless one before was apart.
    fn held(&self, same: Result<usize, Refusal>, draft: Draft) -> Result<usize, Refusal>
        ensures { result ≡ held self.now.records.now (batches_in self.now) (shape_of (ended_draft draft)) same }
    {
        let b = same?;
        if b < self.batches() && self.shape(b) == draft.end() {
            Ok(b + 1)
        } else {
            Err(Refusal::Unfinished { batch: b })
        }
    }

    // Ends the batch in hand and holds it against the block's next record.
    fn end_batch(&self, work: Work) -> Work
        ensures { result ≡ ended_work self.now.records.now (batches_in self.now) work }
    {
        Work {
            draft: Draft::new(),
            same: self.held(work.same, work.draft),
            ..work
        }
    }

    // Ends the batch in hand where the operation does not fit.
    fn make_room(&self, work: Work, imm: bool) -> Work
        ensures { result ≡ room_work 8 imm self.now.records.now (batches_in self.now) work }
    {
        if work.draft.fits(imm) {
            work
        } else {
            self.end_batch(work)
        }
    }

    // One operation more.
    fn step(&self, work: Work, code: u8) -> Work
        requires { (code < 128) × (work.raw < 2 ^ 32) }
        ensures { result ≡ fed_in self.now (code ∷ []) work }
    {
        let imm = operation::has_immediate(self.table, code);
        // Returned at once: with an `else` the work is copied once more (measured).
        if work.draft.joins(imm) {
            return Work {
                draft: work.draft.join(code, imm),
                raw: work.raw + 1,
                ..work
            };
        }
        let room = self.make_room(work, imm);
        Work {
            draft: room.draft.add(code, imm),
            raw: room.raw + 1,
            ..room
        }
    }

    // The operations from one place up to another.
    fn add_ops(&self, work: Work, from: usize, to: usize) -> Work
        requires { (from ≤ to) × (to ≤ length self.now.codes.now) × (work.raw ≤ from) }
        ensures { result ≡ fed_in self.now (codes_part (to - from) self.now.codes.now from) work }
    {
        let mut w = work;
        for code in &self.codes[from..to] {
            w = self.step(w, *code);
        }
        w
    }

    // The operations of the b-th batch, which begin at `at`, without flagged padding.
    fn add_batch(&self, work: Work, at: usize, b: usize) -> Work
        requires { (b < batches_in self.now) × (at + ninth (record_at self.now.records.now b) ≤ length self.now.codes.now) × (work.raw ≤ at) }
        ensures { result ≡ fed_in self.now (unmarked (marks_at (record_at self.now.records.now b) 0) (codes_part (ninth (record_at self.now.records.now b)) self.now.codes.now at)) work }
    {
        let record = RecordAt {
            records: self.records,
            b,
        };
        let mut w = work;
        let mut from = at;
        let mut left = record.flags(); // those from the g-th on
        for g in 0..op_batch::WIDTH {
            if left == 0 {
                break;
            }
            left /= 256;
            let start = record.start(g);
            let end = record.start(g + 1);
            if record.flag(g) == 1 && start < end {
                w = self.add_ops(w, from, at + end - 1);
                from = at + end;
            }
        }
        self.add_ops(w, from, at + record.start(8))
    }

    // The operations of all batches, without flagged padding.
    fn add_batches(&self) -> Work
        ensures { result ≡ fed_in self.now (unmarked (marks (records_from (batches_in self.now) self.now.records.now 0)) self.now.codes.now) new_work }
    {
        let mut w = Work {
            draft: Draft::new(),
            same: Ok(0),
            raw: 0,
        };
        let records = self.records;
        let mut at = 0;
        for b in 0..self.batches() {
            w = self.add_batch(w, at, b);
            at += RecordAt { records, b }.start(8);
        }
        w
    }

    // ---- the answer

    fn finished(&self) -> Result<(), Refusal>
        ensures { told result ≡ verdict_in 8 self.now.table.now self.now.codes.now self.now.records.now (batches_in self.now) }
    {
        let work = self.add_batches();
        if work.raw == 0 || 16384 < work.raw {
            return Err(Refusal::Unfinished { batch: 0 });
        }
        let b = self.end_batch(work).same?;
        if b < self.batches() {
            return Err(Refusal::Unfinished { batch: b });
        }
        Ok(())
    }
}

// The block in `s` from `at` on, if it is finished, into lent runs for opcodes, values and records: content, then zeros; zeros alone where it is refused.
// The contract is decode's with another definition (crates/decoder/specs/Replies.antt).
// The runs come one by one, as the C interface lends them.
pub fn decode_strict(
    table: &[u8],
    s: &[u8],
    at: usize,
    out_codes: &mut [u8],
    out_values: &mut [u64],
    records: &mut [u8],
) -> Result<Decoded, Refusal>
    ensures { StrictlyDecodes table.now s.now at (arena out_codes.old out_values.old records.old) (arena out_codes.new out_values.new records.new) result }
{
    let made = decoder::decode(table, s, at, out_codes, out_values, records)?;
    let walk = Walk {
        table,
        codes: &out_codes[..made.operations],
        records: &records[..op_batch::RECORD * made.batches],
    };
    if let Err(refusal) = walk.finished() {
        decoder::clear_after(out_codes, out_values, records, 0, 0);
        return Err(refusal);
    }
    Ok(made)
}
