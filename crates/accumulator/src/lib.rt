// The accumulator of one batch (document 01, "Batching (000)"): plain numbers that go in and out by value, and a record that is written to a lent
// run as groups close and immediates are placed, and never read back. A Noop is opcode 0 and value 0, so that a padding is stored by not being
// stored: the runs come in all zero. How many groups a batch may have, its width, matters only to whether an operation fits: a record has room for
// eight whatever the width.
#![tactic(auto)]

ghost use Rattle.std.specs.Prelude.{◌≡◌, true, ◌+◌, ◌*◌, ◌≤◌, ◌<◌};
ghost use Rattle.rules.specs.Batching.{target};
ghost use Rattle.op_batch.specs.RecordMut.{stored};
ghost use Rattle.accumulator.specs.Good.{record_groups, Good};
ghost use Rattle.accumulator.specs.Model.{new_acc, fits_in, pad_of, closed_run, opened_acc, turned_acc, slotted_acc, slotted_run, joined_acc, crosses, ready_acc, ready_run, added_acc, added_run, ended_total, ended_run};

use op_batch::RecordMut;

// operations in a group
pub const GROUP_SIZE: usize = 9;

// groups that a record has room for, whatever the width
pub const RECORD_GROUPS: usize = 8;

// `Good` is no invariant of the type: `can_accept_op`, `full`, `padding` and `slot` ask less of it, and an `impl Model` would ask `Good` there too.
#[derive(Clone, Copy, Debug, PartialEq, Eq)]
pub struct OpBatchAccumulator {
    // the current group, and the next free one
    pub cur: usize,
    pub next: usize,
    // operations in the current group, and its number so far
    pub inside: usize,
    pub number: u64,
    // what the next opcode counts there: 128 to the power of its position
    pub unit: u64,
    // operations in the batch so far
    pub total: u8,
    // whether the last operation of the current group has an immediate
    pub tail: bool,
}

impl OpBatchAccumulator {
    pub fn new() -> Self
        ensures { result ≡ new_acc }
    {
        OpBatchAccumulator {
            cur: 0,
            next: 1,
            inside: 0,
            number: 0,
            unit: 1,
            total: 0,
            tail: false,
        }
    }

    // Whether an operation fits, with an immediate or without, in a batch of so many groups.
    pub fn can_accept_op(self, width: usize, imm: bool) -> bool
        requires { self.next ≤ record_groups }
        ensures { result ≡ fits_in width imm self }
    {
        match (self.full(imm), imm) {
            (false, false) => true,
            (false, true) | (true, false) => self.next < width,
            (true, true) => self.next + 1 < width,
        }
    }

    // Adds an operation to the batch, whose record has room for it. `imm` and `v` are no `Option`: whether there is an immediate is asked without it too,
    // and the driver has a value for every operation, 0 for a plain one, which it stores with no branch.
    pub fn add_op(self, code: u8, imm: bool, v: u64, out: &mut RecordMut<'_>) -> Self
        requires good { Good record_groups self }
        requires fits { fits_in record_groups imm self ≡ true }
        requires code_bound { code < 128 }
        ensures acc { result ≡ added_acc code imm self }
        ensures run { out.new ≡ stored (added_run imm v out.old.b self) out.old }
    {
        let a = self.advance(imm, out);
        if imm {
            a.place_imm(v, out).push_op(code, imm)
        } else {
            a.push_op(code, imm)
        }
    }

    // Ends the batch: its record is whole, and its operations are returned.
    pub fn into_batch(self, out: &mut RecordMut<'_>) -> u8
        requires good { Good record_groups self }
        ensures total { result ≡ ended_total self }
        ensures run { out.new ≡ stored (ended_run out.old.b self) out.old }
    {
        let count = target_num_groups(self.next);
        let mut a = self;
        for _ in self.next..count {
            a = a.finalize_op_group(out);
        }
        let total = a.close(out);
        out.set_count(count as u8);
        total
    }

    // Closes the current group and opens the next free one.
    fn finalize_op_group(self, out: &mut RecordMut<'_>) -> Self
        requires good { Good record_groups self }
        ensures acc { result ≡ turned_acc self }
        ensures run { out.new ≡ stored (closed_run out.old.b self) out.old }
    {
        let total = self.close(out);
        self.opened(total)
    }

    // Writes what the record says of the current group, and returns the batch's operations with its Noop. All later starts are the total
    // so far: the starts of the group's immediates, of the next group, and those that repeat the total if no group follows.
    fn close(self, out: &mut RecordMut<'_>) -> u8
        requires good { Good record_groups self }
        ensures total { result ≡ self.total + pad_of self }
        ensures run { out.new ≡ stored (closed_run out.old.b self) out.old }
    {
        let pad = self.padding();
        let total = self.total + pad;
        out.set_starts(self.cur + 1, total);
        out.set_flag(self.cur, pad);
        out.set_number(self.cur, self.number);
        total
    }

    // ---- the numbers alone: what a batch comes to without its record

    // The current group closed and the next free one opened.
    pub fn turn(self) -> Self
        requires { Good record_groups self }
        ensures { result ≡ turned_acc self }
    {
        self.opened(self.total + self.padding())
    }

    // The next free group opened, where the batch has so many operations.
    fn opened(self, total: u8) -> Self
        requires { self.next ≤ record_groups }
        ensures { result ≡ opened_acc total self }
    {
        OpBatchAccumulator {
            cur: self.next,
            next: self.next + 1,
            total,
            ..OpBatchAccumulator::new()
        }
    }

    // The next free group taken for an immediate.
    pub fn slot(self) -> Self
        requires { self.next < record_groups }
        ensures { result ≡ slotted_acc self }
    {
        OpBatchAccumulator {
            next: self.next + 1,
            ..self
        }
    }

    // The operation joins the current group.
    pub fn push_op(self, code: u8, imm: bool) -> Self
        requires good { Good record_groups self }
        requires code_bound { (code < 128) × (self.inside < 9) }
        ensures { result ≡ joined_acc code imm self }
    {
        OpBatchAccumulator {
            inside: self.inside + 1,
            number: self.number + u64::from(code) * self.unit,
            unit: self.unit * 128,
            total: self.total + 1,
            tail: imm,
            ..self
        }
    }

    // 1 where the current group wants a Noop: it is empty, or ends in an operation with an immediate.
    pub fn padding(self) -> u8
        ensures { (result ≡ pad_of self) × (result ≤ 1) }
    {
        u8::from(self.inside == 0 || self.tail)
    }

    // Whether the current group cannot take the operation: no immediate is ninth.
    pub fn full(self, imm: bool) -> bool
        ensures { result ≡ crosses imm self }
    {
        GROUP_SIZE - usize::from(imm) <= self.inside
    }

    fn advance(self, imm: bool, out: &mut RecordMut<'_>) -> Self
        requires good { Good record_groups self }
        ensures acc { result ≡ ready_acc imm self }
        ensures run { out.new ≡ stored (ready_run imm out.old.b self) out.old }
    {
        if self.full(imm) {
            self.finalize_op_group(out)
        } else {
            self
        }
    }

    // An immediate takes the next free group.
    fn place_imm(self, v: u64, out: &mut RecordMut<'_>) -> Self
        requires { self.next < record_groups }
        ensures acc { result ≡ slotted_acc self }
        ensures run { out.new ≡ stored (slotted_run v out.old.b self) out.old }
    {
        out.set_number(self.next, v);
        self.slot()
    }
}

// How many groups a batch is filled up to: the next power of two, up to 8.
pub fn target_num_groups(n: usize) -> usize
    ensures { result ≡ target n }
{
    n.min(RECORD_GROUPS).next_power_of_two()
}
