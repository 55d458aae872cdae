// The greedy driver (document 01, "Batching (000)"): it hands one operation after the other to the accumulator, and ends the batch where one does not
// fit. The lent runs come in all zero. They are three parameters: of a struct of three `&mut` each function would have to say besides that the
// references in it are still the same.
#![tactic(auto)]

ghost use Rattle.std.specs.Prelude.{◌≡◌, true, ◌+◌, ◌*◌, ◌-◌, ◌≤◌, ◌<◌, ◌^◌, length, get_or, set, IfSome};
ghost use Rattle.rules.specs.Record.{record_size, no_block};
ghost use Rattle.rules.specs.Functions.{arena, filled};
ghost use Rattle.accumulator.specs.Good.{record_groups, Good};
ghost use Rattle.batcher.specs.Going.{Going};
ghost use Rattle.batcher.specs.Batched.{listed, Batched};
ghost use Rattle.batcher.specs.Model.{ended_work, ended_work_run, room_work, room_run, stepped_work, stepped_run, last_place, kept_run, last_imm, taken_work, Joins};

use accumulator::OpBatchAccumulator;
use op_batch::RecordMut;
use refusal::Refusal;

// A list to batch: at most 16,384 operations, their table, and how many groups a batch may have.
#[derive(Clone, Copy)]
pub struct Input<'a> {
    pub width: usize,
    pub table: &'a [u8; 128],
    pub codes: &'a [u8],
    pub values: &'a [u64],
    pub ghost whole: { length table.now ≡ 128 },
    pub ghost wide: { (2 ≤ width) × (width ≤ record_groups) },
    pub ghost even: { length values.now ≡ length codes.now },
    pub ghost few: { length codes.now ≤ 16384 },
}

// How much a list comes to.
#[derive(Clone, Copy, Debug, PartialEq, Eq)]
pub struct Totals {
    pub batches: usize,
    pub operations: usize,
}

// The batch in hand, and how many padded operations and batches stand before it. That these are few is asked where they are added to, and is no
// ghost field: it follows from how far the driver is in its list, which the work does not know.
#[derive(Clone, Copy)]
struct Work {
    acc: OpBatchAccumulator,
    base: usize,
    batches: usize,
}

impl Work {
    // Ends the batch in hand and starts the next. Drawn into its callers: as a function of its own it would take and give the work through memory, and each
    // step would go there too, also where no batch ends.
    #[inline(always)]
    fn end_batch(self, records: &mut [u8]) -> Work
        requires good { Good record_groups self.acc }
        requires base_bound { (self.base < 2 ^ 32) × (self.batches < 2 ^ 20) }
        ensures work { result ≡ ended_work self }
        ensures run { records.new ≡ ended_work_run self records.old }
    {
        let mut out = RecordMut {
            records,
            b: self.batches,
        };
        let total = self.acc.into_batch(&mut out);
        Work {
            acc: OpBatchAccumulator::new(),
            base: self.base + total as usize,
            batches: self.batches + 1,
        }
    }

    // Ends the batch in hand where the operation does not fit.
    fn make_room(self, width: usize, imm: bool, records: &mut [u8]) -> Work
        requires good { Good record_groups self.acc }
        requires base_bound { (self.base < 2 ^ 32) × (self.batches < 2 ^ 20) }
        ensures work { result ≡ room_work width imm self }
        ensures run { records.new ≡ room_run width imm self records.old }
    {
        if self.acc.can_accept_op(width, imm) {
            self
        } else {
            self.end_batch(records)
        }
    }

    // One operation more.
    fn step(
        self,
        width: usize,
        code: u8,
        imm: bool,
        v: u64,
        codes: &mut [u8],
        values: &mut [u64],
        records: &mut [u8],
    ) -> Work
        requires width_in_bounds { (2 ≤ width) × (width ≤ record_groups) × Good width self.acc }
        requires base_bound { (self.base < 2 ^ 31) × (self.batches < 2 ^ 19) × (code < 128) }
        ensures work { result ≡ stepped_work width code imm self }
        ensures codes { codes.new ≡ set codes.old (last_place (stepped_work width code imm self)) code }
        ensures values { values.new ≡ set values.old (last_place (stepped_work width code imm self)) v }
        ensures run { records.new ≡ stepped_run width imm v self records.old }
    {
        let r = self.make_room(width, imm, records);
        let mut out = RecordMut {
            records,
            b: r.batches,
        };
        let acc = r.acc.add_op(code, imm, v, &mut out);
        let at = r.base + acc.total as usize - 1;
        word::store(codes, at, code);
        word::store(values, at, v);
        Work { acc, ..r }
    }
}

// ---- the fast path
//
// The original has no counterpart to this. Nearly every operation closes nothing: it joins the current group, and its immediate, if it has
// one, takes the next free slot. `join_ops` takes such operations one after the other and does with each what `step` does. It has in hand only
// what they change, so that all of it stays in registers; it looks for room in the lent runs once; and it keeps a plain operation's value too,
// which is 0, in the next free slot, which is 0, so that no branch depends on whether an operation has an immediate: no processor foresees it.

// Operations that have joined: the work with them, and the place of the first that has not.
#[derive(Clone, Copy)]
struct Taken {
    work: Work,
    upto: usize,
}

// A value in the next free slot, if the record has one more.
fn keep(v: u64, b: usize, next: usize, records: &mut [u8])
    requires { record_size * b + record_size ≤ length records.old }
    ensures { records.new ≡ kept_run v b next records.old }
{
    if next < accumulator::RECORD_GROUPS {
        op_batch::put_number(records, b, next, v);
    }
}

// Whether runs of these lengths have room for a whole group and for the b-th record. The record is looked at first: the compiled code then moves
// fewer numbers between registers.
fn room_ahead(from: usize, b: usize, codes: usize, values: usize, records: usize) -> bool
    requires { (from < 2 ^ 32) × (b < 2 ^ 20) }
    ensures { result ≡ true → (from + 9 ≤ codes) × (from + 9 ≤ values) × (record_size * b + record_size ≤ records) }
{
    op_batch::RECORD * b + op_batch::RECORD <= records
        && from + accumulator::GROUP_SIZE <= codes
        && from + accumulator::GROUP_SIZE <= values
}

impl Input<'_> {
    // How many slots an operation takes that joins the current group as it is, 0 or 1; none where it does not, or is left to `step`. It is the n-th of at
    // most `end`, and the last of them has no immediate. Both are asked for, not what is left: the loop has both in hand, and one number less this way.
    fn slots(self, code: u8, v: u64, next: usize, n: usize, end: usize) -> Option<usize>
        requires { (next ≤ record_groups) × (n < end) × (end ≤ 9) }
        ensures { IfSome result (λ k. (k < 2) × Joins self.entry.width self.entry.table.now code v next (end - n) k) }
    {
        if 128 <= code {
            return None;
        }
        // a number and no `Kind`: how many slots the operation takes, and the factor that gives its greatest value where `value_right` has a branch
        let kind = self.table[code as usize];
        let k = kind as usize;
        if 1 < kind || u64::from(kind) * (operation::FIELD - 1) < v {
            return None;
        }
        if end <= n + k || self.width < next + k {
            return None;
        }
        Some(k)
    }

    // How many operations from the i-th on can join at most: what is left of the group, or of the list.
    fn most(self, inside: usize, i: usize) -> usize
        requires { (inside ≤ 9) × (i ≤ length self.codes.now) }
        ensures { (inside + result ≤ 9) × (i + result ≤ length self.entry.codes.now) }
    {
        (self.codes.len() - i).min(accumulator::GROUP_SIZE - inside)
    }

    // Whether the last of n operations has an immediate: looked up once they have joined, so that the loop has one thing less in hand.
    fn last_imm(self, before: bool, i: usize, n: usize) -> bool
        requires { (i + n ≤ length self.codes.now) × (0 < n → get_or self.codes.now (i + n - 1) 0 < 128) }
        ensures { result ≡ last_imm self.entry.table.now self.entry.codes.now before i n }
    {
        if n == 0 {
            before
        } else {
            let table = self.table;
            operation::has_immediate(table, self.codes[i + n - 1])
        }
    }

    // The work put together again, with n operations that have joined from the i-th on.
    fn gather(self, work: Work, i: usize, n: usize, next: usize, number: u64, unit: u64) -> Taken
        requires inside { (i + n ≤ length self.codes.now) × (0 < n → get_or self.codes.now (i + n - 1) 0 < 128) }
        requires good { Good record_groups (taken_work self.table.now self.codes.now work i n next number unit).acc }
        ensures { (result.work ≡ taken_work self.entry.table.now self.entry.codes.now work i n next number unit) × (result.upto ≡ i + n) }
    {
        let a = work.acc;
        let acc = OpBatchAccumulator {
            next,
            inside: a.inside + n,
            number,
            unit,
            total: a.total + n as u8,
            tail: self.last_imm(a.tail, i, n),
            ..a
        };
        Taken {
            work: Work { acc, ..work },
            upto: i + n,
        }
    }

    // The operations from the i-th on that join the current group as it is, up to the first that does not. By their places: side by side, with `zip`, build took
    // 1.1 of its time.
    fn join_ops(
        self,
        work: Work,
        i: usize,
        codes: &mut [u8],
        values: &mut [u64],
        records: &mut [u8],
    ) -> Taken
        requires place { i ≤ length self.codes.now }
        requires going { Going self.width (arena codes.old values.old records.old) self.table.now self.codes.now self.values.now i work (arena codes.old values.old records.old) }
        ensures place { (i ≤ result.upto) × (result.upto ≤ length self.entry.codes.now) }
        ensures going { Going self.entry.width (arena codes.old values.old records.old) self.entry.table.now self.entry.codes.now self.entry.values.now result.upto result.work (arena codes.new values.new records.new) }
    {
        let a = work.acc;
        let b = work.batches;
        let from = work.base + a.total as usize;
        if !room_ahead(from, b, codes.len(), values.len(), records.len()) {
            return Taken { work, upto: i };
        }
        let end = self.most(a.inside, i);
        let mut next = a.next;
        let mut number = a.number;
        let mut unit = a.unit;
        for n in 0..end {
            let code = self.codes[i + n];
            let v = self.values[i + n];
            let Some(k) = self.slots(code, v, next, n, end) else {
                return self.gather(work, i, n, next, number, unit);
            };
            keep(v, b, next, records);
            codes[from + n] = code;
            values[from + n] = v;
            number += u64::from(code) * unit;
            unit *= 128;
            next += k;
        }
        self.gather(work, i, end, next, number, unit)
    }

    // ---- the driver

    // The batches of the list, written to runs that are all zero; or the refusal of its first operation that is not admissible. What the runs have no room
    // for falls away; what is replied does not.
    pub fn batch_ops(
        self,
        codes: &mut [u8],
        values: &mut [u64],
        records: &mut [u8],
    ) -> Result<Totals, Refusal>
        requires { arena codes.old values.old records.old ≡ filled (arena codes.old values.old records.old) no_block }
        ensures { Batched (listed self.entry.width self.entry.table.now self.entry.codes.now self.entry.values.now) result (arena codes.old values.old records.old) (arena codes.new values.new records.new) }
    {
        let mut work = Work {
            acc: OpBatchAccumulator::new(),
            base: 0,
            batches: 0,
        };
        let table = self.table;
        let mut i = 0;
        // no `for`: a turn goes on by as many operations as have joined
        while i < self.codes.len() {
            let code = self.codes[i];
            let v = self.values[i];
            operation::fault(table, code, v, i)?;
            let imm = operation::has_immediate(table, code);
            let s = work.step(self.width, code, imm, v, codes, values, records);
            let t = self.join_ops(s, i + 1, codes, values, records);
            work = t.work;
            i = t.upto;
        }
        let e = work.end_batch(records);
        Ok(Totals {
            batches: e.batches,
            operations: e.base,
        })
    }
}
