// Two checks of a block in a lent arena: structure and padding (document 01, "Checks").
#![tactic(auto)]

ghost use Rattle.std.specs.Prelude.{◌≡◌, ◌≤◌, length};
ghost use Rattle.rules.specs.Answer.{good, refuse_first};
ghost use Rattle.rules.specs.Checks.{structure_faults, padding_fault, padding_faults};
ghost use Rattle.rules.specs.Functions.{block_in, within, structure_checked, padding_checked};
ghost use Rattle.refusal.specs.Told.{told};
ghost use Rattle.operation.specs.Verdict.{one_fault};
ghost use Rattle.checks.specs.Arena.{lying};
ghost use Rattle.checks.specs.Batch.{held_at, Structured, Lies};

use op_batch::{RECORD, RecordAt, WIDTH};
use refusal::Refusal;

// A block as its caller lends it: opcodes, their values, and records of its batches. Nothing is known of the three runs before a check.
#[derive(Clone, Copy)]
pub struct Arena<'a> {
    pub codes: &'a [u8],
    pub values: &'a [u64],
    pub records: &'a [u8],
}

impl<'a> Arena<'a> {
    // "3": lists of equal length, at most 65,535 operations, whole records and at most 16,384 of them.
    #[tactic(auto, unfolding(rules::specs::Functions::within))]
    pub fn within(self) -> bool
        ensures { result ≡ within (lying self.entry) }
    {
        self.codes.len() == self.values.len()
            && self.codes.len() <= 65535
            && self.records.len() % RECORD == 0
            && self.records.len() / RECORD <= 16384
    }

    // ---- structure

    // The first record that fails the structure test, or their sum: for callers that made sure of equal lengths themselves.
    #[inline(always)]
    pub fn structure_fault(self, width: usize) -> Result<(), Refusal>
        requires { (width ≤ 8) × (length self.codes.now ≡ length self.values.now) }
        ensures { told result ≡ refuse_first 0 (structure_faults width (block_in (lying self.entry))) (good tt) }
    {
        let records = self.records;
        let n = records.len() / RECORD;
        let mut sum: usize = 0;
        for b in 0..n {
            let record = RecordAt { records, b };
            if !record.right(width) {
                return Err(Refusal::BadStructure { batch: b });
            }
            sum += record.len();
        }
        if sum != self.codes.len() {
            return Err(Refusal::BadStructure { batch: n });
        }
        Ok(())
    }

    // Structure: refusals 3, 15. Drawn into its callers, as what it calls is: an arena handed on by a pointer would be copied first.
    #[inline(always)]
    #[tactic(auto, unfolding(rules::specs::Functions::structure_checked))]
    pub fn structure(self) -> Result<(), Refusal>
        ensures { told result ≡ structure_checked 8 (lying self.entry) }
    {
        if !self.within() {
            return Err(Refusal::OverLimit);
        }
        self.structure_fault(WIDTH)
    }

    // ---- padding

    // One batch: a flagged group under the count holds operations and ends in opcode 0. The decoder asks it of each record that it has made.
    #[inline(always)]
    pub fn batch_padding(self, b: usize, from: usize) -> Result<(), Refusal>
        requires { Lies (lying self) b from }
        ensures { told result ≡ one_fault (padding_fault (held_at (lying self.entry) b from)) b }
    {
        let records = self.records;
        let record = RecordAt { records, b };
        let count = record.count();
        let mut left = record.flags(); // those from the g-th on: most batches have few, so the walk ends with the last
        for g in 0..8 {
            if left == 0 {
                return Ok(());
            }
            left /= 256;
            if record.flag(g) == 0 {
                continue;
            }
            if count <= g {
                return Ok(()); // flags from the count on are kept unread (M-100)
            }
            let end = record.start(g + 1);
            if record.start(g) == end {
                return Err(Refusal::BadPadding { batch: b });
            }
            if self.codes[from + end - 1] != 0 {
                return Err(Refusal::BadPadding { batch: b });
            }
        }
        Ok(())
    }

    // The first batch with a padding fault, where the arena passed the structure check.
    #[inline(always)]
    fn padding_fault(self) -> Result<(), Refusal>
        requires { Structured (lying self) }
        ensures { told result ≡ refuse_first 0 (padding_faults (block_in (lying self.entry))) (good tt) }
    {
        let records = self.records;
        let n = records.len() / RECORD;
        let mut from: usize = 0;
        for b in 0..n {
            self.batch_padding(b, from)?;
            from += RecordAt { records, b }.len();
        }
        Ok(())
    }

    // Padding: refusals 3, 15, 10.
    #[inline(always)]
    pub fn padding(self) -> Result<(), Refusal>
        ensures { told result ≡ padding_checked 8 (lying self.entry) }
    {
        self.structure()?;
        self.padding_fault()
    }
}
