// The commitment check of a block in a lent arena (document 01, "Checks"): batch by batch the first fault; and before that one walk that only says
// whether all is right.
#![tactic(auto)]

ghost use Rattle.std.specs.Prelude.{◌≡◌, ◌↔◌, IsTrue, [], ℕ, true, ◌+◌, ◌/◌, ◌≤◌, ◌<◌, length, drop, nat_eq, option_map, IfSome, slice_index};
ghost use Rattle.rules.specs.Answer.{good, refuse_first};
ghost use Rattle.rules.specs.Operations.{operations, kind_of};
ghost use Rattle.rules.specs.Record.{record_size, record_at, codes_number, immediates};
ghost use Rattle.rules.specs.Checks.{ninth, under_count, placing_fault, begins, empty_zero, commitment_fault, commitment_faults};
ghost use Rattle.rules.specs.Functions.{block_in, structure_checked, commitment_checked};
ghost use Rattle.refusal.specs.Told.{told};
ghost use Rattle.operation.specs.Verdict.{one_fault};
ghost use Rattle.checks.specs.Arena.{lying};
ghost use Rattle.checks.specs.Batch.{held_at, Apt, under};
ghost use Rattle.commitment.specs.Walk.{slot_after, slots_after, AllRight, BatchRight};

use checks::Arena;
use op_batch::{RECORD, RecordAt, WIDTH};
use operation::{FIELD, Kind};
use refusal::Refusal;

// ---- the operations of a group

// Whether an opcode's value is placed in a group: kind 1.
fn placed(table: &[u8; 128], code: u8) -> bool
    ensures { result ≡ nat_eq (kind_of table.now code) 1 }
{
    table
        .get(code as usize)
        .is_some_and(|&kind| Kind::from(kind) == Kind::Placed)
}

#[derive(Clone, Copy)]
struct Group<'a> {
    codes: &'a [u8],
    values: &'a [u64],
    ghost same: { length codes.now ≡ length values.now },
    ghost few: { length codes.now ≤ 9 },
}

impl<'a> Group<'a> {
    ghost use Rattle.commitment.specs.View.{ops_in};

    fn is_empty(self) -> bool
        ensures { IsTrue result ↔ (ops_in self.entry ≡ []) }
    {
        self.codes.is_empty()
    }

    // How many of the operations have an immediate.
    fn immediates(self, table: &[u8; 128]) -> usize
        ensures count { result ≡ length (immediates table.now (ops_in self.entry)) }
        ensures few { result ≤ 9 }
    {
        self.codes
            .iter()
            .filter(|code| placed(table, **code))
            .count()
    }
}

// ---- a batch: its record is the block's b-th, and its operations begin at `from`. The record is made where it is asked: a field for it would have to say
// that its run is the block's.

// A block that passed the structure check, and its table.
#[derive(Clone, Copy)]
struct Block<'a> {
    table: &'a [u8; 128],
    arena: Arena<'a>,
    ghost known: { length table.now ≡ 128 },
    ghost structure: { structure_checked 8 (lying arena) ≡ good tt },
}

#[derive(Clone, Copy)]
struct Batch<'a> {
    block: Block<'a>,
    b: usize,
    from: usize,
    ghost within: { b < length block.arena.records.now / record_size },
    ghost inside: { from + ninth (record_at block.arena.records.now b) ≤ length block.arena.codes.now },
}

// What a walk over a group's operations found: their number, and the group after those that hold their immediates.
#[derive(Clone, Copy)]
struct Walked {
    number: u64,
    next: usize,
}

impl<'a> Batch<'a> {
    ghost use Rattle.commitment.specs.View.{ops_in, arena_of, record_of, ops_of, group_of};

    // How many operations it has.
    fn len(self) -> usize
        ensures { result ≡ ninth (record_of self.entry) }
    {
        let records = self.block.arena.records;
        RecordAt { records, b: self.b }.len()
    }

    #[tactic(auto, using(crate::proofs::Groups::count_low))]
    fn count(self) -> usize
        ensures { (result ≡ (record_of self.entry).count) × (result ≤ 8) }
    {
        let records = self.block.arena.records;
        RecordAt { records, b: self.b }.count()
    }

    fn number(self, g: usize) -> u64
        requires { g < 8 }
        ensures { result ≡ slice_index (record_of self.entry).numbers g }
    {
        let records = self.block.arena.records;
        RecordAt { records, b: self.b }.number(g)
    }

    // The g-th group's operations.
    #[tactic(auto, using(crate::proofs::Groups::group_bounds))]
    fn group(self, g: usize) -> Group<'a>
        requires { g < 8 }
        ensures { ops_in result ≡ group_of self.entry g }
    {
        let records = self.block.arena.records;
        let stored = RecordAt { records, b: self.b };
        let start = self.from + stored.start(g);
        let end = self.from + stored.start(g + 1);
        Group {
            codes: &self.block.arena.codes[start..end],
            values: &self.block.arena.values[start..end],
        }
    }

    // ---- the first fault

    // Refused where n immediates find no empty groups under the count from the g-th on.
    fn placing_fault(self, g: usize, n: usize) -> Result<(), Refusal>
        requires { (g ≤ 8) × (n ≤ 9) }
        ensures { told result ≡ one_fault (placing_fault n (under (record_of self.entry) (ops_of self.entry) self.entry.from g)) self.entry.b }
    {
        let count = self.count();
        for j in g..g + n {
            if count <= j {
                return Err(Refusal::NoSlot { batch: self.b });
            }
            if !self.group(j).is_empty() {
                return Err(Refusal::SlotTaken { batch: self.b });
            }
        }
        Ok(())
    }

    // Whether the numbers of the groups from the g-th on begin with a group's immediates.
    fn values_right(self, g: usize, group: Group<'_>) -> bool
        requires { g ≤ 8 }
        ensures { result ≡ begins (drop g (record_of self.entry).numbers) (immediates self.entry.block.table.now (ops_in group.entry)) }
    {
        let mut j = g;
        for (code, value) in group.codes.iter().zip(group.values.iter()) {
            if !placed(self.block.table, *code) {
                continue;
            }
            if 8 <= j || self.number(j) != *value {
                return false;
            }
            j += 1;
        }
        true
    }

    // Whether every empty group under the count that holds no immediate is 0.
    fn empty_zero(self) -> bool
        ensures { result ≡ empty_zero self.entry.block.table.now 0 (under_count (held_at (arena_of self.entry) self.entry.b self.entry.from)) (record_of self.entry).numbers }
    {
        let mut held: usize = 0;
        for g in 0..self.count() {
            let group = self.group(g);
            if !group.is_empty() {
                held = group.immediates(self.block.table);
            } else if 0 < held {
                held -= 1;
            } else if self.number(g) != 0 {
                return false;
            }
        }
        true
    }

    // Group by group: number right, immediates placed, their values right; last, empty groups.
    fn fault(self) -> Result<(), Refusal>
        requires { Apt self.block.table.now self.block.arena.codes.now }
        ensures { told result ≡ one_fault (commitment_fault self.entry.block.table.now (held_at (arena_of self.entry) self.entry.b self.entry.from)) self.entry.b }
    {
        for g in 0..self.count() {
            let group = self.group(g);
            if group.is_empty() {
                continue;
            }
            if self.number(g) != op_batch::group_number(group.codes) {
                return Err(Refusal::BadCommitment { batch: self.b });
            }
            self.placing_fault(g + 1, group.immediates(self.block.table))?;
            if !self.values_right(g + 1, group) {
                return Err(Refusal::BadCommitment { batch: self.b });
            }
        }
        if self.empty_zero() {
            Ok(())
        } else {
            Err(Refusal::BadCommitment { batch: self.b })
        }
    }

    // ---- where all is right: one walk that says only whether it is

    // The group after an operation's immediate, which belongs in the j-th: j where the operation has none. None where it is not admissible or the group's
    // number is another. An operation without a value goes first: of a `match` on the kind, as there was here, its arm was the last that was tried.
    #[tactic(auto, unfolding(crate::specs::Walk::slot_after))]
    fn slot_after(self, kind: u8, v: u64, j: usize) -> Option<usize>
        requires { j ≤ 8 }
        ensures value { result ≡ slot_after kind v (record_of self.entry).numbers j }
        ensures low { IfSome result (λ k. k ≤ 8) }
    {
        let kind = Kind::from(kind);
        if kind == Kind::Plain {
            return (v == 0).then_some(j);
        }
        if FIELD <= v {
            return None;
        }
        match kind {
            Kind::Placed if j < 8 && self.number(j) == v => Some(j + 1),
            Kind::Carried => Some(j),
            _ => None,
        }
    }

    // A group's operations, their immediates in the groups from the g-th on. None where something is not right.
    #[tactic(auto, using(crate::proofs::Slots::unit_small, crate::proofs::Slots::product_small))]
    fn walk_group(self, g: usize, group: Group<'_>) -> Option<Walked>
        requires { g ≤ 8 }
        ensures next { option_map (λ (w : Walked). w.next) result ≡ slots_after self.entry.block.table.now (ops_in group.entry) (record_of self.entry).numbers g }
        ensures number { IfSome result (λ w. w.number ≡ codes_number (ops_in group.entry)) }
    {
        let mut number: u64 = 0;
        let mut unit: u64 = 1;
        let mut next = g;
        let table = self.block.table;
        for (code, value) in group.codes.iter().zip(group.values.iter()) {
            let kind = table.get(*code as usize)?;
            next = self.slot_after(*kind, *value, next)?;
            number += u64::from(*code) * unit;
            unit *= 128;
        }
        Some(Walked { number, next })
    }

    // Group by group; the groups under `held` hold the immediates of those before.
    fn is_right(self) -> bool
        ensures { result ≡ true → BatchRight self.entry.block.table.now (arena_of self.entry) self.entry.b self.entry.from }
    {
        let count = self.count();
        let mut held: usize = 0;
        for g in 0..count {
            let group = self.group(g);
            let number = self.number(g);
            if group.is_empty() {
                if held <= g && number != 0 {
                    return false;
                }
                continue;
            }
            if g < held {
                return false;
            }
            let Some(walked) = self.walk_group(g + 1, group) else {
                return false;
            };
            if count < walked.next || walked.number != number {
                return false;
            }
            held = walked.next;
        }
        true
    }
}

// ---- batch by batch: two walks, one to the first fault, which is a refusal, and one that only says whether there is none. A walk with a closure for both
// would have to answer both.

impl<'a> Block<'a> {
    // The first batch with a fault, where the table has a kind for each opcode.
    fn first_fault(self) -> Result<(), Refusal>
        requires { Apt self.table.now self.arena.codes.now }
        ensures { told result ≡ refuse_first 0 (commitment_faults self.entry.table.now (block_in (lying self.entry.arena))) (good tt) }
    {
        let mut from: usize = 0;
        for b in 0..self.arena.records.len() / RECORD {
            let batch = Batch {
                block: self,
                b,
                from,
            };
            batch.fault()?;
            from += batch.len();
        }
        Ok(())
    }

    // Whether every operation is admissible and no batch has a fault. Not drawn into the check: there the loop over a group's operations had its number in memory
    // for want of registers, and took half as long again.
    #[inline(never)]
    fn is_right(self) -> bool
        ensures { result ≡ true → AllRight self.entry.table.now (lying self.entry.arena) }
    {
        let mut from: usize = 0;
        for b in 0..self.arena.records.len() / RECORD {
            let batch = Batch {
                block: self,
                b,
                from,
            };
            if !batch.is_right() {
                return false;
            }
            from += batch.len();
        }
        true
    }
}

// ---- the check

// Commitment: refusals 3, 14, 15, 4 or 17 (M-101), then batch by batch 16, 8 or 9. Where not all is right, slower walks say what goes first.
pub fn commitment(table: &[u8], arena: Arena<'_>) -> Result<(), Refusal>
    ensures { told result ≡ commitment_checked 8 table.now (lying arena.entry) }
{
    if !arena.within() {
        return Err(Refusal::OverLimit);
    }
    let table = operation::checked(table)?;
    arena.structure_fault(WIDTH)?;
    let block = Block { table, arena };
    if block.is_right() {
        return Ok(());
    }
    operation::first_fault(table, arena.codes, arena.values)?;
    block.first_fault()
}
