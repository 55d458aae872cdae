// One batch of a block (document 01, "Decoding a batch"). `deltas` has its eight sizes, four bits each, the first lowest.
#![tactic(auto)]

ghost use Rattle.std.specs.Prelude.{◌≡◌, true, List, [], ℕ, ◌+◌, ◌*◌, ◌≤◌, ◌<◌, length, take};
ghost use Rattle.rules.specs.Lists.{fitted, total};
ghost use Rattle.rules.specs.Digits.{digits};
ghost use Rattle.rules.specs.Record.{Record, record_size, record_bytes, immediates};
ghost use Rattle.rules.specs.Bytes.{up_to};
ghost use Rattle.rules.specs.Block.{batch_at};
ghost use Rattle.rules.proofs.Slots.{slots};
ghost use Rattle.op_batch.specs.Stores.{record_set};
ghost use Rattle.wire.specs.Stages.{Staged};
ghost use Rattle.unpacker.specs.Groups.{RightSizes, Placing};
ghost use Rattle.unpacker.specs.Ops.{ops_in};

use checks::Arena;
use refusal::Refusal;
use wire::Item;

mod ops;

pub use ops::Ops;

// How many operations a batch has, by its eight sizes, taken off one by one as in wire's `deltas_right`.
fn operations_in(deltas: u64) -> usize
    ensures { result ≡ total (digits 16 8 deltas) }
{
    let mut left = deltas;
    let mut sum: usize = 0;
    for _ in 0..8_usize {
        sum += (left % 16) as usize;
        left /= 16;
    }
    sum
}

// The sizes stay one number: they are read as one, and a group's is taken off its low end.
impl Ops<'_> {
    // The immediates of a group's operations, each into the next slot, which must be an empty group under the width; `deltas` has the sizes from the slot on.
    // The reply has the sizes from the next slot on, and that slot.
    fn place_immediates(
        self,
        b: usize,
        deltas: u64,
        slot: usize,
        groups: &mut [u64; 8],
    ) -> Result<Item<u64>, Refusal>
        requires { (slot ≤ self.width) × (groups.old ≡ fitted 8 (take slot groups.old)) }
        ensures { Placing self.entry.width self.entry.table.now b (immediates self.entry.table.now (ops_in self.entry)) groups.old slot deltas groups.new result }
    {
        let table = self.table;
        let mut left = deltas;
        let mut next = slot;
        // A value is looked up where it is an immediate: with a `zip` of both runs decode took 1.3 times the instructions on lists without any.
        for (i, code) in self.codes.iter().enumerate() {
            if !operation::has_immediate(table, *code) {
                continue;
            }
            if self.width <= next {
                return Err(Refusal::NoSlot { batch: b });
            }
            if left % 16 != 0 {
                return Err(Refusal::SlotTaken { batch: b });
            }
            groups[next] = self.values[i];
            left /= 16;
            next += 1;
        }
        Ok(Item { item: left, next })
    }

    // The group numbers of a batch whose operations start at `at`: each non-empty group's number, and its immediates in the slots right after it.
    // The reply has the group count, and the place after the batch's operations.
    fn decode_groups(
        self,
        b: usize,
        at: usize,
        deltas: u64,
        groups: &mut [u64; 8],
    ) -> Result<Item<usize>, Refusal>
        requires { (groups.old ≡ fitted 8 []) × (at + total (digits 16 self.width deltas) ≤ length self.codes.now) × (up_to 9 (digits 16 self.width deltas) ≡ true) }
        ensures { Staged length (λ (vs : List ℕ) (end : ℕ). (groups.new ≡ fitted 8 vs) × (length vs ≤ self.entry.width) × (end ≤ length self.entry.codes.now)) (slots self.entry.table.now b (digits 16 self.entry.width deltas) [] (ops_in self.entry) at) result }
    {
        let mut left = deltas;
        let mut from = at;
        let mut count: usize = 0;
        let mut g: usize = 0;
        // no `for`: a group is followed by the slots of its immediates
        while g < self.width {
            let n = (left % 16) as usize;
            left /= 16;
            if n == 0 {
                g += 1;
                continue;
            }
            let end = from + n;
            let group = Ops {
                width: self.width,
                table: self.table,
                codes: &self.codes[from..end],
                values: &self.values[from..end],
            };
            groups[g] = op_batch::group_number(group.codes);
            let placed = group.place_immediates(b, left, g + 1, groups)?;
            left = placed.item;
            from = end;
            count = placed.next;
            g = placed.next;
        }
        Ok(Item {
            item: count,
            next: from,
        })
    }

    // The b-th batch, of these sizes and flags, in the operations from `at` on; its record goes to the b-th place of the records.
    pub fn decode_batch(
        self,
        deltas: u64,
        flags: u8,
        b: usize,
        at: usize,
        records: &mut [u8],
    ) -> Result<Item<usize>, Refusal>
        requires at_in_bounds { (at ≤ length self.codes.now) × (record_size * b + record_size ≤ length records.old) }
        requires sizes { RightSizes self.width deltas }
        ensures { Staged (λ (r : Record). r.count) (λ (r : Record) (end : ℕ). (records.new ≡ record_set b r records.old) × (length (record_bytes r) ≡ record_size) × (end ≤ length self.entry.codes.now)) (batch_at self.entry.width self.entry.table.now (ops_in self.entry) at b (digits 16 8 deltas) (digits 2 8 flags)) result }
    {
        if self.codes.len() - at < operations_in(deltas) {
            return Err(Refusal::PastOperations { batch: b });
        }
        let mut groups = [0; 8];
        let count = self.decode_groups(b, at, deltas, &mut groups)?;
        op_batch::store_packed(deltas, flags, &groups, count.item as u8, records, b);
        let arena = Arena {
            codes: self.codes,
            values: self.values,
            records,
        };
        arena.batch_padding(b, at)?;
        Ok(count)
    }
}
