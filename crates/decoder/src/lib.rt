// The block decoder (document 01, "Block bytes").
#![tactic(auto)]

ghost use Rattle.std.specs.Prelude.{◌≡◌, List, ℕ, ◌+◌, ◌*◌, ◌≤◌, ◌<◌, length};
ghost use Rattle.rules.specs.Digits.{le_at};
ghost use Rattle.rules.specs.Operations.{Op};
ghost use Rattle.rules.specs.Record.{Record, record_size};
ghost use Rattle.rules.specs.Bytes.{ops_at, nibbles_at};
ghost use Rattle.rules.specs.Block.{Head, batches_at, block_at};
ghost use Rattle.rules.specs.Functions.{arena, room_in, decoded};
ghost use Rattle.refusal.specs.Told.{told};
ghost use Rattle.wire.specs.Stages.{after, Staged, Passed};
ghost use Rattle.unpacker.specs.Groups.{RightSizes};
ghost use Rattle.unpacker.specs.Ops.{ops_in};
ghost use Rattle.decoder.specs.Replies.{Decodes};
ghost use Rattle.decoder.specs.Stages.{Reading, tailless};
ghost use Rattle.decoder.specs.Stages.{OpsIn, RecordsIn, items_at, records_at, sizes_from, flags_from};

use refusal::Refusal;
use unpacker::Ops;
use wire::Item;

// A block: how many batches and padded operations, and how many bytes it took.
#[derive(Clone, Copy, Debug, Default, PartialEq, Eq)]
pub struct Decoded {
    pub batches: usize,
    pub operations: usize,
    pub used: usize,
}

// ---- items 2 and 3: operations and batch count

// n operations from `at` on, into the first places of two lent runs. What a refusal leaves in them is not said, here and below. The runs to be written come
// one by one, here and below: a struct of three `&mut` would make each function say besides that the references are the same. They are written by place: a loop
// over two of them side by side leaves only their lengths to a proof.
fn read_ops(
    table: &[u8; 128],
    s: &[u8],
    at: usize,
    n: usize,
    out_codes: &mut [u8],
    out_values: &mut [u64],
) -> Result<usize, Refusal>
    requires { (n ≤ length out_codes.old) × (n ≤ length out_values.old) }
    ensures { Passed (λ (xs : List Op) (next : ℕ). OpsIn out_codes.new out_values.new xs) (ops_at table.now s.now n at 0) result }
{
    let mut next = at;
    for i in 0..n {
        let op = wire::read_op(table, s, next, i)?;
        out_codes[i] = op.item.code;
        out_values[i] = op.item.value;
        next = op.next;
    }
    Ok(next)
}

// n operations from `at` on, and the batch count after them, where there is room for so many records.
fn read_items(
    table: &[u8; 128],
    s: &[u8],
    at: usize,
    n: usize,
    room: usize,
    out_codes: &mut [u8],
    out_values: &mut [u64],
) -> Result<Item<u64>, Refusal>
    requires { (n ≤ length out_codes.old) × (n ≤ length out_values.old) }
    ensures { Staged (λ (h : Head). h.batches) (λ (h : Head) (next : ℕ). OpsIn out_codes.new out_values.new h.ops) (items_at table.now s.now n at room) result }
{
    let next = read_ops(table, s, at, n, out_codes, out_values)?;
    let batches = wire::read_batch_count(s, next)?;
    if (room as u64) < batches.item {
        return Err(Refusal::NoRoom);
    }
    Ok(batches)
}

// ---- item 4: all nibbles. At width 8 no nibble is refused for its place, and no flag byte at all: what looks at these bytes, here and in `decode_batches`, is
// for that width.

// Whether none of the sizes of k batches, four bytes each from `at` on, is over 9.
fn nibbles_right(s: &[u8], at: usize, k: usize) -> Result<usize, Refusal>
    requires { at + 4 * k ≤ length s.now }
    ensures { told result ≡ after (nibbles_at 8 s.now k at 0) }
{
    for b in 0..k {
        if !wire::deltas_right(word::le::<4>(s, at + 4 * b)) {
            return Err(Refusal::BadNibble { batch: b });
        }
    }
    Ok(at + 4 * k)
}

// ---- the batches

// The batches in these operations, one after the other: k batches, their sizes from `sizes` on and their flags from `flags` on. By b, which is the place of a
// refusal and of the record.
fn decode_each(
    ops: Ops<'_>,
    s: &[u8],
    sizes: usize,
    flags: usize,
    k: usize,
    records: &mut [u8],
) -> Result<usize, Refusal>
    requires k_in_bounds { (sizes + 4 * k ≤ length s.now) × (flags + k ≤ length s.now) × (record_size * k ≤ length records.old) }
    requires right { (b : ℕ) → b < k → RightSizes ops.width (le_at 4 s.now (sizes + 4 * b)) }
    ensures { Passed (λ (rs : List Record) (end : ℕ). (length rs ≡ k) × RecordsIn records.new rs) (batches_at ops.entry.width ops.entry.table.now (ops_in ops.entry) (sizes_from k s.now sizes) (flags_from k s.now flags)) result }
{
    let mut next = 0;
    for b in 0..k {
        let batch = ops.decode_batch(
            word::le::<4>(s, sizes + 4 * b),
            s[flags + b],
            b,
            next,
            records,
        )?;
        next = batch.next;
    }
    Ok(next)
}

// Items 4 and 5 from `at` on, all nibbles first, and the batches that they say, which take all operations.
fn decode_batches(
    ops: Ops<'_>,
    s: &[u8],
    at: usize,
    k: usize,
    records: &mut [u8],
) -> Result<usize, Refusal>
    requires { (ops.width ≡ 8) × (at + 5 * k ≤ length s.now) × (record_size * k ≤ length records.old) }
    ensures { Passed (λ (rs : List Record) (end : ℕ). (length rs ≡ k) × RecordsIn records.new rs × (at ≤ end)) (records_at ops.entry.width ops.entry.table.now s.now (ops_in ops.entry) k at) result }
{
    let flags = nibbles_right(s, at, k)?;
    let end = decode_each(ops, s, at, flags, k, records)?;
    if end < ops.codes.len() {
        return Err(Refusal::LeftOver);
    }
    Ok(flags + k)
}

// ---- the block

fn decode_block(
    table: &[u8; 128],
    s: &[u8],
    at: usize,
    out_codes: &mut [u8],
    out_values: &mut [u64],
    records: &mut [u8],
) -> Result<Decoded, Refusal>
    ensures { Reading at (block_at 8 table.now s.now at (room_in (arena out_codes.old out_values.old records.old))) (arena out_codes.new out_values.new records.new) result }
{
    let count = wire::read_count(s, at)?;
    let n = count.item as usize;
    if out_codes.len() < n || out_values.len() < n {
        return Err(Refusal::NoRoom);
    }
    let room = records.len() / op_batch::RECORD;
    let batches = read_items(table, s, count.next, n, room, out_codes, out_values)?;
    let k = batches.item as usize;
    let ops = Ops {
        width: op_batch::WIDTH,
        table,
        codes: &out_codes[..n],
        values: &out_values[..n],
    };
    let end = decode_batches(ops, s, batches.next, k, records)?;
    Ok(Decoded {
        batches: k,
        operations: n,
        used: end - at,
    })
}

// What is looked at first: 3, 14 and 1.
fn decode_checked(
    table: &[u8],
    s: &[u8],
    at: usize,
    out_codes: &mut [u8],
    out_values: &mut [u64],
    records: &mut [u8],
) -> Result<Decoded, Refusal>
    ensures { Reading at (decoded 8 table.now s.now at (room_in (arena out_codes.old out_values.old records.old))) (arena out_codes.new out_values.new records.new) result }
{
    let table = wire::opened(table, s.len(), at)?;
    decode_block(table, s, at, out_codes, out_values, records)
}

// Zeros after the first n operations and the first m bytes of records.
pub fn clear_after(
    out_codes: &mut [u8],
    out_values: &mut [u64],
    records: &mut [u8],
    n: usize,
    m: usize,
)
    ensures { arena out_codes.new out_values.new records.new ≡ tailless n m (arena out_codes.old out_values.old records.old) }
{
    word::clear_after(out_codes, out_values, records, n, m);
}

// The block in `s` from `at` on, into lent runs for opcodes, values and records: content, then zeros; zeros alone where it is refused.
// The runs come one by one, as the C interface lends them.
pub fn decode(
    table: &[u8],
    s: &[u8],
    at: usize,
    out_codes: &mut [u8],
    out_values: &mut [u64],
    records: &mut [u8],
) -> Result<Decoded, Refusal>
    ensures { Decodes table.now s.now at (arena out_codes.old out_values.old records.old) (arena out_codes.new out_values.new records.new) result }
{
    let r = decode_checked(table, s, at, out_codes, out_values, records);
    let made = r.unwrap_or_default();
    clear_after(
        out_codes,
        out_values,
        records,
        made.operations,
        op_batch::RECORD * made.batches,
    );
    r
}
