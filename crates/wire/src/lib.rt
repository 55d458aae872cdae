// The items of a block's bytes (document 01, "Block bytes"): count, operation and batch count, each read and written, and the test of nibbles.
#![tactic(auto)]

ghost use Rattle.std.specs.Prelude.{◌≡◌, true, IfOk, ◌+◌, ◌/◌, ◌^◌, ◌≤◌, ◌<◌, length};
ghost use Rattle.std.proofs.lemmas.List.Edits.{sets};
ghost use Rattle.rules.specs.Digits.{digits, number, le_at};
ghost use Rattle.rules.specs.Bytes.{count_at, least, more, count_bytes, op_at, op_bytes, batch_count_at, up_to};
ghost use Rattle.rules.specs.Operations.{good_table};
ghost use Rattle.refusal.specs.Told.{told_by};
ghost use Rattle.operation.specs.Verdict.{op};
ghost use Rattle.wire.specs.Replies.{count_told, op_told};
ghost use Rattle.wire.specs.Opened.{opened};

use operation::Kind;
use refusal::Refusal;

// The most bytes that a block is read from or written to.
pub const MOST_BYTES: usize = 1048576;

// What is looked at before a block is read or written: 3, 14 and 1, for so many bytes and a place to begin at. The table comes back as one of 128 kinds.
pub fn opened(table: &[u8], size: usize, at: usize) -> Result<&[u8; 128], Refusal>
    ensures kinds { IfOk result (λ kinds. (kinds.now ≡ table.now) × (good_table table.now ≡ true)) }
    ensures bounds { IfOk result (λ kinds. (size ≤ 1048576) × (at ≤ size)) }
    ensures answer { told_by (λ kinds. tt) result ≡ opened table.now size at }
{
    if MOST_BYTES < size {
        return Err(Refusal::OverLimit);
    }
    let table = operation::checked(table)?;
    if size < at {
        return Err(Refusal::PastEnd);
    }
    Ok(table)
}

// What was read, and the place after it; in the unpacker, what is found of a batch and where its walk goes on.
#[derive(Clone, Copy, Debug, PartialEq, Eq)]
pub struct Item<T> {
    pub item: T,
    pub next: usize,
}

// An opcode, and its value.
#[derive(Clone, Copy, Debug, PartialEq, Eq)]
pub struct Op {
    pub code: u8,
    pub value: u64,
}

// ---- 1. the count

// The number in the t + 1 bytes from `at`.
fn number_in(s: &[u8], at: usize, t: u32) -> u64
    requires { (t ≤ 2) × (at + t < length s.now) }
    ensures { result ≡ le_at (t + 1) s.now at / 2 ^ (t + 1) }
{
    match t {
        0 => u64::from(s[at]) / 2,
        1 => word::le::<2>(s, at) / 4,
        _ => (word::le::<2>(s, at) + 65536 * u64::from(s[at + 2])) / 8,
    }
}

// The least number whose shortest form has t + 1 bytes.
fn lowest(t: u32) -> u64
    requires { t ≤ 2 }
    ensures { result ≡ least t }
{
    match t {
        0 => 0,
        1 => 128,
        _ => 16384,
    }
}

// The count at `at`: the number as it is read; who goes by it turns it into a place, which it fits.
pub fn read_count(s: &[u8], at: usize) -> Result<Item<u64>, Refusal>
    ensures { count_told result ≡ count_at s.now at }
{
    if s.len() <= at {
        return Err(Refusal::CutShort { byte: at });
    }
    let t = s[at].trailing_zeros();
    if 2 < t {
        return Err(Refusal::OverLimit);
    }
    let k = t as usize;
    if s.len() - at <= k {
        return Err(Refusal::CutShort { byte: at });
    }
    let value = number_in(s, at, t);
    if value < lowest(t) {
        return Err(Refusal::OverLimit);
    }
    if 65535 < value {
        return Err(Refusal::OverLimit);
    }
    Ok(Item {
        item: value,
        next: at + k + 1,
    })
}

// How many bytes the count v takes.
pub fn count_size(v: u64) -> usize
    ensures { result ≡ more v + 1 }
{
    if v < 128 {
        1
    } else if v < 16384 {
        2
    } else {
        3
    }
}

// The count v, stored from `at` on; and the place after it.
pub fn write_count(out: &mut [u8], at: usize, v: u64) -> usize
    requires { (v ≤ 65535) × (at + more v < length out.old) }
    ensures { (result ≡ at + more v + 1) × (out.new ≡ sets out.old at (count_bytes v)) }
{
    if v < 128 {
        out[at] = (v * 2 + 1) as u8;
        return at + 1;
    }
    if v < 16384 {
        word::put::<2>(out, at, v * 4 + 2);
        return at + 2;
    }
    word::put::<2>(out, at, v * 8 + 4);
    out[at + 2] = ((v * 8 + 4) / 65536) as u8;
    at + 3
}

// ---- 2. one operation

// The operation at `at`, which is the i-th: its opcode is looked at first, then whether its value's bytes are there, then its value.
#[inline(always)]
pub fn read_op(table: &[u8; 128], s: &[u8], at: usize, i: usize) -> Result<Item<Op>, Refusal>
    ensures { op_told result ≡ op_at table.now s.now at i }
{
    if s.len() <= at {
        return Err(Refusal::CutShort { byte: at });
    }
    let code = s[at];
    if 128 <= code {
        return Err(Refusal::Unassigned { operation: i });
    }
    match Kind::from(table[code as usize]) {
        Kind::Unassigned => return Err(Refusal::Unassigned { operation: i }),
        Kind::Plain => {
            return Ok(Item {
                item: Op { code, value: 0 },
                next: at + 1,
            });
        }
        Kind::Placed | Kind::Carried => {}
    }
    if s.len() - at < 9 {
        return Err(Refusal::CutShort { byte: at });
    }
    let value = word::le::<8>(s, at + 1);
    if operation::FIELD <= value {
        return Err(Refusal::BadValue { operation: i });
    }
    Ok(Item {
        item: Op { code, value },
        next: at + 9,
    })
}

// An operation, stored from `at` on; and the place after it.
pub fn write_op(table: &[u8; 128], out: &mut [u8], at: usize, code: u8, v: u64) -> usize
    requires { (code < 128) × (at + length (op_bytes table.now (op code v)) ≤ length out.old) }
    ensures { (result ≡ at + length (op_bytes table.now (op code v))) × (out.new ≡ sets out.old at (op_bytes table.now (op code v))) }
{
    out[at] = code;
    if !operation::has_value(table, code) {
        return at + 1;
    }
    word::put::<8>(out, at + 1, v);
    at + 9
}

// ---- 3. the batch count

pub fn read_batch_count(s: &[u8], at: usize) -> Result<Item<u64>, Refusal>
    ensures { count_told result ≡ batch_count_at s.now at }
{
    if s.len() <= at || s.len() - at < 4 {
        return Err(Refusal::CutShort { byte: at });
    }
    let value = word::le::<4>(s, at);
    let room = (s.len() - (at + 4)) / 5;
    if (room as u64) < value {
        return Err(Refusal::TooManyBatches);
    }
    if 16384 < value {
        return Err(Refusal::OverLimit);
    }
    Ok(Item {
        item: value,
        next: at + 4,
    })
}

// ---- 4. nibbles: eight sizes in four bytes

// Whether none of v's eight nibbles is over 9. Taken off one by one: by `word::digits`, of eight at once, decode took 1.2 to 1.3 of its time.
pub fn deltas_right(v: u64) -> bool
    ensures { result ≡ up_to 9 (digits 16 8 v) }
{
    let mut left = v;
    for _i in 0..8usize {
        if 9 < left % 16 {
            return false;
        }
        left /= 16;
    }
    true
}
