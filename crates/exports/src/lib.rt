// What a Rust or C program calls, the latter through exports_c: the public functions over numbers and slices, with replies as plain structs. In each
// reply number 0 means that nothing was refused; a refusal has every length and total 0. The C interface has numbers for what was refused and found, and
// a block's opcodes, values and records as runs of their own: a call makes an `Arena` of them.
#![tactic(auto)]

ghost use Rattle.std.specs.Prelude.{◌≡◌, true, false, cond, Some, None, ◌*◌, ◌/◌, ◌≤◌, min, max, length};
ghost use Rattle.std.specs.Fn.{CalledAt};
ghost use Rattle.rules.specs.Digits.{le_at};
ghost use Rattle.rules.specs.Answer.{good, refused};
ghost use Rattle.rules.specs.Refusals.{over_limit₃};
ghost use Rattle.rules.specs.Record.{record_at, no_block};
ghost use Rattle.rules.specs.Block.{Room};
ghost use Rattle.rules.specs.Lookups.{raw_at, padded_at, padded_index, raw_index};
ghost use Rattle.rules.specs.Functions.{arena, built, encoded, decoded, strictly_decoded, compared, headed, structure_checked, padding_checked, commitment_checked, raw_tabled, padded_tabled, group_lookup, next_lookup};
ghost use Rattle.refusal.specs.Told.{told, told_by};
ghost use Rattle.op_batch.specs.RecordAt.{recorded};
ghost use Rattle.comparison.specs.Replies as marked;
ghost use Rattle.comparison.specs.Replies.{side, room_for};
ghost use Rattle.crossing.specs.Words.{words_in, few_words, has_word};
ghost use Rattle.exports.specs.Replies.{Builds, Writes, Reads, head_reply, Compares, check_reply, Tables, padded_reply, raw_reply, one_record, whole_words, in_whole, filled_bytes, BuildsBytes, ReadsBytes, TablesBytes, group_reply, next_reply};
ghost use Rattle.exports.specs.Through.{ReadThrough, FillThrough};
ghost use Rattle.exports.specs.Flat.{flat_built, flat_encoded, flat_decoded, flat_headed, flat_compared, flat_tabled, flat_index, flat_group, flat_next};

use build::Totals;
use checks::Arena;
use comparison::Refused;
use decoder::Decoded;
use head::Headed;
use op_batch::{Place, RecordAt};
use prefix::{PaddedIndex, RawIndex};
use refusal::Refusal;

// C reads each reply by its own name, also those with the same fields.
//
// A refusal in a reply; every length and total is 0. A macro, since no trait names a field.
macro_rules! refused {
    ($reply:ident, $r:expr) => {
        $reply {
            number: $r.number(),
            place: $r.place(),
            ..$reply::default()
        }
    };
}

#[repr(C)]
#[derive(Clone, Copy, Default)]
pub struct BuildReply {
    pub number: u8,
    pub place: usize,
    pub batches: usize,
    pub operations: usize,
}

impl From<Result<Totals, Refusal>> for BuildReply {
    ghost from_gives = { λ r reply. reply ≡ flat_built (told r) };

    fn from(r: Result<Totals, Refusal>) -> BuildReply {
        match r {
            Ok(t) => BuildReply {
                batches: t.batches,
                operations: t.operations,
                ..BuildReply::default()
            },
            Err(r) => refused!(BuildReply, r),
        }
    }
}

#[repr(C)]
#[derive(Clone, Copy, Default)]
pub struct EncodeReply {
    pub number: u8,
    pub place: usize,
    pub length: usize,
}

impl From<Result<usize, Refusal>> for EncodeReply {
    ghost from_gives = { λ r reply. reply ≡ flat_encoded (told r) };

    fn from(r: Result<usize, Refusal>) -> EncodeReply {
        match r {
            Ok(length) => EncodeReply {
                length,
                ..EncodeReply::default()
            },
            Err(r) => refused!(EncodeReply, r),
        }
    }
}

#[repr(C)]
#[derive(Clone, Copy, Default)]
pub struct DecodeReply {
    pub number: u8,
    pub place: usize,
    pub batches: usize,
    pub operations: usize,
    pub used: usize,
}

impl From<Result<Decoded, Refusal>> for DecodeReply {
    ghost from_gives = { λ r reply. reply ≡ flat_decoded (told r) };

    fn from(r: Result<Decoded, Refusal>) -> DecodeReply {
        match r {
            Ok(d) => DecodeReply {
                batches: d.batches,
                operations: d.operations,
                used: d.used,
                ..DecodeReply::default()
            },
            Err(r) => refused!(DecodeReply, r),
        }
    }
}

#[repr(C)]
#[derive(Clone, Copy, Default)]
pub struct HeadReply {
    pub number: u8,
    pub place: usize,
    pub batches: usize,
    pub operations: usize,
}

impl From<Result<Headed, Refusal>> for HeadReply {
    ghost from_gives = { λ r reply. reply ≡ flat_headed (told r) };

    fn from(r: Result<Headed, Refusal>) -> HeadReply {
        match r {
            Ok(h) => HeadReply {
                batches: h.batches,
                operations: h.operations,
                ..HeadReply::default()
            },
            Err(r) => refused!(HeadReply, r),
        }
    }
}

#[repr(C)]
#[derive(Clone, Copy, Default)]
pub struct CompareReply {
    pub mark: u8,
    pub number: u8,
    pub place: usize,
    pub entries: usize,
}

impl From<Result<usize, Refused>> for CompareReply {
    ghost from_gives = { λ r reply. reply ≡ flat_compared (marked.told r) };

    fn from(r: Result<usize, Refused>) -> CompareReply {
        match r {
            Ok(entries) => CompareReply {
                entries,
                ..CompareReply::default()
            },
            Err(r) => CompareReply {
                mark: r.mark(),
                number: r.refusal().number(),
                place: r.refusal().place(),
                ..CompareReply::default()
            },
        }
    }
}

#[repr(C)]
#[derive(Clone, Copy, Default)]
pub struct CheckReply {
    pub number: u8,
    pub place: usize,
}

impl From<Result<(), Refusal>> for CheckReply {
    ghost from_gives = { λ r reply. reply ≡ check_reply (told r) };

    fn from(r: Result<(), Refusal>) -> CheckReply {
        match r {
            Ok(()) => CheckReply::default(),
            Err(r) => refused!(CheckReply, r),
        }
    }
}

#[repr(C)]
#[derive(Clone, Copy, Default)]
pub struct TableReply {
    pub number: u8,
    pub place: usize,
    pub entries: usize,
}

impl From<Result<usize, Refusal>> for TableReply {
    ghost from_gives = { λ r reply. reply ≡ flat_tabled (told r) };

    fn from(r: Result<usize, Refusal>) -> TableReply {
        match r {
            Ok(entries) => TableReply {
                entries,
                ..TableReply::default()
            },
            Err(r) => refused!(TableReply, r),
        }
    }
}

#[repr(C)]
#[derive(Clone, Copy, Default)]
pub struct IndexReply {
    pub found: u8,
    pub index: usize,
}

impl From<Option<usize>> for IndexReply {
    ghost from_gives = { λ i reply. reply ≡ flat_index i };

    fn from(i: Option<usize>) -> IndexReply {
        match i {
            Some(index) => IndexReply { found: 1, index },
            None => IndexReply::default(),
        }
    }
}

#[repr(C)]
#[derive(Clone, Copy, Default)]
pub struct GroupReply {
    pub number: u8,
    pub place: usize,
    pub found: u8,
    pub group: usize,
    pub position: usize,
}

impl From<Result<Option<Place>, Refusal>> for GroupReply {
    ghost from_gives = { λ r reply. reply ≡ flat_group (told r) };

    fn from(r: Result<Option<Place>, Refusal>) -> GroupReply {
        match r {
            Ok(Some(p)) => GroupReply {
                found: 1,
                group: p.group,
                position: p.place,
                ..GroupReply::default()
            },
            Ok(None) => GroupReply::default(),
            Err(r) => refused!(GroupReply, r),
        }
    }
}

#[repr(C)]
#[derive(Clone, Copy, Default)]
pub struct NextReply {
    pub number: u8,
    pub place: usize,
    pub found: u8,
    pub group: usize,
}

impl From<Result<Option<usize>, Refusal>> for NextReply {
    ghost from_gives = { λ r reply. reply ≡ flat_next (told r) };

    fn from(r: Result<Option<usize>, Refusal>) -> NextReply {
        match r {
            Ok(Some(group)) => NextReply {
                found: 1,
                group,
                ..NextReply::default()
            },
            Ok(None) => NextReply::default(),
            Err(r) => refused!(NextReply, r),
        }
    }
}

// ---- batching

#[tactic(auto, unfolding(rules::specs::Record::no_block))]
pub fn oli_build(
    table: &[u8],
    codes: &[u8],
    values: &[u64],
    out_codes: &mut [u8],
    out_values: &mut [u64],
    records: &mut [u8],
) -> BuildReply
    ensures { Builds (built 8 table.now codes.now values.now) result (arena out_codes.old out_values.old records.old) (arena out_codes.new out_values.new records.new) }
{
    build::build(table, codes, values, out_codes, out_values, records).into()
}

// ---- a block's bytes

pub fn oli_encode(
    table: &[u8],
    codes: &[u8],
    values: &[u64],
    records: &[u8],
    out: &mut [u8],
    at: usize,
) -> EncodeReply
    ensures { Writes (encoded 8 table.now (arena codes.now values.now records.now) (length out.old) at) at result out.old out.new }
{
    let arena = Arena {
        codes,
        values,
        records,
    };
    encoder::encode(table, arena, out, at).into()
}

#[tactic(auto, unfolding(rules::specs::Record::no_block))]
pub fn oli_decode(
    table: &[u8],
    bytes: &[u8],
    at: usize,
    out_codes: &mut [u8],
    out_values: &mut [u64],
    records: &mut [u8],
) -> DecodeReply
    ensures { Reads (decoded 8 table.now bytes.now at) at result (arena out_codes.old out_values.old records.old) (arena out_codes.new out_values.new records.new) }
{
    decoder::decode(table, bytes, at, out_codes, out_values, records).into()
}

// Finished blocks only (M-107).
#[tactic(auto, unfolding(rules::specs::Record::no_block))]
pub fn oli_decode_strict(
    table: &[u8],
    bytes: &[u8],
    at: usize,
    out_codes: &mut [u8],
    out_values: &mut [u64],
    records: &mut [u8],
) -> DecodeReply
    ensures { Reads (strictly_decoded 8 table.now bytes.now at) at result (arena out_codes.old out_values.old records.old) (arena out_codes.new out_values.new records.new) }
{
    strict::decode_strict(table, bytes, at, out_codes, out_values, records).into()
}

// How much room decode needs for the block from `at` on.
pub fn oli_head(table: &[u8], bytes: &[u8], at: usize) -> HeadReply
    ensures { result ≡ head_reply (headed table.now bytes.now at) }
{
    head::head(table, bytes, at).into()
}

// ---- two blocks

// How they differ (M-105). The mark says whose refusal it is: 1 the first block's, 2 the second's, 0 that of a report too short.
pub fn oli_compare(
    first_table: &[u8],
    first: &[u8],
    first_at: usize,
    second_table: &[u8],
    second: &[u8],
    second_at: usize,
    first_codes: &mut [u8],
    first_values: &mut [u64],
    first_records: &mut [u8],
    second_codes: &mut [u8],
    second_values: &mut [u64],
    second_records: &mut [u8],
    report: &mut [i32],
) -> CompareReply
    ensures { Compares (compared 8 (side first_table.now first.now first_at (arena first_codes.old first_values.old first_records.old)) (side second_table.now second.now second_at (arena second_codes.old second_values.old second_records.old)) (room_for report.old)) result (arena first_codes.old first_values.old first_records.old) (arena first_codes.new first_values.new first_records.new) (arena second_codes.old second_values.old second_records.old) (arena second_codes.new second_values.new second_records.new) report.old report.new }
{
    comparison::compare(
        first_table,
        first,
        first_at,
        second_table,
        second,
        second_at,
        first_codes,
        first_values,
        first_records,
        second_codes,
        second_values,
        second_records,
        report,
    )
    .into()
}

// ---- checks

pub fn oli_structure(codes: &[u8], values: &[u64], records: &[u8]) -> CheckReply
    ensures { result ≡ check_reply (structure_checked 8 (arena codes.now values.now records.now)) }
{
    let arena = Arena {
        codes,
        values,
        records,
    };
    arena.structure().into()
}

pub fn oli_padding(codes: &[u8], values: &[u64], records: &[u8]) -> CheckReply
    ensures { result ≡ check_reply (padding_checked 8 (arena codes.now values.now records.now)) }
{
    let arena = Arena {
        codes,
        values,
        records,
    };
    arena.padding().into()
}

pub fn oli_commitment(table: &[u8], codes: &[u8], values: &[u64], records: &[u8]) -> CheckReply
    ensures { result ≡ check_reply (commitment_checked 8 table.now (arena codes.now values.now records.now)) }
{
    let arena = Arena {
        codes,
        values,
        records,
    };
    commitment::commitment(table, arena).into()
}

// ---- index tables

pub fn oli_raw_table(codes: &[u8], values: &[u64], records: &[u8], out: &mut [u64]) -> TableReply
    ensures { Tables (raw_tabled 8 (arena codes.now values.now records.now) (length out.old)) result out.old out.new }
{
    let arena = Arena {
        codes,
        values,
        records,
    };
    prefix::raw_to_padded(arena, out).into()
}

pub fn oli_padded_table(codes: &[u8], values: &[u64], records: &[u8], out: &mut [u64]) -> TableReply
    ensures { Tables (padded_tabled 8 (arena codes.now values.now records.now) (length out.old)) result out.old out.new }
{
    let arena = Arena {
        codes,
        values,
        records,
    };
    prefix::padded_to_raw(arena, out).into()
}

pub fn oli_padded_index(table: &[u64], raw: usize) -> IndexReply
    ensures { result ≡ padded_reply (padded_index table.now (raw_at raw)) }
{
    prefix::raw_to_padded_index(table, RawIndex(raw))
        .map(|i| i.0)
        .into()
}

pub fn oli_raw_index(table: &[u64], padded: usize) -> IndexReply
    ensures { result ≡ raw_reply (raw_index table.now (padded_at padded)) }
{
    prefix::padded_to_raw_index(table, PaddedIndex(padded))
        .map(|i| i.0)
        .into()
}

// ---- lookups in one batch

// Where the one record of a run lies. It is loaded by who asks, since a `Result` of its 82 bytes would be copied on the way.
#[tactic(auto, unfolding(crate::specs::Replies::one_record))]
fn one_record(run: &[u8]) -> Result<RecordAt<'_>, Refusal>
    ensures { told_by recorded result ≡ one_record run.now (good (record_at run.now 0)) }
{
    if run.len() != op_batch::RECORD {
        return Err(Refusal::OverLimit);
    }
    Ok(RecordAt { records: run, b: 0 })
}

#[tactic(auto, unfolding(crate::specs::Replies::one_record))]
pub fn oli_group(run: &[u8], index: usize) -> GroupReply
    ensures { result ≡ group_reply (one_record run.now (group_lookup 8 (record_at run.now 0) index)) }
{
    one_record(run)
        .and_then(|record| record.load().op_idx_in_batch_to_group(index))
        .into()
}

#[tactic(auto, unfolding(crate::specs::Replies::one_record))]
pub fn oli_next_group(run: &[u8], group: usize) -> NextReply
    ensures { result ≡ next_reply (one_record run.now (next_lookup 8 (record_at run.now 0) group)) }
{
    one_record(run)
        .and_then(|record| record.load().next_op_group_index(group))
        .into()
}

// ---- the same functions with runs of 64-bit numbers as little-endian bytes, eight to a number
//
// An input that is not whole numbers is refused with 3, and a lookup in one finds nothing. Of an output only whole numbers are room; the bytes left
// over are zeroed too. Numbers go through work space on the stack, of three lengths: the first that is long enough. `.._through` is never drawn into its
// caller, so that a call with few numbers does not reach so far down the stack.
// A closure that writes to what it captured goes by `&mut`: so what it left there is known after the call.

#[tactic(auto, unfolding(crate::specs::Replies::filled_bytes, rules::specs::Record::no_block, rules::specs::Operations::codes, rules::specs::Operations::values, rules::specs::Lists::in_row))]
fn clear(out_codes: &mut [u8], out_values: &mut [u8], records: &mut [u8])
    ensures { arena out_codes.new out_values.new records.new ≡ filled_bytes (arena out_codes.old out_values.old records.old) no_block }
{
    word::clear_after(out_codes, out_values, records, 0, 0);
}

// What fills a run from numbers, both as bytes.
#[inline(never)]
fn fill_through<const N: usize, R, F>(values: &[u8], fill: &mut F, out: &mut [u8]) -> R
where
    F: FnMut(&[u64], &mut [u64]) -> R,
    requires call { F.IsAlwaysCallable fill.old }
    requires room { (max (length values.now / 8) (min (length out.old / 8) 65536) ≤ N) × (N ≤ 65536) }
    ensures { FillThrough F.FnMut fill.old (words_in values.now) result fill.new out.old out.new }
{
    let mut numbers = [0; N];
    let mut work = [0; N];
    let numbers = &mut numbers[..values.len() / 8];
    let work = &mut work[..crossing::lent(out.len())];
    crossing::read_words(values, numbers);
    let r = fill(numbers, work);
    crossing::bytes_out(work, out);
    r
}

#[tactic(auto, using(crate::proofs::Whole::few))]
fn fill_le<R, F>(values: &[u8], fill: &mut F, out: &mut [u8]) -> R
where
    F: FnMut(&[u64], &mut [u64]) -> R,
    requires call { F.IsAlwaysCallable fill.old }
    requires few { few_words values.now ≡ true }
    ensures { FillThrough F.FnMut fill.old (words_in values.now) result fill.new out.old out.new }
{
    let n = (values.len() / 8).max(crossing::lent(out.len()));
    if n <= crossing::SMALL {
        fill_through::<{ crossing::SMALL }, R, F>(values, fill, out)
    } else if n <= crossing::MIDDLE {
        fill_through::<{ crossing::MIDDLE }, R, F>(values, fill, out)
    } else {
        fill_through::<{ crossing::LARGE }, R, F>(values, fill, out)
    }
}

pub fn oli_build_le(
    table: &[u8],
    codes: &[u8],
    values: &[u8],
    out_codes: &mut [u8],
    out_values: &mut [u8],
    records: &mut [u8],
) -> BuildReply
    ensures { BuildsBytes (λ (room : Room). whole_words values.now (built 8 table.now codes.now (words_in values.now) room)) result (arena out_codes.old out_values.old records.old) (arena out_codes.new out_values.new records.new) }
{
    if !crossing::few_words(values) {
        clear(out_codes, out_values, records);
        return BuildReply::from(Err(Refusal::OverLimit));
    }
    fill_le(
        values,
        &mut |numbers, work| oli_build(table, codes, numbers, out_codes, work, records),
        out_values,
    )
}

// What reads numbers, the numbers as bytes.
#[inline(never)]
fn numbers_through<const N: usize, R, F>(values: &[u8], read: &mut F) -> R
where
    F: FnMut(&[u64]) -> R,
    requires call { F.IsAlwaysCallable read.old }
    requires room { (length values.now / 8 ≤ N) × (N ≤ 65536) }
    ensures { CalledAt F.FnMut read.old (words_in values.now) result read.new }
{
    let mut numbers = [0; N];
    let numbers = &mut numbers[..values.len() / 8];
    crossing::read_words(values, numbers);
    read(numbers)
}

#[tactic(auto, using(crate::proofs::Whole::few))]
fn numbers_le<R, F>(values: &[u8], read: &mut F) -> R
where
    F: FnMut(&[u64]) -> R,
    requires call { F.IsAlwaysCallable read.old }
    requires few { few_words values.now ≡ true }
    ensures { CalledAt F.FnMut read.old (words_in values.now) result read.new }
{
    let n = values.len() / 8;
    if n <= crossing::SMALL {
        numbers_through::<{ crossing::SMALL }, R, F>(values, read)
    } else if n <= crossing::MIDDLE {
        numbers_through::<{ crossing::MIDDLE }, R, F>(values, read)
    } else {
        numbers_through::<{ crossing::LARGE }, R, F>(values, read)
    }
}

pub fn oli_encode_le(
    table: &[u8],
    codes: &[u8],
    values: &[u8],
    records: &[u8],
    out: &mut [u8],
    at: usize,
) -> EncodeReply
    ensures { Writes (whole_words values.now (encoded 8 table.now (arena codes.now (words_in values.now) records.now) (length out.old) at)) at result out.old out.new }
{
    if !crossing::few_words(values) {
        return EncodeReply::from(Err(Refusal::OverLimit));
    }
    numbers_le(
        values,
        &mut |numbers| { oli_encode(table, codes, numbers, records, out, at) },
    )
}

// What fills a run with numbers, the run as bytes.
#[inline(never)]
fn read_through<const N: usize, R, F>(read: &mut F, out: &mut [u8]) -> R
where
    F: FnMut(&mut [u64]) -> R,
    requires call { F.IsAlwaysCallable read.old }
    requires room { (min (length out.old / 8) 65536 ≤ N) × (N ≤ 65536) }
    ensures { ReadThrough F.FnMut read.old result read.new out.old out.new }
{
    let mut work = [0; N];
    let work = &mut work[..crossing::lent(out.len())];
    let r = read(work);
    crossing::bytes_out(work, out);
    r
}

fn read_le<R, F>(read: &mut F, out: &mut [u8]) -> R
where
    F: FnMut(&mut [u64]) -> R,
    requires { F.IsAlwaysCallable read.old }
    ensures { ReadThrough F.FnMut read.old result read.new out.old out.new }
{
    let n = crossing::lent(out.len());
    if n <= crossing::SMALL {
        read_through::<{ crossing::SMALL }, R, F>(read, out)
    } else if n <= crossing::MIDDLE {
        read_through::<{ crossing::MIDDLE }, R, F>(read, out)
    } else {
        read_through::<{ crossing::LARGE }, R, F>(read, out)
    }
}

pub fn oli_decode_le(
    table: &[u8],
    bytes: &[u8],
    at: usize,
    out_codes: &mut [u8],
    out_values: &mut [u8],
    records: &mut [u8],
) -> DecodeReply
    ensures { ReadsBytes (decoded 8 table.now bytes.now at) at result (arena out_codes.old out_values.old records.old) (arena out_codes.new out_values.new records.new) }
{
    read_le(
        &mut |work| oli_decode(table, bytes, at, out_codes, work, records),
        out_values,
    )
}

pub fn oli_decode_strict_le(
    table: &[u8],
    bytes: &[u8],
    at: usize,
    out_codes: &mut [u8],
    out_values: &mut [u8],
    records: &mut [u8],
) -> DecodeReply
    ensures { ReadsBytes (strictly_decoded 8 table.now bytes.now at) at result (arena out_codes.old out_values.old records.old) (arena out_codes.new out_values.new records.new) }
{
    read_le(
        &mut |work| oli_decode_strict(table, bytes, at, out_codes, work, records),
        out_values,
    )
}

fn check_le<F>(values: &[u8], check: &mut F) -> CheckReply
where
    F: FnMut(&[u64]) -> CheckReply,
    requires { F.IsAlwaysCallable check.old }
    ensures few { few_words values.now ≡ true → CalledAt F.FnMut check.old (words_in values.now) result check.new }
    ensures many { few_words values.now ≡ false → result ≡ check_reply (refused over_limit₃ 0) }
{
    if !crossing::few_words(values) {
        return CheckReply::from(Err(Refusal::OverLimit));
    }
    numbers_le(values, check)
}

pub fn oli_structure_le(codes: &[u8], values: &[u8], records: &[u8]) -> CheckReply
    ensures { result ≡ check_reply (whole_words values.now (structure_checked 8 (arena codes.now (words_in values.now) records.now))) }
{
    check_le(
        values,
        &mut |numbers| oli_structure(codes, numbers, records),
    )
}

pub fn oli_padding_le(codes: &[u8], values: &[u8], records: &[u8]) -> CheckReply
    ensures { result ≡ check_reply (whole_words values.now (padding_checked 8 (arena codes.now (words_in values.now) records.now))) }
{
    check_le(values, &mut |numbers| oli_padding(codes, numbers, records))
}

pub fn oli_commitment_le(table: &[u8], codes: &[u8], values: &[u8], records: &[u8]) -> CheckReply
    ensures { result ≡ check_reply (whole_words values.now (commitment_checked 8 table.now (arena codes.now (words_in values.now) records.now))) }
{
    check_le(
        values,
        &mut |numbers| { oli_commitment(table, codes, numbers, records) },
    )
}

// A table of the numbers, its entries as bytes.
#[tactic(auto, unfolding(rules::specs::Lists::in_row))]
fn table_le<F>(values: &[u8], table: &mut F, out: &mut [u8]) -> TableReply
where
    F: FnMut(&[u64], &mut [u64]) -> TableReply,
    requires { F.IsAlwaysCallable table.old }
    ensures few { few_words values.now ≡ true → FillThrough F.FnMut table.old (words_in values.now) result table.new out.old out.new }
    ensures many { few_words values.now ≡ false → TablesBytes (refused over_limit₃ 0) result out.old out.new }
{
    if !crossing::few_words(values) {
        word::zero_after(out, 0);
        return TableReply::from(Err(Refusal::OverLimit));
    }
    fill_le(values, table, out)
}

pub fn oli_raw_table_le(codes: &[u8], values: &[u8], records: &[u8], out: &mut [u8]) -> TableReply
    ensures { TablesBytes (whole_words values.now (raw_tabled 8 (arena codes.now (words_in values.now) records.now) (length out.old / 8))) result out.old out.new }
{
    table_le(
        values,
        &mut |numbers, entries| oli_raw_table(codes, numbers, records, entries),
        out,
    )
}

pub fn oli_padded_table_le(
    codes: &[u8],
    values: &[u8],
    records: &[u8],
    out: &mut [u8],
) -> TableReply
    ensures { TablesBytes (whole_words values.now (padded_tabled 8 (arena codes.now (words_in values.now) records.now) (length out.old / 8))) result out.old out.new }
{
    table_le(
        values,
        &mut |numbers, entries| oli_padded_table(codes, numbers, records, entries),
        out,
    )
}

// An entry of a table of whole numbers.
#[tactic(auto, unfolding(crossing::specs::Words::has_word))]
fn entry_at(table: &[u8], i: usize) -> Option<u64>
    ensures { result ≡ cond (has_word table.now i) (Some (le_at 8 table.now (8 * i))) None }
{
    if !crossing::has_word(table, i) {
        return None;
    }
    Some(word::le::<8>(table, 8 * i))
}

#[tactic(auto, using(crate::proofs::Indexes::padded_lem))]
pub fn oli_padded_index_le(table: &[u8], raw: usize) -> IndexReply
    ensures { result ≡ padded_reply (in_whole table.now (padded_index (words_in table.now) (raw_at raw))) }
{
    entry_at(table, raw)
        .and_then(|entry| prefix::padded_by(entry, RawIndex(raw)))
        .map(|i| i.0)
        .into()
}

#[tactic(auto, using(crate::proofs::Indexes::raw_lem))]
pub fn oli_raw_index_le(table: &[u8], padded: usize) -> IndexReply
    ensures { result ≡ raw_reply (in_whole table.now (raw_index (words_in table.now) (padded_at padded))) }
{
    entry_at(table, padded)
        .and_then(|entry| prefix::raw_by(entry, PaddedIndex(padded)))
        .map(|i| i.0)
        .into()
}
