// What a C program, or one in another language, calls: each function of `exports` under its own name, with its clauses. A slice crosses as a pointer
// and then a length in elements.
#![tactic(auto)]

ghost use Rattle.std.specs.Prelude.{◌≡◌, ◌/◌, length};
ghost use Rattle.rules.specs.Record.{record_at};
ghost use Rattle.rules.specs.Block.{Room};
ghost use Rattle.rules.specs.Lookups.{raw_at, padded_at, padded_index, raw_index};
ghost use Rattle.rules.specs.Functions.{arena, built, encoded, decoded, strictly_decoded, compared, headed, structure_checked, padding_checked, commitment_checked, raw_tabled, padded_tabled, group_lookup, next_lookup};
ghost use Rattle.comparison.specs.Replies.{side, room_for};
ghost use Rattle.crossing.specs.Words.{words_in};
ghost use Rattle.exports.specs.Replies.{Builds, Writes, Reads, head_reply, Compares, check_reply, Tables, padded_reply, raw_reply, one_record, whole_words, in_whole, BuildsBytes, ReadsBytes, TablesBytes, group_reply, next_reply};

use exports::{
    BuildReply, CheckReply, CompareReply, DecodeReply, EncodeReply, GroupReply, HeadReply,
    IndexReply, NextReply, TableReply,
};

#[unsafe(no_mangle)]
pub extern "C" fn oli_build(
    table: &[u8],
    codes: &[u8],
    values: &[u64],
    out_codes: &mut [u8],
    out_values: &mut [u64],
    records: &mut [u8],
) -> BuildReply
    ensures { Builds (built 8 table.now codes.now values.now) result (arena out_codes.old out_values.old records.old) (arena out_codes.new out_values.new records.new) }
{
    exports::oli_build(table, codes, values, out_codes, out_values, records)
}

#[unsafe(no_mangle)]
pub extern "C" fn oli_encode(
    table: &[u8],
    codes: &[u8],
    values: &[u64],
    records: &[u8],
    out: &mut [u8],
    at: usize,
) -> EncodeReply
    ensures { Writes (encoded 8 table.now (arena codes.now values.now records.now) (length out.old) at) at result out.old out.new }
{
    exports::oli_encode(table, codes, values, records, out, at)
}

#[unsafe(no_mangle)]
pub extern "C" fn oli_decode(
    table: &[u8],
    bytes: &[u8],
    at: usize,
    out_codes: &mut [u8],
    out_values: &mut [u64],
    records: &mut [u8],
) -> DecodeReply
    ensures { Reads (decoded 8 table.now bytes.now at) at result (arena out_codes.old out_values.old records.old) (arena out_codes.new out_values.new records.new) }
{
    exports::oli_decode(table, bytes, at, out_codes, out_values, records)
}

#[unsafe(no_mangle)]
pub extern "C" fn oli_decode_strict(
    table: &[u8],
    bytes: &[u8],
    at: usize,
    out_codes: &mut [u8],
    out_values: &mut [u64],
    records: &mut [u8],
) -> DecodeReply
    ensures { Reads (strictly_decoded 8 table.now bytes.now at) at result (arena out_codes.old out_values.old records.old) (arena out_codes.new out_values.new records.new) }
{
    exports::oli_decode_strict(table, bytes, at, out_codes, out_values, records)
}

#[unsafe(no_mangle)]
pub extern "C" fn oli_head(table: &[u8], bytes: &[u8], at: usize) -> HeadReply
    ensures { result ≡ head_reply (headed table.now bytes.now at) }
{
    exports::oli_head(table, bytes, at)
}

#[unsafe(no_mangle)]
pub extern "C" fn oli_compare(
    first_table: &[u8],
    first: &[u8],
    first_at: usize,
    second_table: &[u8],
    second: &[u8],
    second_at: usize,
    first_codes: &mut [u8],
    first_values: &mut [u64],
    first_records: &mut [u8],
    second_codes: &mut [u8],
    second_values: &mut [u64],
    second_records: &mut [u8],
    report: &mut [i32],
) -> CompareReply
    ensures { Compares (compared 8 (side first_table.now first.now first_at (arena first_codes.old first_values.old first_records.old)) (side second_table.now second.now second_at (arena second_codes.old second_values.old second_records.old)) (room_for report.old)) result (arena first_codes.old first_values.old first_records.old) (arena first_codes.new first_values.new first_records.new) (arena second_codes.old second_values.old second_records.old) (arena second_codes.new second_values.new second_records.new) report.old report.new }
{
    exports::oli_compare(
        first_table,
        first,
        first_at,
        second_table,
        second,
        second_at,
        first_codes,
        first_values,
        first_records,
        second_codes,
        second_values,
        second_records,
        report,
    )
}

#[unsafe(no_mangle)]
pub extern "C" fn oli_structure(codes: &[u8], values: &[u64], records: &[u8]) -> CheckReply
    ensures { result ≡ check_reply (structure_checked 8 (arena codes.now values.now records.now)) }
{
    exports::oli_structure(codes, values, records)
}

#[unsafe(no_mangle)]
pub extern "C" fn oli_padding(codes: &[u8], values: &[u64], records: &[u8]) -> CheckReply
    ensures { result ≡ check_reply (padding_checked 8 (arena codes.now values.now records.now)) }
{
    exports::oli_padding(codes, values, records)
}

#[unsafe(no_mangle)]
pub extern "C" fn oli_commitment(
    table: &[u8],
    codes: &[u8],
    values: &[u64],
    records: &[u8],
) -> CheckReply
    ensures { result ≡ check_reply (commitment_checked 8 table.now (arena codes.now values.now records.now)) }
{
    exports::oli_commitment(table, codes, values, records)
}

#[unsafe(no_mangle)]
pub extern "C" fn oli_raw_table(
    codes: &[u8],
    values: &[u64],
    records: &[u8],
    out: &mut [u64],
) -> TableReply
    ensures { Tables (raw_tabled 8 (arena codes.now values.now records.now) (length out.old)) result out.old out.new }
{
    exports::oli_raw_table(codes, values, records, out)
}

#[unsafe(no_mangle)]
pub extern "C" fn oli_padded_table(
    codes: &[u8],
    values: &[u64],
    records: &[u8],
    out: &mut [u64],
) -> TableReply
    ensures { Tables (padded_tabled 8 (arena codes.now values.now records.now) (length out.old)) result out.old out.new }
{
    exports::oli_padded_table(codes, values, records, out)
}

#[unsafe(no_mangle)]
pub extern "C" fn oli_padded_index(table: &[u64], raw: usize) -> IndexReply
    ensures { result ≡ padded_reply (padded_index table.now (raw_at raw)) }
{
    exports::oli_padded_index(table, raw)
}

#[unsafe(no_mangle)]
pub extern "C" fn oli_raw_index(table: &[u64], padded: usize) -> IndexReply
    ensures { result ≡ raw_reply (raw_index table.now (padded_at padded)) }
{
    exports::oli_raw_index(table, padded)
}

#[unsafe(no_mangle)]
pub extern "C" fn oli_group(run: &[u8], index: usize) -> GroupReply
    ensures { result ≡ group_reply (one_record run.now (group_lookup 8 (record_at run.now 0) index)) }
{
    exports::oli_group(run, index)
}

#[unsafe(no_mangle)]
pub extern "C" fn oli_next_group(run: &[u8], group: usize) -> NextReply
    ensures { result ≡ next_reply (one_record run.now (next_lookup 8 (record_at run.now 0) group)) }
{
    exports::oli_next_group(run, group)
}

#[unsafe(no_mangle)]
pub extern "C" fn oli_build_le(
    table: &[u8],
    codes: &[u8],
    values: &[u8],
    out_codes: &mut [u8],
    out_values: &mut [u8],
    records: &mut [u8],
) -> BuildReply
    ensures { BuildsBytes (λ (room : Room). whole_words values.now (built 8 table.now codes.now (words_in values.now) room)) result (arena out_codes.old out_values.old records.old) (arena out_codes.new out_values.new records.new) }
{
    exports::oli_build_le(table, codes, values, out_codes, out_values, records)
}

#[unsafe(no_mangle)]
pub extern "C" fn oli_encode_le(
    table: &[u8],
    codes: &[u8],
    values: &[u8],
    records: &[u8],
    out: &mut [u8],
    at: usize,
) -> EncodeReply
    ensures { Writes (whole_words values.now (encoded 8 table.now (arena codes.now (words_in values.now) records.now) (length out.old) at)) at result out.old out.new }
{
    exports::oli_encode_le(table, codes, values, records, out, at)
}

#[unsafe(no_mangle)]
pub extern "C" fn oli_decode_le(
    table: &[u8],
    bytes: &[u8],
    at: usize,
    out_codes: &mut [u8],
    out_values: &mut [u8],
    records: &mut [u8],
) -> DecodeReply
    ensures { ReadsBytes (decoded 8 table.now bytes.now at) at result (arena out_codes.old out_values.old records.old) (arena out_codes.new out_values.new records.new) }
{
    exports::oli_decode_le(table, bytes, at, out_codes, out_values, records)
}

#[unsafe(no_mangle)]
pub extern "C" fn oli_decode_strict_le(
    table: &[u8],
    bytes: &[u8],
    at: usize,
    out_codes: &mut [u8],
    out_values: &mut [u8],
    records: &mut [u8],
) -> DecodeReply
    ensures { ReadsBytes (strictly_decoded 8 table.now bytes.now at) at result (arena out_codes.old out_values.old records.old) (arena out_codes.new out_values.new records.new) }
{
    exports::oli_decode_strict_le(table, bytes, at, out_codes, out_values, records)
}

#[unsafe(no_mangle)]
pub extern "C" fn oli_structure_le(codes: &[u8], values: &[u8], records: &[u8]) -> CheckReply
    ensures { result ≡ check_reply (whole_words values.now (structure_checked 8 (arena codes.now (words_in values.now) records.now))) }
{
    exports::oli_structure_le(codes, values, records)
}

#[unsafe(no_mangle)]
pub extern "C" fn oli_padding_le(codes: &[u8], values: &[u8], records: &[u8]) -> CheckReply
    ensures { result ≡ check_reply (whole_words values.now (padding_checked 8 (arena codes.now (words_in values.now) records.now))) }
{
    exports::oli_padding_le(codes, values, records)
}

#[unsafe(no_mangle)]
pub extern "C" fn oli_commitment_le(
    table: &[u8],
    codes: &[u8],
    values: &[u8],
    records: &[u8],
) -> CheckReply
    ensures { result ≡ check_reply (whole_words values.now (commitment_checked 8 table.now (arena codes.now (words_in values.now) records.now))) }
{
    exports::oli_commitment_le(table, codes, values, records)
}

#[unsafe(no_mangle)]
pub extern "C" fn oli_raw_table_le(
    codes: &[u8],
    values: &[u8],
    records: &[u8],
    out: &mut [u8],
) -> TableReply
    ensures { TablesBytes (whole_words values.now (raw_tabled 8 (arena codes.now (words_in values.now) records.now) (length out.old / 8))) result out.old out.new }
{
    exports::oli_raw_table_le(codes, values, records, out)
}

#[unsafe(no_mangle)]
pub extern "C" fn oli_padded_table_le(
    codes: &[u8],
    values: &[u8],
    records: &[u8],
    out: &mut [u8],
) -> TableReply
    ensures { TablesBytes (whole_words values.now (padded_tabled 8 (arena codes.now (words_in values.now) records.now) (length out.old / 8))) result out.old out.new }
{
    exports::oli_padded_table_le(codes, values, records, out)
}

#[unsafe(no_mangle)]
pub extern "C" fn oli_padded_index_le(table: &[u8], raw: usize) -> IndexReply
    ensures { result ≡ padded_reply (in_whole table.now (padded_index (words_in table.now) (raw_at raw))) }
{
    exports::oli_padded_index_le(table, raw)
}

#[unsafe(no_mangle)]
pub extern "C" fn oli_raw_index_le(table: &[u8], padded: usize) -> IndexReply
    ensures { result ≡ raw_reply (in_whole table.now (raw_index (words_in table.now) (padded_at padded))) }
{
    exports::oli_raw_index_le(table, padded)
}
