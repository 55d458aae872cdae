// The public entry of the batcher (document 01, "Numbers of refusal", build): refusals 3, 14, 12, 4 or 17 (M-101), and 13.
#![tactic(auto)]

ghost use Rattle.std.specs.Prelude.{◌≡◌, ◌&&◌, ◌/◌, leb};
ghost use Rattle.rules.specs.Record.{record_size, no_block};
ghost use Rattle.rules.specs.Functions.{arena, room_in, filled, built};
ghost use Rattle.batcher.specs.Batched.{Batched};
ghost use Rattle.build.specs.Outcome.{Outcome};
ghost use Rattle.build.specs.Checked.{Checked, left_of};

use batcher::Input;
pub use batcher::Totals;
use refusal::Refusal;

// The longest list.
const MOST: usize = 16384;

// The checks of the input that come before its operations, in order.
fn check_input<'a>(
    table: &'a [u8],
    codes: &'a [u8],
    values: &'a [u64],
) -> Result<Input<'a>, Refusal>
    ensures { Checked table.now codes.now values.now result }
{
    if codes.len() != values.len() || MOST < codes.len() {
        return Err(Refusal::OverLimit);
    }
    let table = operation::checked(table)?;
    if codes.is_empty() {
        return Err(Refusal::EmptyList);
    }
    Ok(Input {
        width: op_batch::WIDTH,
        table,
        codes,
        values,
    })
}

// Whether runs of these lengths hold so much.
fn room_for(totals: Totals, codes: usize, values: usize, records: usize) -> bool
    ensures { result ≡ (leb totals.operations codes && (leb totals.operations values && leb totals.batches (records / record_size))) }
{
    totals.operations <= codes
        && totals.operations <= values
        && totals.batches <= records / op_batch::RECORD
}

// All of the three runs 0.
fn clear(codes: &mut [u8], values: &mut [u64], records: &mut [u8])
    ensures { arena codes.new values.new records.new ≡ filled (arena codes.old values.old records.old) no_block }
{
    word::clear_after(codes, values, records, 0, 0);
}

// The batches of a list, written to runs that are all zero. What a refusal leaves there is not said.
fn batch(
    input: Input<'_>,
    codes: &mut [u8],
    values: &mut [u64],
    records: &mut [u8],
) -> Result<Totals, Refusal>
    requires { arena codes.old values.old records.old ≡ filled (arena codes.old values.old records.old) no_block }
    ensures { Batched (left_of input.entry (room_in (arena codes.old values.old records.old))) result (arena codes.old values.old records.old) (arena codes.new values.new records.new) }
{
    let totals = input.batch_ops(codes, values, records)?;
    if room_for(totals, codes.len(), values.len(), records.len()) {
        Ok(totals)
    } else {
        Err(Refusal::NoRoom)
    }
}

// The list in batches, written to the lent runs, with zeros after it; or a refusal, and all of them 0.
// The runs come one by one, as the C interface lends them, here and where they are handed on.
pub fn build(
    table: &[u8],
    codes: &[u8],
    values: &[u64],
    out_codes: &mut [u8],
    out_values: &mut [u64],
    records: &mut [u8],
) -> Result<Totals, Refusal>
    ensures { Outcome (built 8 table.now codes.now values.now) result (arena out_codes.old out_values.old records.old) (arena out_codes.new out_values.new records.new) }
{
    clear(out_codes, out_values, records);
    let input = check_input(table, codes, values)?;
    let made = batch(input, out_codes, out_values, records);
    if made.is_err() {
        clear(out_codes, out_values, records);
    }
    made
}
