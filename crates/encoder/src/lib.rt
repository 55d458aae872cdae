// The block encoder (document 01, "Block bytes").
#![tactic(auto)]

ghost use Rattle.std.specs.Prelude.{◌≡◌, ◌+◌, ◌*◌, ◌/◌, ◌≤◌, ◌<◌, length, IfOk, IfErr};
ghost use Rattle.std.proofs.lemmas.List.Edits.{sets};
ghost use Rattle.rules.specs.Answer.{refused};
ghost use Rattle.rules.specs.Operations.{operations};
ghost use Rattle.rules.specs.Record.{record_size, records_in};
ghost use Rattle.rules.specs.Bytes.{ops_bytes, nibble_bytes, flag_bytes};
ghost use Rattle.rules.specs.Functions.{encoded};
ghost use Rattle.refusal.specs.Told.{number_of, place_of};
ghost use Rattle.checks.specs.Arena.{lying};
ghost use Rattle.encoder.specs.Replies.{Encodes};
ghost use Rattle.encoder.specs.Parts.{op_size, ops_size, ops_of, bytes_of, left_of};

use checks::Arena;
use input::Input;
use op_batch::{RECORD, RecordAt, WIDTH};
use refusal::Refusal;

mod input;

// How many bytes an operation takes. listing says the same of the virtual machine's own opcodes, which need no table.
#[tactic(auto, unfolding(rules::specs::Operations::valued))]
fn op_len(table: &[u8; 128], code: u8) -> usize
    requires { code < 128 }
    ensures { result ≡ op_size table.now code }
{
    if operation::has_value(table, code) {
        9
    } else {
        1
    }
}

impl<'a> Input<'a> {
    // 3, 14, 1, 15, and 4 or 17 (M-101), for a buffer of this size.
    #[tactic(auto, using(crate::proofs::Ways::encoded_3))]
    fn checked(
        table: &'a [u8],
        arena: Arena<'a>,
        size: usize,
        at: usize,
    ) -> Result<Input<'a>, Refusal>
        ensures ok { IfOk result (λ i. (at ≤ size) × (encoded 8 table.now (lying arena.entry) size at ≡ left_of i size at)) }
        ensures err { IfErr result (λ r. encoded 8 table.now (lying arena.entry) size at ≡ refused (number_of r) (place_of r)) }
    {
        if !arena.within() {
            return Err(Refusal::OverLimit);
        }
        let table = wire::opened(table, size, at)?;
        arena.structure_fault(WIDTH)?;
        operation::first_fault(table, arena.codes, arena.values)?;
        Ok(Input { table, arena })
    }

    fn batches(self) -> usize
        ensures { result ≡ length self.entry.arena.records.now / record_size }
    {
        self.arena.records.len() / RECORD
    }

    // ---- the length

    fn ops_len(self) -> usize
        ensures { result ≡ ops_size self.entry.table.now self.entry.arena.codes.now }
    {
        self.arena
            .codes
            .iter()
            .map(|&c| op_len(self.table, c))
            .sum()
    }

    // How many bytes the block takes: 5 per batch, plus 4, plus the count's, plus 1 or 9 per operation.
    fn basic_block_data_len(self) -> usize
        ensures { result ≡ length (bytes_of self.entry) }
    {
        5 * self.batches() + 4 + wire::count_size(self.arena.codes.len() as u64) + self.ops_len()
    }

    // ---- the bytes, each item stored from `at` on; and the place after it, where another item follows

    fn write_ops(self, out: &mut [u8], at: usize) -> usize
        requires { at + length (ops_of self) ≤ length out.old }
        ensures place { result ≡ at + length (ops_of self.entry) }
        ensures bytes { out.new ≡ sets out.old at (ops_of self.entry) }
    {
        let mut from = at;
        for (code, value) in self.arena.codes.iter().zip(self.arena.values.iter()) {
            from = wire::write_op(self.table, out, from, *code, *value);
        }
        from
    }

    // The differences of each record's starts.
    fn write_deltas(self, out: &mut [u8], at: usize) -> usize
        requires { at + 4 * (length self.arena.records.now / record_size) ≤ length out.old }
        ensures place { result ≡ at + 4 * (length self.entry.arena.records.now / record_size) }
        ensures bytes { out.new ≡ sets out.old at (nibble_bytes (records_in self.entry.arena.records.now)) }
    {
        let records = self.arena.records;
        let n = self.batches();
        for b in 0..n {
            word::put::<4>(
                out,
                at + 4 * b,
                RecordAt { records, b }.pack_indptr_deltas(),
            );
        }
        at + 4 * n
    }

    // Each record's flags.
    fn write_padding(self, out: &mut [u8], at: usize)
        requires { at + length self.arena.records.now / record_size ≤ length out.old }
        ensures { out.new ≡ sets out.old at (flag_bytes (records_in self.entry.arena.records.now)) }
    {
        let records = self.arena.records;
        for b in 0..self.batches() {
            out[at + b] = RecordAt { records, b }.pack_padding();
        }
    }

    // The five items, one after the other.
    #[tactic(auto, using(crate::proofs::Items::block_length, crate::proofs::Items::ops_length))]
    fn encode_basic_block(self, out: &mut [u8], at: usize)
        requires { at + length (bytes_of self) ≤ length out.old }
        ensures { out.new ≡ sets out.old at (bytes_of self.entry) }
    {
        let ops = wire::write_count(out, at, self.arena.codes.len() as u64);
        let batches = self.write_ops(out, ops);
        word::put::<4>(out, batches, self.batches() as u64);
        let flags = self.write_deltas(out, batches + 4);
        self.write_padding(out, flags);
    }
}

// The block in an arena, into `out` from `at` on; and how many bytes it takes. A refused one writes no byte.
pub fn encode(table: &[u8], arena: Arena<'_>, out: &mut [u8], at: usize) -> Result<usize, Refusal>
    ensures { Encodes table.now (lying arena.entry) at out.old out.new result }
{
    let input = Input::checked(table, arena, out.len(), at)?;
    let length = input.basic_block_data_len();
    if out.len() - at < length {
        return Err(Refusal::NoRoom);
    }
    input.encode_basic_block(out, at);
    Ok(length)
}
