// A block to be written.
ghost use Rattle.std.specs.Prelude.{◌≡◌, true, ℕ, ◌/◌, ◌≤◌, ◌<◌, length, All};
ghost use Rattle.rules.specs.Record.{record_size, record_at};
ghost use Rattle.rules.specs.Checks.{record_right};

use checks::Arena;

// Its table and the arena it lies in, within the limits, with opcodes that the table knows and records that pass the structure test.
#[derive(Clone, Copy)]
pub struct Input<'a> {
    pub table: &'a [u8; 128],
    pub arena: Arena<'a>,
    pub ghost even: { length arena.codes.now ≡ length arena.values.now },
    pub ghost few: { (length arena.codes.now ≤ 65535) × (length arena.records.now / record_size ≤ 16384) },
    pub ghost known: { All (λ c. c < 128) arena.codes.now },
    pub ghost right: { (b : ℕ) → b < length arena.records.now / record_size → record_right 8 (record_at arena.records.now b) ≡ true },
}
