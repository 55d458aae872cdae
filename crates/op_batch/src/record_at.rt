// Records in a lent run of bytes.
ghost use Rattle.std.specs.Prelude.{◌+◌, ◌*◌, ◌≤◌, length};
ghost use Rattle.rules.specs.Record.{record_size};

// The b-th record of a run. Walks over a run go by b and not by an iterator of records: b is the place of a refusal, or of what is written.
#[derive(Clone, Copy)]
pub struct RecordAt<'a> {
    pub records: &'a [u8],
    pub b: usize,
    pub ghost whole: { record_size * b + record_size ≤ length records.now },
}
