// Records in a lent run of bytes, to be written.
ghost use Rattle.std.specs.Prelude.{◌^◌, ◌<◌};

// The b-th record of a run, to be written. What the run has no room for falls away.
#[derive(Drop)]
pub struct RecordMut<'a> {
    pub records: &'a mut [u8],
    pub b: usize,
    pub ghost low: { b < 2 ^ 20 },
}
