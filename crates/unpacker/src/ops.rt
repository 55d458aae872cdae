// Operations to unpack.
ghost use Rattle.std.specs.Prelude.{◌≡◌, ◌≤◌, length};
ghost use Rattle.unpacker.specs.Coded.{Coded};

// Opcodes and as many values beside them, their table, and how many groups a batch may have.
#[derive(Clone, Copy)]
pub struct Ops<'a> {
    pub width: usize,
    pub table: &'a [u8; 128],
    pub codes: &'a [u8],
    pub values: &'a [u64],
    pub ghost low: { width ≤ 8 },
    pub ghost even: { length codes.now ≡ length values.now },
    pub ghost coded: { Coded codes.now },
}
