// A reader that keeps the lent bytes and its place in them, over the proved functions on a slice and a number.
#![tactic(auto)]

ghost use Rattle.std.specs.Prelude.{◌≡◌};
ghost use Rattle.rules.specs.Functions.{count_here, op_here};
ghost use Rattle.wire.specs.Replies.{count_told, op_told};

use refusal::Refusal;
use wire::{Item, Op};

#[derive(Clone, Copy)]
pub struct Reader<'a> {
    pub src: &'a [u8],
    pub at: usize,
}

impl<'a> Reader<'a> {
    // The count at the reader's place.
    pub fn count(self) -> Result<Item<u64>, Refusal>
        ensures { count_told result ≡ count_here self.entry.src.now self.entry.at }
    {
        if wire::MOST_BYTES < self.src.len() {
            return Err(Refusal::OverLimit);
        }
        if self.src.len() < self.at {
            return Err(Refusal::PastEnd);
        }
        wire::read_count(self.src, self.at)
    }

    // The operation at the reader's place, the i-th.
    pub fn op(self, table: &[u8], i: usize) -> Result<Item<Op>, Refusal>
        ensures { op_told result ≡ op_here table.now self.entry.src.now self.entry.at i }
    {
        let table = wire::opened(table, self.src.len(), self.at)?;
        wire::read_op(table, self.src, self.at, i)
    }
}
