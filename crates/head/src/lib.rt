// How much a block needs: its head (document 01, "Block bytes", items 1 to 3) read alone, and nothing kept of its operations.
#![tactic(auto)]

ghost use Rattle.std.specs.Prelude.{◌≡◌};
ghost use Rattle.rules.specs.Bytes.{ops_at};
ghost use Rattle.rules.specs.Block.{head_at};
ghost use Rattle.rules.specs.Functions.{most, headed};
ghost use Rattle.refusal.specs.Told.{told};
ghost use Rattle.wire.specs.Stages.{after};
ghost use Rattle.head.specs.Replies.{head_of};

use refusal::Refusal;

// How many padded operations and batches the block has, and the place after its head.
#[derive(Clone, Copy, Debug, PartialEq, Eq)]
pub struct Headed {
    pub operations: usize,
    pub batches: usize,
    pub next: usize,
}

// The place after n operations from `at` on.
fn pass_ops(table: &[u8; 128], s: &[u8], at: usize, n: usize) -> Result<usize, Refusal>
    ensures { told result ≡ after (ops_at table.now s.now n at 0) }
{
    let mut next = at;
    for i in 0..n {
        next = wire::read_op(table, s, next, i)?.next;
    }
    Ok(next)
}

// Items 1 to 3. No count is over a limit, so 13 is never given.
fn read_head(table: &[u8; 128], s: &[u8], at: usize) -> Result<Headed, Refusal>
    ensures { told result ≡ head_of (head_at table.now s.now at most) }
{
    let count = wire::read_count(s, at)?;
    let operations = count.item as usize;
    let next = pass_ops(table, s, count.next, operations)?;
    let batches = wire::read_batch_count(s, next)?;
    Ok(Headed {
        operations,
        batches: batches.item as usize,
        next: batches.next,
    })
}

// The head of the block in `s` from `at` on.
pub fn head(table: &[u8], s: &[u8], at: usize) -> Result<Headed, Refusal>
    ensures { told result ≡ head_of (headed table.now s.now at) }
{
    let table = wire::opened(table, s.len(), at)?;
    read_head(table, s, at)
}
