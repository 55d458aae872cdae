// finished FILE...: for each file one line that says whether the block that it starts with is finished (M-107), one that batching its own operations
// makes; where it is not, what is wrong with it, or what is different first. The line starts with `finished` or with `not finished`.
#![tactic(auto)]

ghost use Rattle.std.specs.Prelude.{◌≤◌, ◌<◌, IfSome};

use console::{Count, Filled, Page, quote_name};
use listing::{After, Runs};
use op_batch::OpBatch;
use refusal::Refusal;
use space::{List, Room};
use std::fmt;
use std::fmt::Write;
use std::fs::File;
use std::io::Error;

// What is said is printed a line at a time to a page, which can fail; a Display would hold the runs, or take a type for each part of a sentence.

// ---- a group of a batch

// Whether it is under the group count, how many operations of the list it has, whether a padding follows them, and its flag. Two that are not there
// are held against each other all the same, so this is no Option.
#[derive(Clone, Copy, PartialEq, Eq)]
struct Group {
    there: bool,
    own: usize,
    padded: bool,
    flag: u8,
}

impl Group {
    fn at(batch: &OpBatch, g: usize) -> Group
        requires { g < 8 }
    {
        let size = usize::from(batch.starts[g + 1].saturating_sub(batch.starts[g]));
        let flag = batch.flags[g];
        let padded = flag != 0 && size != 0;
        Group {
            there: g < usize::from(batch.count),
            own: if padded { size - 1 } else { size },
            padded,
            flag,
        }
    }
}

// ---- the block's own list: its operations without flagged padding

// A list, and how many operations more there were than it has room for.
#[derive(Drop)]
struct Own {
    list: List,
    more: usize,
}

impl Own {
    fn count(&self) -> usize {
        self.more.wrapping_add(self.list.codes().len())
    }

    // The n operations from one place on.
    fn push_ops(&mut self, runs: Runs, from: usize, n: usize) {
        for i in 0..n {
            let at = from.wrapping_add(i);
            let code = runs.codes.get(at).copied().unwrap_or(0);
            let value = runs.values.get(at).copied().unwrap_or(0);
            if self.list.push(code, value).is_err() {
                self.more = self.more.wrapping_add(1);
            }
        }
    }

    // Those of a batch, which begin at `first`.
    fn push_batch(&mut self, runs: Runs, batch: &OpBatch, first: usize) {
        let mut from = first;
        for g in 0..8 {
            let group = Group::at(batch, g);
            self.push_ops(runs, from, group.own);
            from = from
                .wrapping_add(group.own)
                .wrapping_add(usize::from(group.padded));
        }
    }

    // Those of so many batches.
    fn push_batches(&mut self, runs: Runs, batches: usize) {
        let mut from: usize = 0;
        for b in 0..batches {
            let batch = runs.record(b);
            self.push_batch(runs, &batch, from);
            from = from.wrapping_add(usize::from(batch.starts[8]));
        }
    }
}

// ---- the first difference of two batches

// The first group that differs.
fn first_difference(batch: &OpBatch, made: &OpBatch) -> Option<usize>
    ensures { IfSome result (λ g. g < 8) }
{
    (0..8).find(|g| Group::at(batch, *g) != Group::at(made, *g))
}

// What a group that is there has. That it holds a value alone can't be asked: the groups before it are the same on both sides, and so are their slots.
impl fmt::Display for Group {
    fn fmt<W: fmt::Write>(&self, f: &mut fmt::Formatter<W>) -> fmt::Result {
        let operations = Count::of(self.own, "operation", "operations");
        match (self.own, self.padded) {
            (0, false) => write!(f, "only a value"),
            (0, true) => write!(f, "only a padding"),
            (_, false) => write!(f, "{operations}"),
            (_, true) => write!(f, "{operations} and a padding"),
        }
    }
}

// What the block has at group g. An empty group that differs is no value's slot: those follow from the operations before it, which do not differ.
fn print_group(page: &mut Page, g: usize, group: Group) -> fmt::Result {
    if !group.there {
        write!(page, "the batch ends before group {g}")
    } else if group.own == 0 && !group.padded {
        write!(page, "group {g} is empty and holds no value")
    } else {
        write!(page, "group {g} holds {group}")
    }
}

// What the batcher has there.
fn print_made(page: &mut Page, made: Group) -> fmt::Result {
    if made.there {
        write!(page, ", the batcher puts {made} there")
    } else {
        write!(page, ", the batcher ends the batch before it")
    }
}

// How two batches differ first, at group g. Where neither has it, its flag alone differs; where only the batcher has it and puts no operations of the
// list there, the batcher goes on with padding alone.
fn print_at(page: &mut Page, batch: &OpBatch, made: &OpBatch, g: usize) -> fmt::Result
    requires { g < 8 }
{
    let count = Count::of(usize::from(batch.count), "group", "groups");
    let x = Group::at(batch, g);
    let y = Group::at(made, g);
    if !x.there && !y.there {
        return write!(page, "group {g} is flagged, and the batch has only {count}");
    }
    if !x.there && y.own == 0 {
        return write!(
            page,
            "the batch has {count}, the batcher fills it up to {}",
            made.count
        );
    }
    print_group(page, g, x)?;
    print_made(page, y)
}

// True of every block that is refused so.
const UNLIKE: &str = "batching the block's own operations gives another batch";

fn print_difference(page: &mut Page, batch: &OpBatch, made: &OpBatch) -> fmt::Result {
    match first_difference(batch, made) {
        Some(g) => print_at(page, batch, made, g),
        None => write!(page, "{UNLIKE}"),
    }
}

// ---- what is different in a block that is not finished

// A batch is held against the one that batching the block's own list gives at its place. The room takes what is batched.
fn print_batch(
    page: &mut Page,
    list: &List,
    batch: &OpBatch,
    place: usize,
    room: &mut Room,
) -> fmt::Result {
    write!(page, " at batch {place}: ")?;
    if batch.starts[8] == 0 {
        return write!(page, "an empty batch");
    }
    match build::build(
        &vm::table(),
        list.codes(),
        list.values(),
        &mut room.codes,
        &mut room.values,
        &mut room.records,
    ) {
        Ok(made) if made.batches <= place => write!(
            page,
            "an extra batch, batching the block's own operations gives only {}",
            made.batches
        ),
        Ok(_) => print_difference(page, batch, &Runs::from(&*room).record(place)),
        Err(_) => write!(page, "{UNLIKE}"),
    }
}

// The block is read once more, since a strict read that is refused leaves nothing of it.
fn print_why(page: &mut Page, s: &[u8], place: usize, room: &mut Room) -> fmt::Result {
    let Ok(made) = decoder::decode(
        &vm::table(),
        s,
        0,
        &mut room.codes,
        &mut room.values,
        &mut room.records,
    ) else {
        return write!(page, ": {UNLIKE}");
    };
    let runs = Runs::from(&*room);
    let mut own = Own {
        list: List::new(),
        more: 0,
    };
    own.push_batches(runs, made.batches);
    match own.count() {
        0 => write!(page, ": the block has no operations of its own"),
        1..=16384 => print_batch(page, &own.list, &runs.record(place), place, room),
        n => write!(
            page,
            ": the block's own list has {n} operations, more than 16384"
        ),
    }
}

// ---- a file's line

// How many bytes follow those that were used, where there are any.
fn after(read: Filled, used: usize) -> After {
    match (read, read.bytes().len().saturating_sub(used)) {
        (_, 0) => After::Unasked,
        (Filled::Whole(_), n) => After::Bytes(n),
        (Filled::Full(_), n) => After::AtLeast(n),
    }
}

// The first bytes of a file, as many as a block may have.
fn check_bytes(page: &mut Page, path: &[u8], read: Filled) -> fmt::Result {
    let s = read.bytes();
    let mut room = Room::new();
    match strict::decode_strict(
        &vm::table(),
        s,
        0,
        &mut room.codes,
        &mut room.values,
        &mut room.records,
    ) {
        Ok(made) => {
            write!(page, "finished {}: ", quote_name(path))?;
            listing::write_totals(page, &room.records, made, after(read, made.used))
        }
        Err(refusal) => {
            write!(page, "not finished {}: ", quote_name(path))?;
            listing::write_numbered(page, s, 0, refusal)?;
            match refusal {
                Refusal::Unfinished { batch } => print_why(page, s, batch, &mut room)?,
                _ => write!(page, ": {refusal}")?,
            }
            writeln!(page)
        }
    }
}

// ---- files

// No block is found in it.
fn unread(page: &mut Page, path: &[u8], error: Error) -> fmt::Result {
    writeln!(
        page,
        "not finished {}: {}",
        quote_name(path),
        console::why_unread(error)
    )
}

// Never drawn into its caller, so that the room is cleared, and so much of the stack reached, for a file that could be opened and for no other.
#[inline(never)]
fn check_open(page: &mut Page, path: &[u8], file: &mut File) -> fmt::Result {
    let mut room = space::bytes();
    match console::read(file, &mut room) {
        Ok(read) => check_bytes(page, path, read),
        Err(error) => unread(page, path, error),
    }
}

fn check_file(rt: HostRuntime, page: &mut Page, path: &[u8]) -> fmt::Result {
    match console::open(rt, path) {
        Ok(mut file) => check_open(page, path, &mut file),
        Err(error) => unread(page, path, error),
    }
}

// ---- arguments

const HELP: &str =
    "finished FILE...: says for each file, in one line, whether the block that it starts with is finished: whether batching the block's own\noperations (flagged padding dropped), under the virtual machine's own table, writes those very bytes.\nThe line starts with `finished`, and has the block's totals and how many bytes follow it, if any do; or it starts with `not finished`, and has\nthe number of the refusal, where it is and what is wrong: 18 where the block can be read and is not finished, with the first batch that is\ndifferent and what is different there. A file that cannot be read has a line too, without a number. A list has at most 16384 operations.\n";

// The i-th argument.
fn check_argument(rt: HostRuntime, page: &mut Page, i: usize) -> fmt::Result {
    let mut name = [0u8; 4096];
    match console::argument_bytes(rt, i, &mut name) {
        None => writeln!(page, "not finished: the name of file {i} is too long"),
        Some(path) if path == b"--help".as_slice() => write!(page, "{HELP}"),
        Some(path) => check_file(rt, page, path),
    }
}

// Where standard output takes nothing, each file is read all the same.
fn check_arguments(rt: HostRuntime, page: &mut Page, count: usize) {
    for i in 1..count {
        let _ = check_argument(rt, page, i);
        let _ = page.flush();
    }
}

fn main(rt: HostRuntime) {
    let count = console::arguments(rt);
    if count < 2 {
        return console::tell_text(rt, "usage: finished FILE... (finished --help says more)\n");
    }
    let mut page = Page::output(rt);
    check_arguments(rt, &mut page, count);
}
