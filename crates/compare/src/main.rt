// compare FILE FILE, compare FILE OFFSET FILE OFFSET...: how two blocks differ (M-105), a line for each difference. The first word tells which ending it
// is: `same`, `different`, or `refused` where there is nothing to compare. The lines after `different` begin with two spaces.
#![tactic(auto)]

ghost use Rattle.std.specs.Prelude.{◌+◌, ◌<◌, ◌^◌};

use comparison::{Entry, Kind, Refused, Side};
use console::{Count, Page, quote_name};
use decoder::Decoded;
use listing::Runs;
use refusal::Refusal;
use space::Room;
use std::fmt::Write;
use std::fs::File;
use std::{fmt, io};

// ---- two blocks

// What there is of each block.
#[derive(Clone, Copy, Default)]
struct Pair<T> {
    first: T,
    second: T,
}

impl<T: Copy> Pair<T> {
    fn map<U, F: Fn(T) -> U>(self, f: F) -> Pair<U>
        requires { F.IsAlwaysCallable f }
    {
        Pair {
            first: f(self.first),
            second: f(self.second),
        }
    }
}

impl<T: fmt::Display> fmt::Display for Pair<T> {
    fn fmt<W: fmt::Write>(&self, f: &mut fmt::Formatter<W>) -> fmt::Result {
        write!(f, "{} / {}", self.first, self.second)
    }
}

// Where a block stands: the file's name, and the block's byte in it.
#[derive(Clone, Copy)]
struct Source<'a> {
    path: &'a [u8],
    at: usize,
}

impl fmt::Display for Source<'_> {
    fn fmt<W: fmt::Write>(&self, f: &mut fmt::Formatter<W>) -> fmt::Result {
        match self.at {
            0 => write!(f, "{}", quote_name(self.path)),
            at => write!(f, "{} at byte {at}", quote_name(self.path)),
        }
    }
}

// A block as a refusal names it.
#[derive(Clone, Copy)]
struct Named<'a> {
    side: Side,
    source: Source<'a>,
}

impl<'a> Pair<Source<'a>> {
    fn named(self, side: Side) -> Named<'a> {
        let source = match side {
            Side::First => self.first,
            Side::Second => self.second,
        };
        Named { side, source }
    }
}

impl fmt::Display for Named<'_> {
    fn fmt<W: fmt::Write>(&self, f: &mut fmt::Formatter<W>) -> fmt::Result {
        write!(f, "the {} block, {}", self.side, self.source)
    }
}

// What a block lies in, and its totals.
#[derive(Clone, Copy)]
struct Whole<'a> {
    runs: Runs<'a>,
    made: Decoded,
}

impl Whole<'_> {
    // What it has at a batch and a group; 0 where it has nothing there.
    fn number(self, b: usize, g: usize) -> u64 {
        self.runs.record(b).groups.get(g).copied().unwrap_or(0)
    }

    fn flag(self, b: usize, g: usize) -> u8 {
        self.runs.record(b).flags.get(g).copied().unwrap_or(0)
    }

    fn length(self, b: usize, g: usize) -> u8 {
        if 8 <= g {
            return 0;
        }
        let starts = self.runs.record(b).starts;
        starts[g + 1].saturating_sub(starts[g])
    }

    fn groups(self, b: usize) -> u8 {
        self.runs.record(b).count
    }

    fn paddings(self) -> usize {
        self.runs.paddings(self.made.batches)
    }

    fn own(self) -> usize {
        self.made.operations.saturating_sub(self.paddings())
    }

    fn batch_size(self, b: usize) -> usize {
        usize::from(self.runs.record(b).starts[8])
    }

    // How many operations the batches from one up to another have.
    fn operations_between(self, from: usize, to: usize) -> usize {
        (from..to).fold(0, |n: usize, b| n.wrapping_add(self.batch_size(b)))
    }
}

// ---- the lines of two blocks

// A batch, and where its operations begin.
#[derive(Clone, Copy, Default)]
struct Begin {
    batch: usize,
    at: Pair<usize>,
}

impl Begin {
    // Where those of a later batch begin.
    fn later(self, blocks: Pair<Whole>, batch: usize) -> Begin {
        let more = blocks.map(|block| block.operations_between(self.batch, batch));
        Begin {
            batch,
            at: Pair {
                first: self.at.first.wrapping_add(more.first),
                second: self.at.second.wrapping_add(more.second),
            },
        }
    }
}

fn print_operation(
    page: &mut Page,
    blocks: Pair<Whole>,
    begin: Begin,
    place: usize,
) -> fmt::Result {
    let b = begin.batch;
    let at = begin.at.map(|at| at.wrapping_add(place));
    write!(page, "  batch {b}, its operation {place}:")?;
    listing::write_op_at(page, blocks.first.runs, at.first)?;
    write!(page, " /")?;
    listing::write_op_at(page, blocks.second.runs, at.second)?;
    writeln!(page)
}

fn print_difference(
    page: &mut Page,
    blocks: Pair<Whole>,
    begin: Begin,
    entry: Entry,
) -> fmt::Result {
    let Entry {
        kind,
        batch: b,
        place,
        difference: d,
    } = entry;
    match kind {
        Kind::Number => {
            let numbers = blocks.map(|block| block.number(b, place));
            writeln!(page, "  batch {b}, group {place}: number {numbers}")
        }
        Kind::Flag => {
            let flags = blocks.map(|block| block.flag(b, place));
            writeln!(page, "  batch {b}, group {place}: padding flag {flags}")
        }
        Kind::Length => {
            let lengths = blocks.map(|block| block.length(b, place));
            writeln!(page, "  batch {b}, group {place}: {lengths} operations")
        }
        Kind::Operation => print_operation(page, blocks, begin, place),
        Kind::Count => {
            let groups = blocks.map(|block| block.groups(b));
            writeln!(page, "  batch {b}: {groups} groups")
        }
        Kind::Missing => {
            // compare writes a side here; another place would be printed as the second
            let side = Side::try_from(place).unwrap_or(Side::Second);
            writeln!(page, "  batch {b}: missing in the {side}")
        }
        Kind::Batches => {
            let batches = blocks.map(|block| block.made.batches);
            writeln!(page, "  batches: {d:+} ({batches})")
        }
        Kind::Padded => {
            let operations = blocks.map(|block| block.made.operations);
            writeln!(
                page,
                "  operations, paddings among them: {d:+} ({operations})"
            )
        }
        Kind::Raw => {
            let own = blocks.map(|block| block.own());
            writeln!(page, "  operations without paddings: {d:+} ({own})")
        }
        Kind::Paddings => {
            let paddings = blocks.map(|block| block.paddings());
            writeln!(page, "  paddings: {d:+} ({paddings})")
        }
    }
}

// Entries are in the order of their batches, those of totals last.
fn print_differences(
    page: &mut Page,
    blocks: Pair<Whole>,
    report: &[i32],
    entries: usize,
) -> fmt::Result {
    let mut begin = Begin::default();
    for numbers in report.chunks_exact(4).take(entries) {
        // compare writes entries alone; numbers that are none, as those of no kind, would be printed as a difference of paddings
        let entry = Entry::try_from(numbers).unwrap_or(Entry {
            kind: Kind::Paddings,
            batch: begin.batch,
            place: 0,
            difference: numbers[3],
        });
        begin = begin.later(blocks, entry.batch);
        print_difference(page, blocks, begin, entry)?;
    }
    Ok(())
}

// ---- the answer

fn print_different(
    rt: HostRuntime,
    sources: Pair<Source>,
    blocks: Pair<Whole>,
    report: &[i32],
    entries: usize,
) -> fmt::Result {
    let mut page = Page::output(rt);
    let differences = Count::of(entries, "difference", "differences");
    writeln!(page, "different: {sources}: {differences}")?;
    print_differences(&mut page, blocks, report, entries)?;
    page.flush()
}

// No Display, since listing prints to a page.
fn print_refused(rt: HostRuntime, block: Named, s: &[u8], refusal: Refusal) -> fmt::Result {
    let mut page = Page::output(rt);
    write!(page, "refused: {block}: ")?;
    listing::write_numbered(&mut page, s, block.source.at, refusal)?;
    writeln!(page, ": {refusal}")?;
    page.flush()
}

// A block that cannot be had, without a number of refusal.
fn not_had(rt: HostRuntime, block: Named, why: &str) {
    console::print_text(rt, format_args!("refused: {block}: {why}\n"));
}

// ---- the bytes of two files

// A block once more, since comparing leaves nothing of it.
fn read_again<'a>(s: &[u8], at: usize, room: &'a mut Room) -> Whole<'a> {
    let made = decoder::decode(
        &vm::table(),
        s,
        at,
        &mut room.codes,
        &mut room.values,
        &mut room.records,
    )
    .unwrap_or_default();
    Whole {
        runs: Runs::from(&*room),
        made,
    }
}

fn compare_in(
    rt: HostRuntime,
    sources: Pair<Source>,
    bytes: Pair<&[u8]>,
    first: &mut Room,
    second: &mut Room,
    report: &mut [i32],
) {
    let table = vm::table();
    let at = sources.map(|source| source.at);
    let compared = comparison::compare(
        &table,
        bytes.first,
        at.first,
        &table,
        bytes.second,
        at.second,
        &mut first.codes,
        &mut first.values,
        &mut first.records,
        &mut second.codes,
        &mut second.values,
        &mut second.records,
        report,
    );
    match compared {
        Ok(0) => console::print_text(
            rt,
            format_args!("same: {sources}: the blocks are the same\n"),
        ),
        Ok(entries) => {
            let blocks = Pair {
                first: read_again(bytes.first, at.first, first),
                second: read_again(bytes.second, at.second, second),
            };
            let _ = print_different(rt, sources, blocks, report, entries);
        }
        Err(Refused::First(refusal)) => {
            let _ = print_refused(rt, sources.named(Side::First), bytes.first, refusal);
        }
        Err(Refused::Second(refusal)) => {
            let _ = print_refused(rt, sources.named(Side::Second), bytes.second, refusal);
        }
        Err(Refused::Report) => console::print_text(
            rt,
            "refused: there is no room for so many differences\n",
        ),
    }
}

// The room is made where it lies: a function's reply would be copied, and twice the room is more than the stack has where nothing is optimized.
fn compare_bytes(rt: HostRuntime, sources: Pair<Source>, bytes: Pair<&[u8]>) {
    let mut first = Room {
        codes: [0; 65536],
        values: [0; 65536],
        records: [0; 1343652],
    };
    let mut second = Room {
        codes: [0; 65536],
        values: [0; 65536],
        records: [0; 1343652],
    };
    let mut report = [0i32; 327692];
    compare_in(rt, sources, bytes, &mut first, &mut second, &mut report);
}

// ---- files

fn has_more(file: &mut File) -> bool {
    let mut next = [0u8; 1];
    console::fill(file, &mut next).count != 0
}

// The bytes of a file; none where they are more than the room has.
fn read<'a>(rt: HostRuntime, path: &[u8], room: &'a mut [u8]) -> io::Result<Option<&'a [u8]>> {
    let mut file = console::open(rt, path)?;
    let bytes = console::load(&mut file, room)?;
    Ok(if has_more(&mut file) {
        None
    } else {
        Some(bytes)
    })
}

// The same; a line says why there are none.
fn had<'a>(rt: HostRuntime, block: Named, room: &'a mut [u8; 1048576]) -> Option<&'a [u8]> {
    match read(rt, block.source.path, room) {
        Ok(Some(bytes)) => Some(bytes),
        Ok(None) => {
            not_had(rt, block, "the file has more than 1048576 bytes");
            None
        }
        Err(error) => {
            not_had(rt, block, console::why_unread(error));
            None
        }
    }
}

// Never drawn into its caller, so that its room is cleared only where the first file was read.
#[inline(never)]
fn compare_second(rt: HostRuntime, sources: Pair<Source>, first: &[u8]) {
    let mut room = [0u8; 1048576];
    if let Some(second) = had(rt, sources.named(Side::Second), &mut room) {
        compare_bytes(rt, sources, Pair { first, second });
    }
}

fn compare_files(rt: HostRuntime, sources: Pair<Source>) {
    let mut room = [0u8; 1048576];
    if let Some(first) = had(rt, sources.named(Side::First), &mut room) {
        compare_second(rt, sources, first);
    }
}

// ---- arguments

const HELP: &str =
    "compare FILE FILE: says how the blocks that two files start with differ, under the virtual machine's own table.\ncompare FILE OFFSET FILE OFFSET...: the same for the blocks that start at byte OFFSET of each FILE; as many pairs as there are.\nThe first word tells which of three endings it is. `same`: the decoded blocks are the same. `different`: lines follow that begin with two\nspaces, one for each difference, what the first block has before `/` and what the second has after it. `refused`: a block cannot be read,\nor a file, and the line says which and why.\nOf each batch that both have there is a line for the first group whose number, whose padding flag and whose length differs, for the first\noperation that differs, counted in the batch, and for the group counts; then for each batch that one block lacks; then for the totals, second\nminus first. Batches, groups and operations count from 0. A file has at most 1048576 bytes; what stands after a block is not compared.\n";

// The blocks at two bytes of the files that two arguments name; none for an OFFSET that is no number.
fn compare_arguments(rt: HostRuntime, names: Pair<usize>, offsets: Pair<Option<usize>>) {
    let mut first_name = [0u8; 4096];
    let mut second_name = [0u8; 4096];
    let Some(first) = console::argument_bytes(rt, names.first, &mut first_name) else {
        return console::print_text(rt, "refused: the name of the first file is too long\n");
    };
    let Some(second) = console::argument_bytes(rt, names.second, &mut second_name) else {
        return console::print_text(rt, "refused: the name of the second file is too long\n");
    };
    let Some(first_at) = offsets.first else {
        return not_offset(rt, Side::First, first);
    };
    let Some(second_at) = offsets.second else {
        return not_offset(rt, Side::Second, second);
    };
    let sources = Pair {
        first: Source {
            path: first,
            at: first_at,
        },
        second: Source {
            path: second,
            at: second_at,
        },
    };
    compare_files(rt, sources);
}

fn not_offset(rt: HostRuntime, side: Side, path: &[u8]) {
    let source = Source { path, at: 0 };
    not_had(
        rt,
        Named { side, source },
        "its OFFSET is not a number of bytes",
    );
}

// The offset that the i-th argument is.
fn offset(rt: HostRuntime, i: usize) -> Option<usize> {
    let mut argument = [0u8; 4096];
    let offset = text::either(console::argument_bytes(rt, i, &mut argument)?).ok()?;
    Some(offset as usize)
}

// Four arguments from the i-th on.
fn compare_four(rt: HostRuntime, i: usize)
    requires { i + 3 < 2 ^ 64 }
{
    let names = Pair {
        first: i,
        second: i + 2,
    };
    let offsets = Pair {
        first: offset(rt, i + 1),
        second: offset(rt, i + 3),
    };
    compare_arguments(rt, names, offsets);
}

// As replay asks it: two lines, over room of its own.
fn is_help(rt: HostRuntime) -> bool {
    let mut word = [0u8; 4096];
    console::argument_bytes(rt, 1, &mut word) == Some(b"--help".as_slice())
}

// So many arguments, the program's own name not counted.
fn run(rt: HostRuntime, count: usize) {
    match count {
        1 if is_help(rt) => console::print_text(rt, HELP),
        2 => {
            let names = Pair {
                first: 1,
                second: 2,
            };
            let start = Pair {
                first: Some(0),
                second: Some(0),
            };
            compare_arguments(rt, names, start);
        }
        4.. if count % 4 == 0 => {
            for k in 0..count / 4 {
                compare_four(rt, 4 * k + 1);
            }
        }
        _ => console::tell_text(
            rt,
            "usage: compare FILE FILE, or compare FILE OFFSET FILE OFFSET... (compare --help says more)\n",
        ),
    }
}

fn main(rt: HostRuntime) {
    run(rt, console::arguments(rt).saturating_sub(1));
}
