// replay FILE..: replays files of cases (rust/README.md, "The files of cases") on the functions that Rust calls, and compares each reply and each
// output whole with the file's.
#![tactic(auto)]

ghost use Rattle.std.specs.Prelude.{◌≡◌, ◌≤◌, length};

use cases::{Case, Function, Line};
use console::{Filled, print_bytes, print_pieces};
use exports::{CheckReply, DecodeReply, IndexReply, TableReply};
use std::{fmt, io};

// ---- the functions, each on what its line lends: run by run, in the order of the line. A helper for several of them would hand on the arrays they lie in.

fn build(case: &mut Case) -> Option<()> {
    let mut codes = space::codes();
    let mut values = space::values();
    let mut out_codes = space::codes();
    let mut out_values = space::values();
    let mut out_records = space::records();
    let codes = case.line.run(&mut codes)?;
    let values = case.line.run(&mut values)?;
    let out_codes = case.line.room(&mut out_codes)?;
    let out_values = case.line.room(&mut out_values)?;
    let out_records = case.line.room(&mut out_records)?;
    let r = exports::oli_build(
        case.table,
        codes,
        values,
        out_codes,
        out_values,
        out_records,
    );
    case.made(r.number, r.place, r.batches, r.operations)?;
    case.block_is(out_codes, out_values, out_records)
}

fn encode(case: &mut Case) -> Option<()> {
    let mut codes = space::codes();
    let mut values = space::values();
    let mut records = space::records();
    let mut out = space::records();
    let codes = case.line.run(&mut codes)?;
    let values = case.line.run(&mut values)?;
    let records = case.line.run(&mut records)?;
    let out = case.line.run(&mut out)?;
    let at = case.line.index()?;
    let r = exports::oli_encode(case.table, codes, values, records, out, at);
    case.refusal(r.number, r.place)?;
    case.is(b"length", r.length)?;
    case.run_is(b"bytes", out)
}

fn decode<F>(case: &mut Case, decode: F) -> Option<()>
where
    F: FnOnce(&[u8], &[u8], usize, &mut [u8], &mut [u64], &mut [u8]) -> DecodeReply,
    requires { F.IsAlwaysCallable decode }
{
    let mut block = space::records();
    let mut codes = space::codes();
    let mut values = space::values();
    let mut records = space::records();
    let block = case.line.run(&mut block)?;
    let at = case.line.index()?;
    let codes = case.line.room(&mut codes)?;
    let values = case.line.room(&mut values)?;
    let records = case.line.room(&mut records)?;
    let r = decode(case.table, block, at, codes, values, records);
    case.made(r.number, r.place, r.batches, r.operations)?;
    case.is(b"bytes used", r.used)?;
    case.block_is(codes, values, records)
}

// No case needs more working room for one of its two blocks.
fn compare(case: &mut Case) -> Option<()> {
    let mut one = space::records();
    let mut codes = space::list_codes();
    let mut values = space::list_values();
    let mut records = space::records();
    let mut two_table = [0u8; 256];
    let mut two = space::records();
    let mut two_codes = space::list_codes();
    let mut two_values = space::list_values();
    let mut two_records = space::records();
    let mut report = [0i32; 65536];
    let one = case.line.run(&mut one)?;
    let one_at = case.line.index()?;
    let codes = case.line.room(&mut codes)?;
    let values = case.line.room(&mut values)?;
    let records = case.line.room(&mut records)?;
    let two_table = case.line.run(&mut two_table)?;
    let two = case.line.run(&mut two)?;
    let two_at = case.line.index()?;
    let two_codes = case.line.room(&mut two_codes)?;
    let two_values = case.line.room(&mut two_values)?;
    let two_records = case.line.room(&mut two_records)?;
    let report = case.line.room(&mut report)?;
    let r = exports::oli_compare(
        case.table,
        one,
        one_at,
        two_table,
        two,
        two_at,
        codes,
        values,
        records,
        two_codes,
        two_values,
        two_records,
        report,
    );
    case.is(b"mark", usize::from(r.mark))?;
    case.refusal(r.number, r.place)?;
    case.is(b"entries", r.entries)?;
    case.block_is(codes, values, records)?;
    case.block_is(two_codes, two_values, two_records)?;
    case.run_is(b"report", report)
}

fn check<F>(case: &mut Case, check: F) -> Option<()>
where
    F: FnOnce(&[u8], &[u8], &[u64], &[u8]) -> CheckReply,
    requires { F.IsAlwaysCallable check }
{
    let mut codes = space::codes();
    let mut values = space::values();
    let mut records = space::records();
    let codes = case.line.run(&mut codes)?;
    let values = case.line.run(&mut values)?;
    let records = case.line.run(&mut records)?;
    let r = check(case.table, codes, values, records);
    case.refusal(r.number, r.place)
}

fn index_table<F>(case: &mut Case, fill: F) -> Option<()>
where
    F: FnOnce(&[u8], &[u64], &[u8], &mut [u64]) -> TableReply,
    requires { F.IsAlwaysCallable fill }
{
    let mut codes = space::codes();
    let mut values = space::values();
    let mut records = space::records();
    let mut out = space::values();
    let codes = case.line.run(&mut codes)?;
    let values = case.line.run(&mut values)?;
    let records = case.line.run(&mut records)?;
    let out = case.line.room(&mut out)?;
    let r = fill(codes, values, records, out);
    case.refusal(r.number, r.place)?;
    case.is(b"entries", r.entries)?;
    case.run_is(b"entries", out)
}

fn index<F>(case: &mut Case, find: F) -> Option<()>
where
    F: FnOnce(&[u64], usize) -> IndexReply,
    requires { F.IsAlwaysCallable find }
{
    let mut entries = space::values();
    let entries = case.line.run(&mut entries)?;
    let asked = case.line.index()?;
    let r = find(entries, asked);
    case.is(b"found", usize::from(r.found))?;
    case.is(b"index", r.index)
}

fn group(case: &mut Case) -> Option<()> {
    let mut record = space::records();
    let record = case.line.run(&mut record)?;
    let asked = case.line.index()?;
    let r = exports::oli_group(record, asked);
    case.refusal(r.number, r.place)?;
    case.is(b"found", usize::from(r.found))?;
    case.is(b"group", r.group)?;
    case.is(b"position", r.position)
}

fn next_group(case: &mut Case) -> Option<()> {
    let mut record = space::records();
    let record = case.line.run(&mut record)?;
    let asked = case.line.index()?;
    let r = exports::oli_next_group(record, asked);
    case.refusal(r.number, r.place)?;
    case.is(b"found", usize::from(r.found))?;
    case.is(b"group", r.group)
}

fn run(case: &mut Case) -> Option<()> {
    match case.function {
        Function::Build => build(case),
        Function::Encode => encode(case),
        Function::Decode => decode(case, exports::oli_decode),
        Function::DecodeStrict => decode(case, exports::oli_decode_strict),
        Function::Structure => check(case, |_, codes, values, records| {
            exports::oli_structure(codes, values, records)
        }),
        Function::Padding => check(case, |_, codes, values, records| {
            exports::oli_padding(codes, values, records)
        }),
        Function::Commitment => check(case, exports::oli_commitment),
        Function::RawTable => index_table(case, exports::oli_raw_table),
        Function::PaddedTable => index_table(case, exports::oli_padded_table),
        Function::PaddedIndex => index(case, exports::oli_padded_index),
        Function::RawIndex => index(case, exports::oli_raw_index),
        Function::Group => group(case),
        Function::NextGroup => next_group(case),
        Function::Compare => compare(case),
    }
}

// ---- a file

// Of the cases of a file, how many agree, by function, in the order of `Function::ALL`, where a function as a number is its index; and of all files, how many cases there are and how many differ, and how many files were not
// read to the end.
#[derive(Clone, Copy, Default)]
struct Counts {
    agree: [usize; Function::ALL.len()],
    cases: usize,
    differ: usize,
    not_read: usize,
}

fn add(count: &mut usize) {
    *count = count.saturating_add(1);
}

impl Counts {
    fn tally(&mut self, case: &Case) {
        add(&mut self.cases);
        if case.same {
            add(&mut self.agree[case.function as usize]);
        } else {
            add(&mut self.differ);
        }
    }
}

// The table of the cases on the lines after its own. It has its bytes: a slice of them, kept from line to line, gets no proof.
#[derive(Clone, Copy)]
struct Table {
    room: [u8; 256],
    length: usize,
    ghost within: { length ≤ 256 },
}

impl Table {
    fn none() -> Table {
        Table {
            room: [0; 256],
            length: 0,
        }
    }

    // A line with nothing else on it.
    fn read(mut line: Line) -> Option<Table> {
        let mut room = [0; 256];
        let length = line.run(&mut room)?.len();
        line.is_read().then_some(Table { room, length })
    }

    fn kinds(&self) -> &[u8] {
        &self.room[..self.length]
    }
}

// A case, if its line is one and nothing is left of it.
fn case(
    rt: HostRuntime,
    place: usize,
    number: u64,
    table: &[u8],
    line: Line,
    counts: &mut Counts,
) -> Option<()> {
    let mut case = Case {
        rt,
        place,
        function: Function::numbered(number)?,
        table,
        line,
        same: true,
    };
    run(&mut case)?;
    if !case.line.is_read() {
        return None;
    }
    counts.tally(&case);
    Some(())
}

// The lines of a file, up to the first that is neither a case nor a table; its number, if there is one.
fn lines(rt: HostRuntime, text: &[u8], counts: &mut Counts) -> Result<(), usize> {
    let mut table = Table::none();
    for (i, text) in text.split_inclusive(|b| *b == b'\n').enumerate() {
        let place = i + 1;
        let mut line = Line::new(text);
        match line.number().ok_or(place)? {
            0 => table = Table::read(line).ok_or(place)?,
            n => case(rt, place, n, table.kinds(), line, counts).ok_or(place)?,
        }
    }
    Ok(())
}

// What is printed is a line for each function or for the file, and no value of its own that a Display could be of.
fn print_counts(rt: HostRuntime, counts: &Counts) {
    for (function, n) in Function::ALL.iter().zip(counts.agree) {
        if n != 0 {
            print_pieces(rt, format_args!("  {function}: {n} agree\n"));
        }
    }
}

fn not_read<D: fmt::Display + Drop>(rt: HostRuntime, path: &[u8], counts: &mut Counts, why: D) {
    print_bytes(rt, b"  ");
    print_bytes(rt, path);
    print_pieces(rt, why);
    add(&mut counts.not_read);
}

// The text of a file, or as much of it as the room takes.
fn load<'a>(rt: HostRuntime, path: &[u8], room: &'a mut [u8]) -> io::Result<Filled<'a>> {
    let mut file = console::open(rt, path)?;
    console::read(&mut file, room)
}

fn file(rt: HostRuntime, path: &[u8], counts: &mut Counts) {
    print_bytes(rt, path);
    print_bytes(rt, b"\n");
    counts.agree = [0; Function::ALL.len()];
    let mut room = [0u8; 262144];
    let text = match load(rt, path, &mut room) {
        Ok(Filled::Full(_)) => {
            return not_read(rt, path, counts, " is longer than 262143 bytes\n");
        }
        Ok(Filled::Whole(text)) if !text.is_empty() => text,
        Ok(Filled::Whole(_)) | Err(_) => {
            return not_read(rt, path, counts, " cannot be read, or has nothing in it\n");
        }
    };
    let read = lines(rt, text, counts);
    print_counts(rt, counts);
    if let Err(place) = read {
        not_read(
            rt,
            path,
            counts,
            format_args!(
                ", line {place}: neither a case nor a table; what comes after it is not run\n"
            ),
        );
    }
}

fn print_total(rt: HostRuntime, counts: &Counts) {
    print_pieces(
        rt,
        format_args!("{} cases, {} differ", counts.cases, counts.differ),
    );
    if counts.not_read != 0 {
        print_pieces(
            rt,
            format_args!("; files not read to the end: {}", counts.not_read),
        );
    }
    print_bytes(rt, b"\n");
}

// The file that an argument names.
fn argument(rt: HostRuntime, i: usize, counts: &mut Counts) {
    let mut path = [0u8; 4096];
    let path = console::argument_bytes(rt, i, &mut path).unwrap_or_default();
    file(rt, path, counts);
}

const USAGE: &str = "usage: replay FILE..\n";

const HELP: &str =
    "Runs the cases of each file (rust/README.md) on the exported functions, and says where a reply or an output is not the file's.\n";

// As compare asks it: two lines, over room of its own.
fn asked_for_help(rt: HostRuntime) -> bool {
    let mut word = [0u8; 4096];
    console::argument_bytes(rt, 1, &mut word) == Some(b"--help".as_slice())
}

fn main(rt: HostRuntime) {
    let count = console::arguments(rt);
    if count < 2 {
        return console::tell_text(rt, "usage: replay FILE.. (replay --help says more)\n");
    }
    if asked_for_help(rt) {
        return print_pieces(rt, format_args!("{USAGE}{HELP}"));
    }
    let mut counts = Counts::default();
    for i in 1..count {
        argument(rt, i, &mut counts);
    }
    print_total(rt, &counts);
}
