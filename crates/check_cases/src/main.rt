// Reads cases from standard input, runs the check, table or lookup that each names, and writes the reply, a line each.
// A case is a list of numbers: all other bytes of the text only part them, so that its words are for the reader.
//   what: 0 structure, 1 padding, 2 commitment, 3 raw table, 4 padded table, 5 group of an operation, 6 next group,
//     7 padded index of a raw one, 8 raw index of a padded one (the values are the table's entries)
//   argument: a table's room, an operation number, a group or an index
//   table: its length, the kind of opcode 4 (opcodes 0 and 2 have kind 0, 1 has 1, 3 has 2, the rest 3)
//   codes, values and records each: how many are lent (of records the bytes), how many are listed, those; the rest are 0
#![tactic(auto)]

ghost use Rattle.std.specs.Prelude.{◌≤◌};

use checks::Arena;
use op_batch::{Place, RECORD, RecordAt, RecordMut};
use prefix::{PaddedIndex, RawIndex};
use refusal::Refusal;
use std::fmt;
use std::fmt::Write;
use text::Radix;

// ---- the numbers of a text; past the last one come zeros

#[derive(Clone, Copy)]
struct Numbers<'a> {
    rest: &'a [u8],
}

impl Numbers<'_> {
    fn next(&mut self) -> u64 {
        let rest = self.rest;
        let start = rest
            .iter()
            .position(|b| b.is_ascii_digit())
            .unwrap_or(rest.len());
        let (_, rest) = rest.split_at(start);
        let end = rest
            .iter()
            .position(|b| !b.is_ascii_digit())
            .unwrap_or(rest.len());
        let (digits, rest) = rest.split_at(end);
        self.rest = rest;
        text::number(digits, Radix::Decimal).unwrap_or(0)
    }

    fn byte(&mut self) -> u8 {
        (self.next() % 256) as u8
    }

    fn at_most(&mut self, most: usize) -> usize
        ensures { result ≤ most }
    {
        most.min(self.next() as usize)
    }

    // ---- runs

    // Table T, but for the kind of opcode 4.
    fn table<'b>(&mut self, room: &'b mut [u8; 128]) -> &'b [u8] {
        let lent = self.at_most(128);
        *room = [3; 128];
        room[..5].copy_from_slice(&[0, 1, 0, 2, self.byte()]);
        &room[..lent]
    }

    fn list<'b, T: Copy, F: Fn(u64) -> T>(&mut self, room: &'b mut [T], item: F) -> &'b [T]
        requires { F.IsAlwaysCallable item }
    {
        let lent = self.at_most(room.len());
        let listed = self.at_most(1000);
        let zero = item(0);
        word::fill(room, 0, room.len(), zero);
        for place in room.iter_mut().take(listed) {
            *place = item(self.next());
        }
        &room[..lent]
    }

    // Nine starts, eight flags, eight numbers and the count.
    fn record(&mut self, out: &mut RecordMut<'_>) {
        for g in 0..9 {
            out.set_start(g, self.byte());
        }
        for g in 0..8 {
            out.set_flag(g, self.byte());
        }
        for g in 0..8 {
            out.set_number(g, self.next());
        }
        out.set_count(self.byte());
    }

    fn records<'b>(&mut self, room: &'b mut [u8]) -> &'b [u8] {
        let lent = self.at_most(room.len());
        let listed = self.at_most(1000);
        room.fill(0);
        for b in 0..listed {
            self.record(&mut RecordMut { records: room, b });
        }
        &room[..lent]
    }
}

// ---- replies, piece by piece: one that standard output does not take is dropped, and what comes after it is tried all the same

#[derive(Clone, Copy)]
struct Pieces {
    rt: HostRuntime,
}

impl fmt::Write for Pieces {
    fn write_str(&mut self, text: &str) -> fmt::Result {
        let _ = self.rt.stdout().write_all(text.as_bytes());
        Ok(())
    }
}

fn show<D: fmt::Display + Drop>(rt: HostRuntime, piece: D) {
    let mut pieces = Pieces { rt };
    let _ = pieces.write(piece);
}

fn show_number(rt: HostRuntime, number: u64) {
    show(rt, number);
    show(rt, " ");
}

fn line(rt: HostRuntime, text: &str) {
    show(rt, text);
    show(rt, "\n");
}

fn refused(rt: HostRuntime, refusal: Refusal) {
    show(rt, "refused ");
    show_number(rt, u64::from(refusal.number()));
    show_number(rt, refusal.place() as u64);
    line(rt, "");
}

fn show_check(rt: HostRuntime, reply: Result<(), Refusal>) {
    match reply {
        Ok(()) => line(rt, "passed"),
        Err(refusal) => refused(rt, refusal),
    }
}

fn show_table(rt: HostRuntime, reply: Result<usize, Refusal>, out: &[u64]) {
    for entry in out {
        show_number(rt, *entry);
    }
    match reply {
        Ok(entries) => {
            show(rt, "made ");
            show_number(rt, entries as u64);
            line(rt, "");
        }
        Err(refusal) => refused(rt, refusal),
    }
}

fn show_place(rt: HostRuntime, reply: Result<Option<Place>, Refusal>) {
    match reply {
        Ok(Some(Place { group, place })) => {
            show_number(rt, group as u64);
            show_number(rt, place as u64);
            line(rt, "");
        }
        Ok(None) => line(rt, "nothing"),
        Err(refusal) => refused(rt, refusal),
    }
}

fn show_found(rt: HostRuntime, reply: Result<Option<usize>, Refusal>) {
    match reply {
        Ok(Some(number)) => {
            show_number(rt, number as u64);
            line(rt, "");
        }
        Ok(None) => line(rt, "nothing"),
        Err(refusal) => refused(rt, refusal),
    }
}

// ---- cases

#[derive(Clone, Copy)]
enum What {
    Structure,
    Padding,
    Commitment,
    RawTable,
    PaddedTable,
    GroupOfOperation,
    NextGroup,
    PaddedIndex,
    RawIndex,
}

impl From<u64> for What {
    fn from(number: u64) -> What {
        match number {
            0 => What::Structure,
            1 => What::Padding,
            2 => What::Commitment,
            3 => What::RawTable,
            4 => What::PaddedTable,
            5 => What::GroupOfOperation,
            6 => What::NextGroup,
            8 => What::RawIndex,
            _ => What::PaddedIndex, // 7, and past 8
        }
    }
}

// What a case asks, and what it lends.
#[derive(Clone, Copy)]
struct Case<'a> {
    what: What,
    argument: usize,
    table: &'a [u8],
    arena: Arena<'a>,
}

fn run(rt: HostRuntime, case: Case) {
    let Case {
        what,
        argument,
        table,
        arena,
    } = case;
    let Arena {
        values,
        records,
        ..
    } = arena;
    let mut room = [7; 16];
    let out = &mut room[..argument.min(16)];
    match what {
        What::Structure => show_check(rt, arena.structure()),
        What::Padding => show_check(rt, arena.padding()),
        What::Commitment => show_check(rt, commitment::commitment(table, arena)),
        What::RawTable => {
            let reply = prefix::raw_to_padded(arena, out);
            show_table(rt, reply, out)
        }
        What::PaddedTable => {
            let reply = prefix::padded_to_raw(arena, out);
            show_table(rt, reply, out)
        }
        What::GroupOfOperation | What::NextGroup if records.len() < RECORD => {}
        What::GroupOfOperation => {
            let batch = RecordAt { records, b: 0 }.load();
            show_place(rt, batch.op_idx_in_batch_to_group(argument))
        }
        What::NextGroup => {
            let batch = RecordAt { records, b: 0 }.load();
            show_found(rt, batch.next_op_group_index(argument))
        }
        What::RawIndex => {
            let raw = prefix::padded_to_raw_index(values, PaddedIndex(argument));
            show_found(rt, Ok(raw.map(|i| i.0)))
        }
        What::PaddedIndex => {
            let padded = prefix::raw_to_padded_index(values, RawIndex(argument));
            show_found(rt, Ok(padded.map(|i| i.0)))
        }
    }
}

// The first number says how many cases there are.
fn cases(rt: HostRuntime, text: &[u8]) {
    let mut table = [0; 128];
    let mut codes = space::codes();
    let mut values = space::values();
    let mut records = space::records();
    let mut numbers = Numbers { rest: text };
    for _ in 0..numbers.next() {
        let case = Case {
            what: What::from(numbers.next()),
            argument: numbers.next() as usize,
            table: numbers.table(&mut table),
            arena: Arena {
                codes: numbers.list(&mut codes, |n| (n % 256) as u8),
                values: numbers.list(&mut values, |n| n),
                records: numbers.records(&mut records),
            },
        };
        run(rt, case);
    }
}

const USAGE: &str = "usage: check_cases < CASES\n";

const HELP: &str =
    "Runs each line's check, table or lookup and prints the reply; it takes no arguments.\n";

fn main(rt: HostRuntime) {
    if 1 < console::arguments(rt) {
        console::print_text(rt, USAGE);
        return console::print_text(rt, HELP);
    }
    let mut space = [0u8; 65536];
    let most = space.len();
    match console::load(&mut rt.stdin(), &mut space) {
        Err(broken) => console::fail(rt, b"check_cases", b"standard input", broken.error),
        Ok(text) if text.len() == most => {
            console::wrong(
                rt,
                b"check_cases",
                b"standard input",
                b"longer than 65535 bytes",
            );
        }
        Ok(text) => cases(rt, text),
    }
}
