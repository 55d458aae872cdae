// batch [LIST [FILE]]: batches a list of operations under the virtual machine's own table, and prints the block's batches and, in hex, its bytes, or
// writes its bytes to a file; or says in one line what is wrong. A line of the list is an operation's name or opcode and its value, if it has one;
// # starts a comment.
#![tactic(auto)]

use build::Totals;
use checks::Arena;
use console::{Filled, Page, Quoted, Text, quote_name};
use listing::{After, Block, Decoded, Runs};
use operation::Kind;
use refusal::Refusal;
use space::{Full, List, Room};
use std::fmt::Write;
use std::fs::{File, OpenOptions};
use std::io::{Error, Read, Write as _};
use std::{fmt, fs, io};
use text::NotNumber;

// What is said is printed a line at a time to a page, which can fail; a Display of a block would hold its runs.

// ---- a line of the list

const LARGEST: u64 = 18446744069414584320;

// What is wrong with a line.
#[derive(Clone, Copy, Debug, PartialEq, Eq)]
enum Fault {
    NoName,
    NoOpcode,
    NoValue,
    Unneeded,
    NoNumber,
    Large,
    Words,
    Open,
    Many,
    Unassigned,
}

impl fmt::Display for Fault {
    fn fmt<W: fmt::Write>(&self, f: &mut fmt::Formatter<W>) -> fmt::Result {
        match self {
            Fault::NoName => write!(f, "no operation has this name"),
            Fault::NoOpcode => write!(f, "an opcode is a number up to 127"),
            Fault::NoValue => write!(f, "a value is missing"),
            Fault::Unneeded => write!(f, "this operation has no value"),
            Fault::NoNumber => write!(f, "the value is not a number"),
            Fault::Large => write!(f, "a value is at most {LARGEST}"),
            Fault::Words => write!(f, "more than an operation and its value"),
            Fault::Open => write!(f, "a parenthesis is not closed"),
            Fault::Many => write!(f, "more than 16384 operations"),
            Fault::Unassigned => write!(f, "this opcode is unassigned"),
        }
    }
}

// As a line of the list says it; wire's `Op` is one that was read of a block.
#[derive(Clone, Copy)]
struct Operation {
    code: u8,
    value: u64,
}

// The opcode that a word names.
fn opcode(word: &[u8]) -> Result<u8, Fault> {
    if !text::starts_number(word) {
        return vm::code_of(word).ok_or(Fault::NoName);
    }
    match text::either(word) {
        Ok(code @ 0..=127) => Ok(code as u8),
        _ => Err(Fault::NoOpcode),
    }
}

fn number(word: &[u8]) -> Result<u64, Fault> {
    match text::either(word) {
        Ok(value @ 0..=LARGEST) => Ok(value),
        Ok(_) | Err(NotNumber::Large) => Err(Fault::Large),
        Err(NotNumber::Digits) => Err(Fault::NoNumber),
    }
}

// An operation's value, by the word for it, if there is one.
fn value(code: u8, word: Option<&[u8]>) -> Result<u64, Fault> {
    match (vm::kind(code), word) {
        (Kind::Unassigned, _) => Err(Fault::Unassigned),
        (Kind::Plain, None) => Ok(0),
        (Kind::Plain, Some(_)) => Err(Fault::Unneeded),
        (Kind::Placed | Kind::Carried, None) => Err(Fault::NoValue),
        (Kind::Placed | Kind::Carried, Some(word)) => number(word),
    }
}

// `5`
fn plain(s: &[u8]) -> Result<&[u8], Fault> {
    match text::split_word(s) {
        (word, []) => Ok(word),
        _ => Err(Fault::Words),
    }
}

// `5)`
fn bracketed(s: &[u8]) -> Result<&[u8], Fault> {
    match text::split_word(s) {
        (word, b")") => Ok(word),
        (_, []) => Err(Fault::Open),
        _ => Err(Fault::Words),
    }
}

// The word for a value, as `5` or `(5)`; none where nothing stands behind an opcode.
fn value_word(s: &[u8]) -> Result<Option<&[u8]>, Fault> {
    match s {
        [] => Ok(None),
        [b'(', inner @ ..] => bracketed(inner).map(Some),
        _ => plain(s).map(Some),
    }
}

// The operation of a line, if it has one.
fn parse(line: &[u8]) -> Result<Option<Operation>, Fault> {
    let words = text::words(line);
    if words.is_empty() {
        return Ok(None);
    }
    let (name, rest) = text::split_word(words);
    let code = opcode(name)?;
    let value = value(code, value_word(rest)?)?;
    Ok(Some(Operation { code, value }))
}

// ---- the list

// A fault, and the line that has it.
#[derive(Clone, Copy)]
struct Wrong<'a> {
    place: usize,
    line: &'a [u8],
    fault: Fault,
}

impl fmt::Display for Wrong<'_> {
    fn fmt<W: fmt::Write>(&self, f: &mut fmt::Formatter<W>) -> fmt::Result {
        let words = Quoted::of(text::words(self.line), 40);
        write!(f, "line {}: {words}: {}", self.place, self.fault)
    }
}

impl From<Full> for Fault {
    fn from(_full: Full) -> Fault {
        Fault::Many
    }
}

// Takes the operation of a line, if it has one.
fn take(line: &[u8], list: &mut List) -> Result<(), Fault> {
    if let Some(Operation { code, value }) = parse(line)? {
        list.push(code, value)?;
    }
    Ok(())
}

fn read<'a>(text: &'a [u8], list: &mut List) -> Result<(), Wrong<'a>> {
    for (i, line) in text.split_inclusive(|b| *b == b'\n').enumerate() {
        let place = i + 1;
        take(line, list).map_err(|fault| Wrong { place, line, fault })?;
    }
    Ok(())
}

// ---- a file of the block's bytes

// A call that failed, and the name of its file.
#[derive(Clone, Copy)]
struct Failed<'a> {
    name: &'a [u8],
    error: Error,
}

// All of the bytes, as far as the disk.
fn put(mut file: File, bytes: &[u8]) -> io::Result<()> {
    file.write_all(bytes)?;
    file.sync_all()
}

// A new file; one that is there is left alone.
fn create(rt: HostRuntime, new: &[u8]) -> io::Result<File> {
    OpenOptions::new()
        .write(true)
        .create_new(true)
        .open(&rt, console::name(new)?)
}

fn unlink(rt: HostRuntime, new: &[u8]) -> io::Result<()> {
    fs::remove_file(&rt, console::name(new)?)
}

fn rename(rt: HostRuntime, new: &[u8], path: &[u8]) -> io::Result<()> {
    fs::rename(&rt, console::name(new)?, console::name(path)?)
}

// The bytes in a new file, which then takes the name of the old one. Nothing is left behind where that fails.
fn replace<'a>(
    rt: HostRuntime,
    path: &'a [u8],
    new: &'a [u8],
    bytes: &[u8],
) -> Result<(), Failed<'a>> {
    let file = create(rt, new).map_err(|error| Failed { name: new, error })?;
    let replaced = match put(file, bytes) {
        Ok(()) => rename(rt, new, path).map_err(|error| Failed { name: path, error }),
        Err(error) => Err(Failed { name: new, error }),
    };
    if replaced.is_err() {
        let _ = unlink(rt, new);
    }
    replaced
}

fn update(rt: HostRuntime, path: &[u8]) -> io::Result<File> {
    OpenOptions::new()
        .read(true)
        .write(true)
        .open(&rt, console::name(path)?)
}

// A device or a pipe has nothing to put on a disk, and is not to lose its name.
fn replaceable(rt: HostRuntime, path: &[u8]) -> bool {
    match update(rt, path) {
        Ok(file) => file.sync_all().is_ok(),
        Err(_) => true,
    }
}

// Whether the bytes could be put in a file; a line says why not.
fn save(rt: HostRuntime, path: &[u8], bytes: &[u8]) -> bool {
    if !replaceable(rt, path) {
        console::wrong(rt, b"batch", path, b"not a file that can be replaced");
        return false;
    }
    let mut new = Text::<4100>::new(); // a name has at most 4096 bytes
    new.push(path);
    new.push(b".new");
    if let Err(failed) = replace(rt, path, new.as_bytes(), bytes) {
        console::fail(rt, b"batch", failed.name, failed.error);
        return false;
    }
    true
}

// ---- the block

// Two digits for each byte.
#[derive(Clone, Copy)]
struct Hex<'a>(&'a [u8]);

const DIGITS: [char; 16] = [
    '0', '1', '2', '3', '4', '5', '6', '7', '8', '9', 'a', 'b', 'c', 'd', 'e', 'f',
];

impl fmt::Display for Hex<'_> {
    fn fmt<W: fmt::Write>(&self, f: &mut fmt::Formatter<W>) -> fmt::Result {
        for b in self.0 {
            f.write_char(DIGITS[usize::from(b / 16)])?;
            f.write_char(DIGITS[usize::from(b % 16)])?;
        }
        Ok(())
    }
}

fn print_line(rt: HostRuntime, runs: Runs, block: Block) -> fmt::Result {
    let mut page = Page::output(rt);
    listing::write_line(&mut page, runs.records, block, After::Unasked)?;
    page.flush()
}

// The bytes are a writing of their own, after the batches. A line has 32 of them.
fn print_block(rt: HostRuntime, runs: Runs, block: Block, bytes: &[u8]) -> fmt::Result {
    let mut page = Page::output(rt);
    listing::write_block(&mut page, runs, block, After::Unasked)?;
    page.flush()?;
    writeln!(page, "bytes")?;
    for line in bytes.chunks(32) {
        writeln!(page, "{}", Hex(line))?;
    }
    page.flush()
}

// What was asked: the block in a file, or printed where there is no file's name.
fn answer(rt: HostRuntime, file: Option<&[u8]>, runs: Runs, batches: usize, bytes: &[u8]) {
    let block = Block {
        at: 0,
        made: Decoded {
            batches,
            operations: runs.codes.len(),
            used: bytes.len(),
        },
    };
    match file {
        Some(file) => {
            if save(rt, file, bytes) {
                let _ = print_line(rt, runs, block);
            }
        }
        None => {
            let _ = print_block(rt, runs, block, bytes);
        }
    }
}

// What was built, which comes to so much: `build` makes no more than its room, and lending a part of a run asks for that again.
fn built(made: Totals, room: &Room) -> Option<Runs<'_>> {
    Some(Runs {
        codes: room.codes.get(..made.operations)?,
        values: room.values.get(..made.operations)?,
        records: room
            .records
            .get(..made.batches.checked_mul(op_batch::RECORD)?)?,
    })
}

fn batch(
    rt: HostRuntime,
    file: Option<&[u8]>,
    list: &List,
    bytes: &mut [u8],
) -> Result<(), Refusal> {
    let table = vm::table();
    let mut room = Room::new();
    let made = build::build(
        &table,
        list.codes(),
        list.values(),
        &mut room.codes,
        &mut room.values,
        &mut room.records,
    )?;
    let runs = built(made, &room).ok_or(Refusal::NoRoom)?;
    let arena = Arena {
        codes: runs.codes,
        values: runs.values,
        records: runs.records,
    };
    let used = encoder::encode(&table, arena, bytes, 0)?;
    let bytes = bytes.get(..used).ok_or(Refusal::NoRoom)?;
    answer(rt, file, runs, made.batches, bytes);
    Ok(())
}

// ---- a list

fn tell_wrong(rt: HostRuntime, name: &[u8], wrong: Wrong) {
    console::tell_text(rt, format_args!("batch: {}: {wrong}\n", quote_name(name)));
}

fn tell_refusal(rt: HostRuntime, name: &[u8], refusal: Refusal) {
    let number = refusal.number();
    console::tell_text(
        rt,
        format_args!("batch: {}: refusal {number}: {refusal}\n", quote_name(name)),
    );
}

// The room for the list's bytes takes the block's in the end. Never drawn into its caller, so that the stack has no room for a list that is not read.
#[inline(never)]
fn batch_from<F: Read>(rt: HostRuntime, name: &[u8], file: Option<&[u8]>, from: &mut F) {
    let mut room = space::bytes();
    let mut list = List::new();
    match console::read(from, &mut room) {
        Ok(Filled::Full(_)) => {
            return console::wrong(rt, b"batch", name, b"longer than 1048575 bytes");
        }
        Ok(Filled::Whole(text)) => {
            if let Err(wrong) = read(text, &mut list) {
                return tell_wrong(rt, name, wrong);
            }
        }
        Err(error) => return console::fail(rt, b"batch", name, error),
    }
    if let Err(refusal) = batch(rt, file, &list, &mut room) {
        tell_refusal(rt, name, refusal);
    }
}

fn batch_file(rt: HostRuntime, name: &[u8], file: Option<&[u8]>) {
    match console::open(rt, name) {
        Ok(mut from) => batch_from(rt, name, file, &mut from),
        Err(error) => console::fail(rt, b"batch", name, error),
    }
}

// ---- arguments

const HELP: &str =
    "batch [LIST [FILE]]: batches the list of operations in LIST, or on standard input, under the virtual machine's own table, and prints the\nblock's batches and, after a line `bytes`, its bytes in hex; or, with FILE, writes its bytes there: to FILE.new, which then takes the name FILE.\nWhat is wrong is said in one line on standard error, and then no file is touched.\nA line of the list is an operation's name or opcode, with its value where it has one: add, push 5, push(5), 0x22, 91 0xff; # starts a comment.\nA list has at most 16384 operations and 1048575 bytes; a line may be as long as that.\n";

// The i-th argument, unless it is empty.
fn named(rt: HostRuntime, i: usize, room: &mut [u8]) -> Option<&[u8]> {
    console::argument_bytes(rt, i, room).filter(|name| !name.is_empty())
}

// With both arguments.
fn to_file(rt: HostRuntime, name: &[u8]) {
    let mut room = [0u8; 4096];
    match named(rt, 2, &mut room) {
        Some(file) => batch_file(rt, name, Some(file)),
        None => console::tell_text(rt, "batch: the name FILE is empty or too long\n"),
    }
}

fn main(rt: HostRuntime) {
    let count = console::arguments(rt);
    if count < 2 {
        return batch_from(rt, b"standard input", None, &mut rt.stdin());
    }
    if 3 < count {
        return console::tell_text(rt, "usage: batch [LIST [FILE]] (batch --help says more)\n");
    }
    let mut room = [0u8; 4096];
    let Some(name) = named(rt, 1, &mut room) else {
        return console::tell_text(rt, "batch: the name LIST is empty or too long\n");
    };
    if name == b"--help".as_slice() {
        console::print_text(rt, HELP);
    } else if count == 2 {
        batch_file(rt, name, None);
    } else {
        to_file(rt, name);
    }
}
