// show FILE [OFFSET]: prints the batches of the block that starts at a byte of a file, under the virtual machine's own table; or says in one line
// what is wrong.
#![tactic(auto)]

use console::{Filled, Page, quote_name};
use listing::{After, Block, Runs};
use refusal::Refusal;
use space::Room;
use std::fmt;
use std::fmt::Write;
use std::fs::File;
use std::io::{Result, Seek, SeekFrom};
use text::NotNumber;

// What is said is printed a line at a time to a page, which can fail; a Display of a block would hold its runs.

// ---- a block

// What a refusal means, and the byte that it points to, where it has one.
fn print_refusal(
    page: &mut Page,
    path: &[u8],
    s: &[u8],
    at: usize,
    refusal: Refusal,
) -> fmt::Result {
    let number = refusal.number();
    write!(
        page,
        "show: {}: refusal {number}: {refusal}",
        quote_name(path)
    )?;
    if let Some(byte) = listing::refusal_byte(s, 0, refusal) {
        let what = match refusal {
            Refusal::CutShort { .. } => "in the item that starts at byte",
            _ => "at byte",
        };
        write!(page, ", {what} {}", at.wrapping_add(byte))?;
    }
    writeln!(page)?;
    page.flush()
}

fn refused(rt: HostRuntime, path: &[u8], s: &[u8], at: usize, refusal: Refusal) {
    let mut page = Page::errors(rt);
    let _ = print_refusal(&mut page, path, s, at, refusal);
}

// What stands after a block that ends at `last`, in a file that ends at `end`, where that is known and does not come first.
fn after(last: usize, end: Option<usize>, read: usize, used: usize) -> After {
    match end {
        Some(end) if last <= end => After::Bytes(end - last),
        _ if used <= read => After::AtLeast(read - used),
        _ => After::Unasked,
    }
}

fn print_block(rt: HostRuntime, runs: Runs, block: Block, rest: After) -> fmt::Result {
    let mut page = Page::output(rt);
    listing::write_block(&mut page, runs, block, rest)?;
    page.flush()
}

// The bytes of the file from `at` on, as many as a block may have.
fn show(rt: HostRuntime, path: &[u8], bytes: &[u8], at: usize, end: Option<usize>) {
    let mut room = Room::new();
    match decoder::decode(
        &vm::table(),
        bytes,
        0,
        &mut room.codes,
        &mut room.values,
        &mut room.records,
    ) {
        Ok(made) => {
            let rest = after(at.wrapping_add(made.used), end, bytes.len(), made.used);
            let _ = print_block(rt, Runs::from(&room), Block { at, made }, rest);
        }
        Err(refusal) => refused(rt, path, bytes, at, refusal),
    }
}

// ---- a file

const LAST: usize = 9223372036854775807;

// Where the file ends; a pipe does not say.
fn end_of(file: &mut File) -> Option<usize> {
    let end = file.seek(SeekFrom::End(0)).ok()?;
    Some(end as usize)
}

// Where the end is not known, a file that gives nothing is taken to end at its first byte.
fn show_file(rt: HostRuntime, path: &[u8], at: usize) -> Result<()> {
    let mut file = console::open(rt, path)?;
    if LAST < at {
        refused(rt, path, b"", at, Refusal::PastEnd);
        return Ok(());
    }
    if at != 0 {
        file.seek(SeekFrom::Start(at as u64))?;
    }
    let mut room = space::bytes();
    let read = console::read(&mut file, &mut room)?;
    let end = end_of(&mut file);
    match read {
        Filled::Whole(bytes) if bytes.is_empty() && end.unwrap_or(0) < at => {
            refused(rt, path, b"", at, Refusal::PastEnd);
        }
        Filled::Whole(bytes) => show(rt, path, bytes, at, Some(at.wrapping_add(bytes.len()))),
        Filled::Full(bytes) => show(rt, path, bytes, at, end),
    }
    Ok(())
}

// ---- arguments

// The offset that the second argument names; 0 where there is none.
fn offset(rt: HostRuntime, count: usize) -> std::result::Result<u64, NotNumber> {
    if count < 3 {
        return Ok(0);
    }
    let mut argument = [0u8; 4096];
    text::either(console::argument_bytes(rt, 2, &mut argument).unwrap_or_default())
}

const HELP: &str =
    "show FILE [OFFSET]: prints the batches of the block that starts at byte OFFSET of FILE (0 where none is given), under the virtual machine's\nown table; or says on standard error, in one line, what is wrong: the number of the refusal, what it means, and where.\nFor a group it prints its number, the index of its first operation in the block, and the byte of the file where that operation starts.\nThe file may have any size: the 1048576 bytes from OFFSET on are read, and no block is longer than 671742.\nWhat is printed was read from a whole block: one that is cut short is refused. Not noticed: batch data of another list that\nfits these operations, which batching the list again would show; and a changed byte that leaves a good block, which a checksum would show.\n";

fn main(rt: HostRuntime) {
    let count = console::arguments(rt);
    if count < 2 || 3 < count {
        return console::tell_text(rt, "usage: show FILE [OFFSET] (show --help says more)\n");
    }
    let mut name = [0u8; 4096];
    let Some(path) = console::argument_bytes(rt, 1, &mut name) else {
        return console::tell_text(rt, "show: the name of the file is too long\n");
    };
    if path == b"--help".as_slice() {
        return console::print_text(rt, HELP);
    }
    let Ok(at) = offset(rt, count) else {
        return console::tell_text(rt, "show: OFFSET is not a number of bytes\n");
    };
    if let Err(error) = show_file(rt, path, at as usize) {
        console::fail(rt, b"show", path, error);
    }
}
