// The same on a page in a run of bytes that is lent (console's `Lent`), of refusals by any number and place, and of records or two runs alone. None of it can
// fail: what a page does not take is dropped. Who has a choice writes by `write_..`.
use crate::{After, Block, Runs, item_byte, write_block, write_line, write_op_at, write_totals};
use console::{Lent, Page, say};
use refusal::Refusal;
use std::fmt::Write;

// No block has more.
const MOST_BATCHES: usize = 16384;

// The operation at a place, after a space.
pub fn print_op_at(rt: HostRuntime, page: &mut [u8], codes: &[u8], values: &[u64], at: usize) {
    let runs = Runs {
        codes,
        values,
        records: &[],
    };
    let _ = write_op_at(&mut Lent { rt, page }, runs, at);
}

// In a line: the totals of a block, and what stands after it.
pub fn print_totals(rt: HostRuntime, page: &mut [u8], records: &[u8], block: Block, after: After) {
    if block.made.batches <= MOST_BATCHES {
        let _ = write_totals(&mut Lent { rt, page }, records, block.made, after);
    }
}

// The same after the byte where the block stands, printed by itself.
pub fn print_line(rt: HostRuntime, records: &[u8], block: Block) {
    let mut page = Page::output(rt);
    let printed = if block.made.batches <= MOST_BATCHES {
        write_line(&mut page, records, block, After::Unasked)
    } else {
        write!(page, "block at byte {}: ", block.at)
    };
    if printed.is_ok() {
        let _ = page.flush();
    }
}

// The same, and the batches; and whether they could be written.
pub fn print_block(
    rt: HostRuntime,
    codes: &[u8],
    values: &[u64],
    records: &[u8],
    block: Block,
    after: After,
) -> bool {
    let runs = Runs {
        codes,
        values,
        records,
    };
    let mut page = Page::output(rt);
    block.made.batches <= MOST_BATCHES
        && write_block(&mut page, runs, block, after).is_ok()
        && page.flush().is_ok()
}

// ---- refusals

// The refusal of a number and a place; none where the number has no meaning.
fn refusal_of(number: u8, place: usize) -> Option<Refusal> {
    let (operation, batch) = (place, place);
    Some(match number {
        1 => Refusal::PastEnd,
        2 => Refusal::CutShort { byte: place },
        3 => Refusal::OverLimit,
        4 => Refusal::Unassigned { operation },
        5 => Refusal::TooManyBatches,
        6 => Refusal::BadNibble { batch },
        7 => Refusal::PastOperations { batch },
        8 => Refusal::NoSlot { batch },
        9 => Refusal::SlotTaken { batch },
        10 => Refusal::BadPadding { batch },
        11 => Refusal::LeftOver,
        12 => Refusal::EmptyList,
        13 => Refusal::NoRoom,
        14 => Refusal::BadTable,
        15 => Refusal::BadStructure { batch },
        16 => Refusal::BadCommitment { batch },
        17 => Refusal::BadValue { operation },
        18 => Refusal::Unfinished { batch },
        _ => return None,
    })
}

pub fn print_at(rt: HostRuntime, page: &mut [u8], what: &[u8], place: usize) {
    say(rt, page, what);
    console::number(rt, page, place as u64);
}

// What a refusal means, and its place.
pub fn print_words(rt: HostRuntime, page: &mut [u8], refusal: u8, place: usize) {
    match refusal_of(refusal, place) {
        Some(refusal) => {
            let _ = write!(Lent { rt, page }, "{refusal}");
        }
        None => say(rt, page, b"a number without a meaning"),
    }
}

// The same after its number.
pub fn print_refusal(rt: HostRuntime, page: &mut [u8], refusal: u8, place: usize) {
    let _ = write!(Lent { rt, page }, "refusal {refusal}: ");
    print_words(rt, page, refusal, place);
}

// The byte that the place of a refusal means, where it means one; the block is at a byte.
pub fn place_byte(s: &[u8], from: usize, refusal: u8, place: usize) -> usize {
    match refusal {
        2 => place,
        _ => wire::read_count(s, from).map_or(from, |count| item_byte(s, count, refusal, place)),
    }
}

// The number of a refusal of decode, and the byte that it points to, where it has one.
pub fn print_numbered(
    rt: HostRuntime,
    page: &mut [u8],
    s: &[u8],
    from: usize,
    refusal: u8,
    place: usize,
) {
    console::number(rt, page, u64::from(refusal));
    if matches!(refusal, 2..=10 | 17) {
        print_at(rt, page, b" at byte ", place_byte(s, from, refusal, place));
    }
}
