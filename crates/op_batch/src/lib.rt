// OpBatch: a batch's record by value, as it lies in the lent run of records, its structure test and the lookups in one batch.
#![tactic(auto)]

ghost use Rattle.std.specs.Prelude.{◌≡◌, ℕ, ◌+◌, ◌-◌, ◌*◌, ◌^◌, ◌<◌, ◌≤◌, true, ◌&&◌, leb, length, take, drop, slice_index};
ghost use Rattle.std.proofs.lemmas.List.Edits.{sets};
ghost use Rattle.rules.specs.Lists.{every};
ghost use Rattle.rules.specs.Digits.{digits, number};
ghost use Rattle.rules.specs.Record.{starts_from, differences, record_size, bytes_at, words_at, record_at};
ghost use Rattle.rules.specs.Checks.{ninth, starts_right, record_right};
ghost use Rattle.rules.specs.Lookups.{group_from};
ghost use Rattle.rules.specs.Functions.{group_lookup, next_lookup};
ghost use Rattle.refusal.specs.Told.{told};
ghost use Rattle.op_batch.specs.OpBatch.{layout, record_in, found_in, lookup_of, first_full, next_in, next_of};
ghost use Rattle.op_batch.specs.RecordAt.{recorded};
ghost use Rattle.op_batch.specs.RecordMut.{stored};
ghost use Rattle.op_batch.specs.Stores.{start_set, starts_set, flag_set, number_set, count_set, record_set, packed};

mod record_at;
mod record_mut;

pub use record_at::RecordAt;
pub use record_mut::RecordMut;
use refusal::Refusal;

// How many bytes of a run a record is.
pub const RECORD: usize = 82;

// Where its flags, its numbers and its count stand among them. No other crate knows.
const FLAGS: usize = 9;

const NUMBERS: usize = 17;

const COUNT: usize = 81;

// The groups of a batch are at most so many.
pub const WIDTH: usize = 8;

// A batch's record: nine starts, eight padding flags, eight group numbers, the group count.
#[derive(Clone, Copy, Debug, PartialEq, Eq)]
pub struct OpBatch {
    pub starts: [u8; 9],
    pub flags: [u8; 8],
    pub groups: [u64; 8],
    pub count: u8,
}

// Where an operation stands in its batch: the group, and the place in it.
#[derive(Clone, Copy, Debug, PartialEq, Eq)]
pub struct Place {
    pub group: usize,
    pub place: usize,
}

// ---- the structure test: all flags and all starts are looked at, whatever the first ones say, so that the machine can look at them abreast

fn flags_right(flags: &[u8]) -> bool
    ensures { result ≡ every (λ (f : ℕ). leb f 1) flags.now }
{
    flags.iter().fold(true, |ok, flag| ok & (*flag <= 1))
}

// The difference wraps where starts fall. Where the first is 0 and the ones before this rise by 9 at most, it is then over 9.
// The nine starts as a slice, here and below: those of a run would have to be copied to be an array.
fn starts_right(starts: &[u8]) -> bool
    requires { (length starts.now ≡ 9) × (slice_index starts.now 0 ≡ 0) }
    ensures { result ≡ starts_right starts.now }
{
    starts
        .windows(2)
        .fold(true, |ok, pair| ok & (pair[1].wrapping_sub(pair[0]) <= 9))
}

fn layout_right(width: usize, starts: &[u8], flags: &[u8], count: u8) -> bool
    requires { (width ≤ 8) × (length starts.now ≡ 9) }
    ensures { result ≡ record_right width (layout starts.now flags.now count) }
{
    usize::from(count) <= width
        && flags_right(flags)
        && starts[0] == 0
        && starts_right(starts)
        && starts[usize::from(count)] == starts[8]
}

// ---- parts of a run by value

fn load_bytes<const N: usize>(s: &[u8], at: usize) -> [u8; N]
    requires { at + N ≤ length s.now }
    ensures { result ≡ bytes_at N s.now at }
{
    let mut out = [0; N];
    out.copy_from_slice(&s[at..at + N]);
    out
}

fn load_words(s: &[u8], at: usize) -> [u64; 8]
    requires { at + 64 ≤ length s.now }
    ensures { result ≡ words_at 8 s.now at }
{
    let mut out = [0; 8];
    word::read_words(s, at, &mut out);
    out
}

// ---- what a record of a run says

impl RecordAt<'_> {
    // Whether it passes the structure check by itself, where a batch has at most `width` groups.
    pub fn right(self, width: usize) -> bool
        requires { width ≤ 8 }
        ensures { result ≡ record_right width (recorded self.entry) }
    {
        let at = RECORD * self.b;
        layout_right(
            width,
            &self.records[at..at + FLAGS],
            &self.records[at + FLAGS..at + NUMBERS],
            self.records[at + COUNT],
        )
    }

    pub fn start(self, g: usize) -> usize
        requires { g < 9 }
        ensures { (result ≡ slice_index (recorded self.entry).starts g) × (result < 256) }
    {
        usize::from(self.records[RECORD * self.b + g])
    }

    // How many operations the batch has: where the last group ends.
    pub fn len(self) -> usize
        ensures { (result ≡ ninth (recorded self.entry)) × (result < 256) }
    {
        self.start(WIDTH)
    }

    // `g < 8`, here and where else a group is named: a type for its number would be made at each turn of a walk.
    pub fn flag(self, g: usize) -> u8
        requires { g < 8 }
        ensures { result ≡ slice_index (recorded self.entry).flags g }
    {
        self.records[RECORD * self.b + FLAGS + g]
    }

    // All eight as the bytes of one number, the first lowest: 0 where no flag is set. Four walks go by it as far as one is set (checks, prefix, strict,
    // comparison); an iterator of its own, with its end and its steps, would be longer than their three lines each.
    pub fn flags(self) -> u64
        ensures { result ≡ number 256 (recorded self.entry).flags }
    {
        word::le::<8>(self.records, RECORD * self.b + FLAGS)
    }

    // All eight sizes, each start i+1 minus start i, in the same way: where starts never fall, no byte borrows from the next.
    pub fn sizes(self) -> u64
        requires { starts_right (recorded self).starts ≡ true }
        ensures { result ≡ number 256 (differences (recorded self.entry).starts) }
    {
        let at = RECORD * self.b;
        word::le::<8>(self.records, at + 1) - word::le::<8>(self.records, at)
    }

    pub fn number(self, g: usize) -> u64
        requires { g < 8 }
        ensures { result ≡ slice_index (recorded self.entry).numbers g }
    {
        word::le::<8>(self.records, RECORD * self.b + NUMBERS + 8 * g)
    }

    pub fn count(self) -> usize
        ensures { (result ≡ (recorded self.entry).count) × (result < 256) }
    {
        usize::from(self.records[RECORD * self.b + COUNT])
    }

    // The sizes packed, four bits each, the first lowest.
    pub fn pack_indptr_deltas(self) -> u64
        requires { starts_right (recorded self).starts ≡ true }
        ensures { result ≡ number 16 (differences (recorded self.entry).starts) }
    {
        word::from_digits::<16>(&self.sizes().to_le_bytes())
    }

    // The flags packed, a bit each, the first lowest.
    pub fn pack_padding(self) -> u8
        requires { every (λ (f : ℕ). leb f 1) (recorded self).flags ≡ true }
        ensures { result ≡ number 2 (recorded self.entry).flags }
    {
        let at = RECORD * self.b + FLAGS;
        word::from_digits::<2>(&self.records[at..at + WIDTH]) as u8
    }

    pub fn load(self) -> OpBatch
        ensures { record_in result ≡ recorded self.entry }
    {
        let at = RECORD * self.b;
        OpBatch {
            starts: load_bytes(self.records, at),
            flags: load_bytes(self.records, at + FLAGS),
            groups: load_words(self.records, at + NUMBERS),
            count: self.records[at + COUNT],
        }
    }
}

// ---- stores to a record of a run

impl RecordMut<'_> {
    // One start.
    pub fn set_start(&mut self, g: usize, v: u8)
        requires { g < 9 }
        ensures { self.new ≡ stored (start_set self.old.b g v) self.old }
    {
        word::store(self.records, RECORD * self.b + g, v);
    }

    // All starts from the g-th on. The first is 0 in every record that is written, so that it is never stored.
    pub fn set_starts(&mut self, g: usize, v: u8)
        requires { (1 ≤ g) × (g ≤ 9) }
        ensures { self.new ≡ stored (starts_set self.old.b g v) self.old }
    {
        word::fill_few(self.records, RECORD * self.b + g, 9 - g, v);
    }

    pub fn set_flag(&mut self, g: usize, v: u8)
        requires { g < 8 }
        ensures { self.new ≡ stored (flag_set self.old.b g v) self.old }
    {
        word::store(self.records, RECORD * self.b + FLAGS + g, v);
    }

    pub fn set_number(&mut self, g: usize, v: u64)
        requires { g < 8 }
        ensures { self.new ≡ stored (number_set self.old.b g v) self.old }
    {
        word::store_le8(self.records, RECORD * self.b + NUMBERS + 8 * g, v);
    }

    pub fn set_count(&mut self, v: u8)
        ensures { self.new ≡ stored (count_set self.old.b v) self.old }
    {
        word::store(self.records, RECORD * self.b + COUNT, v);
    }
}

// A number of the b-th record, where the run has that record. It asks no more of b than that, so that it is no method of `RecordMut`.
pub fn put_number(records: &mut [u8], b: usize, g: usize, v: u64)
    requires { (record_size * b + record_size ≤ length records.old) × (g < 8) }
    ensures { records.new ≡ number_set b g v records.old }
{
    word::put::<8>(records, RECORD * b + NUMBERS + 8 * g, v);
}

// ---- a record by its packed forms: eight sizes in four bits each and eight flags in one bit each, the first lowest. To unpack they are taken off one by
// one: by `word::digits`, of eight at once, decode took 1.2 to 1.3 of its time.

// The nine starts that v's eight nibbles say, stored from `at` on.
fn unpack_indptr_deltas(v: u64, out: &mut [u8], at: usize)
    requires { at + 9 ≤ length out.old }
    ensures { out.new ≡ sets out.old at (starts_from 0 (digits 16 8 v)) }
{
    let mut left = v;
    let mut sum = 0;
    for i in 0..8 {
        out[at + i] = sum;
        sum += (left % 16) as u8;
        left /= 16;
    }
    out[at + 8] = sum;
}

// The eight flags that v's bits say, stored from `at` on.
fn unpack_padding(v: u8, out: &mut [u8], at: usize)
    requires { at + 8 ≤ length out.old }
    ensures { out.new ≡ sets out.old at (digits 2 8 v) }
{
    let mut left = v;
    for i in 0..8 {
        out[at + i] = left % 2;
        left /= 2;
    }
}

// The b-th record of a run, by its packed sizes and flags, its numbers and its count. Nor does this ask more of b.
pub fn store_packed(
    deltas: u64,
    flags: u8,
    groups: &[u64; 8],
    count: u8,
    records: &mut [u8],
    b: usize,
)
    requires { record_size * b + record_size ≤ length records.old }
    ensures { records.new ≡ record_set b (packed deltas flags groups.now count) records.old }
{
    let at = RECORD * b;
    unpack_indptr_deltas(deltas, records, at);
    unpack_padding(flags, records, at + FLAGS);
    word::put_words(records, at + NUMBERS, groups);
    records[at + COUNT] = count;
}

// ---- a group's number

// The sum of opcode times 128^position.
pub fn group_number(codes: &[u8]) -> u64
    requires { (length codes.now ≤ 9) × ((i : ℕ) → i < length codes.now → slice_index codes.now i < 128) }
    ensures { result ≡ number 128 codes.now }
{
    word::from_digits::<128>(codes)
}

// ---- lookups by the starts of one batch

// The first group whose end is greater than an operation number.
fn group_of(starts: &[u8; 9], index: usize) -> Option<Place>
    requires { slice_index starts.now 0 ≡ 0 }
    ensures { result ≡ found_in (group_from 0 starts.now index) }
{
    let group = (0..8).find(|group| index < usize::from(starts[*group + 1]))?;
    Some(Place {
        group,
        place: index - usize::from(starts[group]),
    })
}

// The first non-empty group from k on and under the count.
fn next_from(starts: &[u8; 9], count: usize, k: usize) -> Option<usize>
    requires { (count ≤ 8) × (k ≤ 8) }
    ensures { result ≡ next_in (first_full k (drop k (take count (differences starts.now)))) }
{
    (k..count).find(|group| starts[*group] < starts[*group + 1])
}

// ---- a record by value

// The lookups ask for the structure first, three lines each; what refuses there is the batch itself, so that nothing is handed on.
// The starts are copied before one is read by an index that is not known: read in the batch, they would keep its numbers alive, and those be copied.
impl OpBatch {
    fn right(&self, width: usize) -> bool
        requires { width ≤ 8 }
        ensures { result ≡ record_right width (record_in self.now) }
    {
        let starts = self.starts;
        layout_right(width, &starts, &self.flags, self.count)
    }

    // The group of an operation number in the batch, and its place there.
    pub fn op_idx_in_batch_to_group(self, index: usize) -> Result<Option<Place>, Refusal>
        ensures { told result ≡ lookup_of (group_lookup 8 (record_in self) index) }
    {
        if !self.right(WIDTH) {
            return Err(Refusal::BadStructure { batch: 0 });
        }
        let starts = self.starts;
        Ok(group_of(&starts, index))
    }

    // The next group with operations after a group.
    pub fn next_op_group_index(self, group: usize) -> Result<Option<usize>, Refusal>
        ensures { told result ≡ next_of (next_lookup 8 (record_in self) group) }
    {
        if !self.right(WIDTH) {
            return Err(Refusal::BadStructure { batch: 0 });
        }
        if 7 <= group {
            return Ok(None);
        }
        let starts = self.starts;
        Ok(next_from(&starts, usize::from(self.count), group + 1))
    }
}
