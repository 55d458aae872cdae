// Bytes and words in lent runs: little-endian numbers, stores that fall away past the end, zeroed tails.
#![tactic(auto)]

ghost use Rattle.std.specs.Prelude.{◌≡◌, ◌+◌, ◌-◌, ◌*◌, ◌≤◌, ◌<◌, ◌^◌, ◌++◌, ℕ, List, length, take, set, replicate, pos};
ghost use Rattle.std.proofs.lemmas.List.Edits.{sets};
ghost use Rattle.rules.specs.Digits.{digits, number, le_at, le_bytes};
ghost use Rattle.rules.specs.Lists.{fitted};
ghost use Rattle.rules.specs.Record.{words_at, word_bytes};
ghost use Rattle.word.specs.Numbers.{zeroed, fitted_after, zeroed_after};

// ---- little-endian numbers

// The number that the N bytes from `at` make.
pub fn le<const N: usize>(s: &[u8], at: usize) -> u64
    requires { (N ≤ 8) × (at + N ≤ length s.now) }
    ensures { (result ≡ le_at N s.now at) × (result < 256 ^ N) }
{
    let mut bytes = [0; 8];
    bytes[..N].copy_from_slice(&s[at..at + N]);
    u64::from_le_bytes(bytes)
}

// The N lowest bytes of v, stored from `at` on.
pub fn put<const N: usize>(out: &mut [u8], at: usize, v: u64)
    requires { (N ≤ 8) × (at + N ≤ length out.old) }
    ensures { out.new ≡ sets out.old at (le_bytes N v) }
{
    out[at..at + N].copy_from_slice(&v.to_le_bytes()[..N]);
}

// ---- runs of numbers, eight bytes to each

// As many numbers as there is room for, from `at` on.
pub fn read_words(s: &[u8], at: usize, words: &mut [u64])
    requires { at + 8 * length words.old ≤ length s.now }
    ensures { words.new ≡ words_at (length words.old) s.now at }
{
    for i in 0..words.len() {
        words[i] = le::<8>(s, at + 8 * i);
    }
}

pub fn put_words(out: &mut [u8], at: usize, words: &[u64])
    requires { at + 8 * length words.now ≤ length out.old }
    ensures { out.new ≡ sets out.old at (word_bytes words.now) }
{
    for (i, number) in words.iter().enumerate() {
        put::<8>(out, at + 8 * i, *number);
    }
}

// ---- numbers in a base, the lowest digit first

// The N lowest digits of v.
pub fn digits<const B: u64, const N: usize>(v: u64) -> [u8; N]
    requires { (2 ≤ B) × (B ≤ 256) }
    ensures { result ≡ digits B N v }
{
    let mut out = [0; N];
    let mut left = v;
    for digit in out.iter_mut() {
        *digit = (left % B) as u8;
        left /= B;
    }
    out
}

// The number that has these digits. No `fold`: its closure would have to ask that each sum fits.
pub fn from_digits<const B: u64>(digits: &[u8]) -> u64
    requires { (1 ≤ B) × (number B digits.now < 2 ^ 64) }
    ensures { result ≡ number B digits.now }
{
    let mut v = 0;
    for digit in digits.iter().rev() {
        v = v * B + u64::from(*digit);
    }
    v
}

// ---- stores that fall away past the end, as `set` and `sets` do on lists; where one may be of several bytes, its place is low enough that they can be counted

pub fn store<T: Copy>(out: &mut [T], at: usize, v: T)
    ensures { out.new ≡ set out.old at v }
{
    if at < out.len() {
        out[at] = v;
    }
}

// A number as eight bytes, the lowest first.
pub fn store_le8(out: &mut [u8], at: usize, v: u64)
    requires { at < 2 ^ 62 }
    ensures { out.new ≡ sets out.old at (le_bytes 8 v) }
{
    if at + 8 <= out.len() {
        put::<8>(out, at, v);
    } else {
        put_some(out, at, v);
    }
}

// As many of the bytes as fit.
fn put_some(out: &mut [u8], at: usize, v: u64)
    requires { at < 2 ^ 62 }
    ensures { out.new ≡ sets out.old at (le_bytes 8 v) }
{
    let end = out.len().min(at + 8);
    if at < end {
        out[at..end].copy_from_slice(&v.to_le_bytes()[..end - at]);
    }
}

// n copies of a value. A loop, here and in `zero_after`: std's `fill` asks for a `clone` that can't fail, which `Copy` doesn't say.
pub fn fill<T: Copy>(out: &mut [T], at: usize, n: usize, v: T)
    requires { at + n < 2 ^ 64 }
    ensures { out.new ≡ sets out.old at (replicate n v) }
{
    for i in at..out.len().min(at + n) {
        out[i] = v;
    }
}

// Up to eight copies of a byte, by two stores that may overlap: no loop has to foresee how many there are.
pub fn fill_few(out: &mut [u8], at: usize, n: usize, v: u8)
    requires { (at < 2 ^ 62) × (n ≤ 8) }
    ensures { out.new ≡ sets out.old at (replicate n v) }
{
    if out.len() < at + n {
        fill(out, at, n, v);
    } else if 4 <= n {
        let same = u64::from(v) * 0x0101_0101;
        put::<4>(out, at, same);
        put::<4>(out, at + n - 4, same);
    } else if 2 <= n {
        let same = u64::from(v) * 0x0101;
        put::<2>(out, at, same);
        put::<2>(out, at + n - 2, same);
    } else if n == 1 {
        out[at] = v;
    }
}

// ---- zeroed tails: what the run begins with stays, up to index k

// A number, and how a run of such is said to be zeroed after its first k. Those of u8 and u64 are alike: an impl may be written by no macro of the repository.
pub trait Number: Copy {
    const ZERO: Self;

    ghost ZERO: { Self };

    ghost zeroed: { List Self → ℕ → List Self };

    ghost kept_then_zeros: { (s : List Self) (k : ℕ) → zeroed s k ≡ take k s ++ replicate (length s - k) ZERO };
}

impl Number for u8 {
    const ZERO: u8 = 0;

    ghost ZERO = { 0 };

    ghost zeroed = { λ s k. fitted (length s) (take k s) };

    ghost kept_then_zeros = { fitted_after };
}

impl Number for u64 {
    const ZERO: u64 = 0;

    ghost ZERO = { 0 };

    ghost zeroed = { λ s k. fitted (length s) (take k s) };

    ghost kept_then_zeros = { fitted_after };
}

impl Number for i32 {
    const ZERO: i32 = 0;

    ghost ZERO = { pos 0 };

    ghost zeroed = { zeroed };

    ghost kept_then_zeros = { zeroed_after };
}

pub fn zero_after<T: Number>(out: &mut [T], k: usize)
    ensures { out.new ≡ T.zeroed out.old k }
{
    for i in k..out.len() {
        out[i] = T::ZERO;
    }
}

// The runs of a block: operations after the first n, and bytes of records after the first m.
pub fn clear_after<T: Number>(
    codes: &mut [u8],
    values: &mut [T],
    records: &mut [u8],
    n: usize,
    m: usize,
)
    ensures codes { codes.new ≡ fitted (length codes.old) (take n codes.old) }
    ensures values { values.new ≡ T.zeroed values.old n }
    ensures records { records.new ≡ fitted (length records.old) (take m records.old) }
{
    zero_after(codes, n);
    zero_after(values, n);
    zero_after(records, m);
}
