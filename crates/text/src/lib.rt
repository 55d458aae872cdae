// The lines, words and numbers of a text, for the programs that read one.
#![tactic(auto)]

ghost use Rattle.std.specs.Prelude.{◌≡◌, ◌<◌, ◌≤◌, ◌+◌, ◌-◌, ◌*◌, ◌^◌, ◌++◌, ℕ, List, length};
ghost use Rattle.std.specs.Option.{SomeIff};
ghost use Rattle.std.specs.Char.{digit_value};
ghost use Rattle.std.specs.Str.Parse.{ParsesUpTo};
ghost use Rattle.text.specs.Base.{base};

// ---- numbers

#[derive(Clone, Copy, Debug, PartialEq, Eq)]
pub enum Radix {
    Decimal = 10,
    Hex = 16,
}

impl Radix {
    // The value of a digit, small or capital.
    fn digit(self, b: u8) -> Option<u32>
        ensures { SomeIff result (digit_value b < base self) (digit_value b) }
    {
        char::from(b).to_digit(self as u32)
    }

    // A number with a digit more, if that is within 64 bits.
    fn with_digit(self, value: u64, digit: u32) -> Option<u64>
        ensures { SomeIff result (value * base self + digit < 2 ^ 64) (value * base self + digit) }
    {
        value
            .checked_mul(self as u64)
            .and_then(|value| value.checked_add(u64::from(digit)))
    }
}

// Why a text is no number: it has something else than digits, or no digit; or it is over 64 bits.
#[derive(Clone, Copy, Debug, PartialEq, Eq)]
pub enum NotNumber {
    Digits,
    Large,
}

// The number that the whole text is.
pub fn number(text: &[u8], radix: Radix) -> Result<u64, NotNumber>
    ensures { ParsesUpTo (2 ^ 64 - 1) (base radix) text.now result }
{
    if text.is_empty() {
        return Err(NotNumber::Digits);
    }
    let mut value: u64 = 0;
    for b in text {
        let digit = radix.digit(*b).ok_or(NotNumber::Digits)?;
        value = radix.with_digit(value, digit).ok_or(NotNumber::Large)?;
    }
    Ok(value)
}

// In hex after 0x, else decimal.
pub fn either(text: &[u8]) -> Result<u64, NotNumber> {
    match text {
        [b'0', b'x' | b'X', digits @ ..] => number(digits, Radix::Hex),
        _ => number(text, Radix::Decimal),
    }
}

pub fn starts_number(text: &[u8]) -> bool {
    text.first().is_some_and(|b| b.is_ascii_digit())
}

// Where the digits from a place on end.
fn digits_end(s: &[u8], from: usize, radix: Radix) -> usize
    requires { from ≤ length s.now }
    ensures { (from ≤ result) × (result ≤ length s.now) }
{
    from + place(&s[from..], |b| radix.digit(b).is_none())
}

pub fn decimal_end(s: &[u8], from: usize) -> usize
    requires { from ≤ length s.now }
    ensures { (from ≤ result) × (result ≤ length s.now) }
{
    digits_end(s, from, Radix::Decimal)
}

pub fn hex_end(s: &[u8], from: usize) -> usize
    requires { from ≤ length s.now }
    ensures { (from ≤ result) × (result ≤ length s.now) }
{
    digits_end(s, from, Radix::Hex)
}

// ---- words

// The place of the first byte that stops; the end where none does.
fn place<S: Fn(u8) -> bool>(s: &[u8], stops: S) -> usize
    requires { S.IsAlwaysCallable stops }
    ensures { result ≤ length s.now }
{
    s.iter().position(|b| stops(*b)).unwrap_or(s.len())
}

// What parts words.
fn blank(b: u8) -> bool {
    matches!(b, b' ' | b'\t' | b'\r' | b'\n')
}

fn without_blanks(s: &[u8]) -> &[u8]
    ensures { (front : List ℕ) × (s.now ≡ front ++ result.now) }
{
    &s[place(s, |b| !blank(b))..]
}

// The words of a line: what stands in front of its comment, without the blanks around it.
pub fn words(line: &[u8]) -> &[u8]
    ensures { (front end : List ℕ) × (line.now ≡ front ++ result.now ++ end) }
{
    let line = &line[..place(line, |b| b == b'#')];
    let end = line
        .iter()
        .rposition(|b| !blank(*b))
        .map_or(0, |last| last + 1);
    without_blanks(&line[..end])
}

// The first word, and what comes after it. A parenthesis ends a word too, so that `push(5)` has two.
pub fn split_word(words: &[u8]) -> (&[u8], &[u8])
    ensures { (front middle : List ℕ) × (words.now ≡ front ++ result.0.now ++ middle ++ result.1.now) }
{
    let words = without_blanks(words);
    let (word, rest) = words.split_at(place(words, |b| matches!(b, b'(' | b')') || blank(b)));
    (word, without_blanks(rest))
}
