// Runs of 64-bit numbers that cross the language boundary as little-endian bytes.
#![tactic(auto)]

ghost use Rattle.std.specs.Prelude.{◌≡◌, ◌*◌, ◌/◌, ◌≤◌, min, length, take};
ghost use Rattle.rules.specs.Lists.{fitted};
ghost use Rattle.rules.specs.Record.{word_bytes};
ghost use Rattle.crossing.specs.Words.{words_in, few_words, has_word};

// The sizes of the work space: what a call costs must follow what it is lent, so few numbers get little of it.
pub const SMALL: usize = 64;

pub const MIDDLE: usize = 2048;

// The longest index table of a block has so many entries, one more than the values of the largest block.
pub const LARGE: usize = 65536;

#[tactic(auto, unfolding(crate::specs::Words::few_words))]
pub fn few_words(s: &[u8]) -> bool
    ensures { result ≡ few_words s.now }
{
    s.len() % 8 == 0 && s.len() / 8 <= LARGE
}

#[tactic(auto, unfolding(crate::specs::Words::has_word))]
pub fn has_word(s: &[u8], i: usize) -> bool
    ensures { result ≡ has_word s.now i }
{
    s.len() % 8 == 0 && i < s.len() / 8
}

// ---- in

// The numbers of a run, at the front of the work space.
pub fn read_words(s: &[u8], work: &mut [u64])
    requires { length s.now / 8 ≤ length work.old }
    ensures { take (length s.now / 8) work.new ≡ words_in s.now }
{
    word::read_words(s, 0, &mut work[..s.len() / 8]);
}

// ---- out

// How many numbers are lent for an output of n bytes: those that fit, as far as a block can use them.
pub fn lent(n: usize) -> usize
    ensures { result ≡ min (n / 8) 65536 }
{
    (n / 8).min(LARGE)
}

// The numbers as bytes, then zeros.
pub fn bytes_out(words: &[u64], out: &mut [u8])
    requires { 8 * length words.now ≤ length out.old }
    ensures { out.new ≡ fitted (length out.old) (word_bytes words.now) }
{
    word::put_words(out, 0, words);
    word::zero_after(out, 8 * words.len());
}
