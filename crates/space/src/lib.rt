// Room for the largest block, and a little more so that a test can go over each limit. The `ensures` gives the length, which lending an array
// asks for; so each is a function of its own, and not one for any length.
#![tactic(auto)]

ghost use Rattle.std.specs.Prelude.{◌≡◌, ◌≤◌, ◌++◌, ℕ, List, [], ◌∷◌, length, take, replicate, MatchResult};

use std::marker::Model;

// 65,535 operations, and one.
pub fn codes() -> [u8; 65536]
    ensures { 65536 ≡ length result }
{
    [0; 65536]
}

pub fn values() -> [u64; 65536]
    ensures { 65536 ≡ length result }
{
    [0; 65536]
}

// 16,384 records, and two.
pub fn records() -> [u8; 1343652]
    ensures { 1343652 ≡ length result }
{
    [0; 1343652]
}

// As many bytes as a block may lie in.
pub fn bytes() -> [u8; 1048576]
    ensures { 1048576 ≡ length result }
{
    [0; 1048576]
}

// 16,384 operations: a list to batch.
pub fn list_codes() -> [u8; 16384]
    ensures { 16384 ≡ length result }
{
    [0; 16384]
}

pub fn list_values() -> [u64; 16384]
    ensures { 16384 ≡ length result }
{
    [0; 16384]
}

// ---- a block

// Room for the largest block.
#[derive(Drop)]
pub struct Room {
    pub codes: [u8; 65536],
    pub values: [u64; 65536],
    pub records: [u8; 1343652],
}

impl Room {
    pub fn new() -> Room
        ensures codes { result.codes ≡ replicate 65536 0 }
        ensures values { result.values ≡ replicate 65536 0 }
        ensures records { result.records ≡ replicate 1343652 0 }
    {
        Room {
            codes: [0; 65536],
            values: [0; 65536],
            records: [0; 1343652],
        }
    }
}

// ---- a list to batch

// There is no room for one more.
#[derive(Clone, Copy, Debug, PartialEq, Eq)]
pub struct Full;

// The codes and the values of the operations, in order: two arrays, as build is lent them, and how many places of each are filled. There is no heap.
#[derive(Drop)]
pub struct List {
    codes: [u8; 16384],
    values: [u64; 16384],
    count: usize,
}

impl Model for List {
    ghost Value = { List ℕ × List ℕ };

    ghost view = { λ list. (take list.count list.codes, take list.count list.values) };

    ghost invariant = { λ list. list.count ≤ 16384 };
}

impl List {
    pub fn new() -> List
        ensures { result ≡ ([], []) }
    {
        List {
            codes: [0; 16384],
            values: [0; 16384],
            count: 0,
        }
    }

    pub fn push(&mut self, code: u8, value: u64) -> Result<(), Full>
        ensures { MatchResult result
            (λ _. self.new ≡ (self.old.0 ++ code ∷ [], self.old.1 ++ value ∷ []))
            (λ _. (self.new ≡ self.old) × (length self.old.0 ≡ 16384)) }
    {
        let i = self.count;
        if i == self.codes.len() {
            return Err(Full);
        }
        self.codes[i] = code;
        self.values[i] = value;
        self.count += 1;
        Ok(())
    }

    pub fn codes(&self) -> &[u8]
        ensures listed { result.now ≡ self.now.0 }
        ensures room { (length self.now.0 ≡ length self.now.1) × (length self.now.0 ≤ 16384) }
    {
        &self.codes[..self.count]
    }

    pub fn values(&self) -> &[u64]
        ensures listed { result.now ≡ self.now.1 }
        ensures room { (length self.now.0 ≡ length self.now.1) × (length self.now.0 ≤ 16384) }
    {
        &self.values[..self.count]
    }
}
