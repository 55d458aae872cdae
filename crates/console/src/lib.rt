// What the programs read, print and say. What is printed goes to a page, which is written when it is full and when it is flushed.
#![tactic(auto)]

ghost use Rattle.console.specs.Said.{said};
ghost use Rattle.console.specs.Took.{bytes_of, Took};
ghost use Rattle.console.specs.declared.Stream.TheVariants.{Output, Errors};
ghost use Rattle.std.specs.Prelude.{◌≡◌, ◌+◌, ◌<◌, ◌≤◌, ◌++◌, ℕ, List, [], length, take, IsTrue, MatchResult, IfOk, IfSome, Bool, true, false, nat_lt};
ghost use Rattle.io.specs.Counts.{IsPrefixLen};

use std::env::{Env, FillError};
use std::fmt;
use std::fmt::Write;
use std::fs::File;
use std::io::{Error, ErrorKind, Read, Result};
use std::marker::Model;

mod lent;

pub use lent::{
    Lent, about, byte, copy, counted, errors, flush, hex, long, number, output, quote, say, unread,
};

// ---- reading

// How many bytes were read; and the error of a read that failed, which is not the end of the file.
#[derive(Clone, Copy)]
pub struct Got {
    pub count: usize,
    pub failed: Option<Error>,
}

// Reads until the room is full, the file ends or a read fails. No `for`: it goes on by as many as were read.
pub fn fill<F: Read>(file: &mut F, room: &mut [u8]) -> Got
    ensures { IsPrefixLen result.count room.new }
{
    let mut n = 0;
    while n < room.len() {
        match file.read(&mut room[n..]) {
            Ok(0) => break,
            Ok(more) => n += more,
            Err(error) => {
                return Got {
                    count: n,
                    failed: Some(error),
                };
            }
        }
    }
    Got {
        count: n,
        failed: None,
    }
}

// A read that failed, and how many bytes had come before it.
#[derive(Clone, Copy)]
pub struct Broken {
    pub count: usize,
    pub error: Error,
}

impl From<Broken> for Error {
    fn from(broken: Broken) -> Error {
        broken.error
    }
}

// The bytes that `fill` reads.
pub fn load<'a, F: Read>(file: &mut F, room: &'a mut [u8]) -> std::result::Result<&'a [u8], Broken>
    ensures { MatchResult result (λ bytes. length bytes.now ≤ length room.old) (λ broken. broken.count ≤ length room.old) }
{
    let Got { count, failed } = fill(file, room);
    match failed {
        None => Ok(&room[..count]),
        Some(error) => Err(Broken { count, error }),
    }
}

// What a room took of a file: the whole file, or as much as fills the room, so that there may be more.
#[derive(Clone, Copy)]
pub enum Filled<'a> {
    Whole(&'a [u8]),
    Full(&'a [u8]),
}

impl<'a> Filled<'a> {
    pub fn bytes(self) -> &'a [u8]
        ensures { result.now ≡ bytes_of self.entry }
    {
        match self {
            Filled::Whole(bytes) | Filled::Full(bytes) => bytes,
        }
    }
}

// The same, and which it was.
pub fn read<'a, F: Read>(file: &mut F, room: &'a mut [u8]) -> Result<Filled<'a>>
    ensures { IfOk result (Took (length room.old)) }
{
    let most = room.len();
    let bytes = load(file, room)?;
    Ok(if bytes.len() < most {
        Filled::Whole(bytes)
    } else {
        Filled::Full(bytes)
    })
}

// The name of a file, which is text.
pub fn name(path: &[u8]) -> Result<&str> {
    str::from_utf8(path).map_err(|_| Error::new(ErrorKind::InvalidInput, "the name is not text"))
}

// A file to be read.
pub fn open(rt: HostRuntime, path: &[u8]) -> Result<File> {
    File::open(&rt, name(path)?)
}

// How many arguments there are, the program's own name among them.
pub fn arguments(rt: HostRuntime) -> usize {
    let mut none = [0u8; 1];
    (0..usize::MAX)
        .find(|i| matches!(rt.arg(*i, &mut none), Err(FillError::NotPresent)))
        .unwrap_or(usize::MAX)
}

// The i-th argument; none where it is missing, or longer than the room.
pub fn argument_bytes(rt: HostRuntime, i: usize, room: &mut [u8]) -> Option<&[u8]>
    ensures { IfSome result (λ word. length word.now ≤ length room.old) }
{
    match rt.arg(i, room) {
        Ok(n) => Some(&room[..n]),
        Err(_) => None,
    }
}

// The same at the start of the room: how many bytes it has, 0 where there is none.
pub fn argument(rt: HostRuntime, i: usize, room: &mut [u8]) -> usize
    ensures { IsPrefixLen result room.new }
{
    rt.arg(i, room).unwrap_or(0)
}

// ---- text

// Text in fixed memory; what does not fit falls away.
#[derive(Drop)]
pub struct Text<const N: usize> {
    bytes: [u8; N],
    filled: usize,
}

impl<const N: usize> Model for Text<N> {
    ghost Value = { List ℕ };

    ghost view = { λ text. take text.filled text.bytes };

    ghost invariant = { λ text. text.filled ≤ N };
}

impl<const N: usize> Text<N> {
    pub fn new() -> Self
        ensures { result ≡ [] }
    {
        Text {
            bytes: [0; N],
            filled: 0,
        }
    }

    pub fn as_bytes(&self) -> &[u8]
        ensures { result.now ≡ self.now }
    {
        &self.bytes[..self.filled]
    }

    // How many bytes still fit.
    fn left(&self) -> usize
        ensures { length self.now + result ≡ N }
    {
        N - self.filled
    }

    pub fn push(&mut self, text: &[u8])
        ensures { self.new ≡ take N (self.old ++ text.now) }
    {
        let n = text.len().min(self.left());
        let from = self.filled;
        let bytes = &mut self.bytes[..];
        bytes[from..from + n].copy_from_slice(&text[..n]);
        self.filled += n;
    }

    fn clear(&mut self)
        ensures { self.new ≡ [] }
    {
        self.filled = 0;
    }
}

impl<const N: usize> fmt::Write for Text<N> {
    fn write_str(&mut self, text: &str) -> fmt::Result {
        self.push(text.as_bytes());
        Ok(())
    }
}

// ---- a page

// A page is for one of these two and for nothing else: with a type parameter any writer could be taken for one.
#[derive(Clone, Copy)]
enum Stream {
    Output,
    Errors,
}

#[derive(Drop)]
pub struct Page {
    rt: HostRuntime,
    to: Stream,
    text: Text<65536>,
    failed: bool,
}

impl Page {
    // A page for what was asked.
    pub fn output(rt: HostRuntime) -> Page
        ensures { (result.to ≡ Output) × (result.text ≡ []) × (result.failed ≡ false) }
    {
        Page::new(rt, Stream::Output)
    }

    // A page for what is wrong.
    pub fn errors(rt: HostRuntime) -> Page
        ensures { (result.to ≡ Errors) × (result.text ≡ []) × (result.failed ≡ false) }
    {
        Page::new(rt, Stream::Errors)
    }

    fn new(rt: HostRuntime, to: Stream) -> Page
        ensures { (result.to ≡ to) × (result.text ≡ []) × (result.failed ≡ false) }
    {
        Page {
            rt,
            to,
            text: Text::new(),
            failed: false,
        }
    }

    fn write_out(&self) -> Result<()> {
        let text = self.text.as_bytes();
        match self.to {
            Stream::Output => self.rt.stdout().write_all(text),
            Stream::Errors => self.rt.stderr().write_all(text),
        }
    }

    // Writes what the page has. A write that fails is told once, and what comes after it is dropped.
    pub fn flush(&mut self) -> fmt::Result
        ensures stream { self.new.to ≡ self.old.to }
        ensures told { MatchResult result
            (λ _. (self.new.text ≡ []) × (self.old.failed ≡ false) × (self.new.failed ≡ false))
            (λ _. self.new.failed ≡ true) }
    {
        if self.failed {
            return Err(fmt::Error);
        }
        if let Err(error) = self.write_out() {
            tell_failed(self.rt, "standard output", error);
            self.failed = true;
            return Err(fmt::Error);
        }
        self.text.clear();
        Ok(())
    }

    // A text that is no longer than a page.
    pub fn say(&mut self, text: &[u8]) -> fmt::Result
        ensures stream { self.new.to ≡ self.old.to }
        ensures said { MatchResult result
            (λ _. self.new.text ≡ said self.old.text text.now)
            (λ _. self.new.failed ≡ true) }
    {
        if self.text.left() < text.len() {
            self.flush()?;
        }
        self.text.push(text);
        Ok(())
    }
}

impl fmt::Write for Page {
    fn write_str(&mut self, text: &str) -> fmt::Result {
        self.say(text.as_bytes())
    }
}

// A number with its thing, one or several.
#[derive(Clone, Copy)]
pub struct Count<'a> {
    number: usize,
    thing: &'a str,
}

impl<'a> Count<'a> {
    pub fn of(number: usize, one: &'a str, several: &'a str) -> Count<'a> {
        Count {
            number,
            thing: if number == 1 { one } else { several },
        }
    }
}

impl fmt::Display for Count<'_> {
    fn fmt<W: fmt::Write>(&self, f: &mut fmt::Formatter<W>) -> fmt::Result {
        write!(f, "{} {}", self.number, self.thing)
    }
}

// Somebody else's text, cut after so many bytes; with \xNN for a byte that is not printable.
#[derive(Clone, Copy)]
pub struct Quoted<'a> {
    text: &'a [u8],
    is_cut: bool,
}

impl<'a> Quoted<'a> {
    pub fn of(text: &'a [u8], most: usize) -> Quoted<'a>
        ensures text { result.text.now ≡ take most text.now }
        ensures is_cut { result.is_cut ≡ nat_lt most (length text.now) }
    {
        let n = text.len().min(most);
        Quoted {
            text: &text[..n],
            is_cut: n < text.len(),
        }
    }
}

// The name of a file.
pub fn quote_name(path: &[u8]) -> Quoted<'_>
    ensures text { result.text.now ≡ take 4096 path.now }
    ensures is_cut { result.is_cut ≡ nat_lt 4096 (length path.now) }
{
    Quoted::of(path, 4096)
}

impl fmt::Display for Quoted<'_> {
    fn fmt<W: fmt::Write>(&self, f: &mut fmt::Formatter<W>) -> fmt::Result {
        for b in self.text {
            match *b {
                32..=126 => f.write_char(char::from(*b))?,
                _ => write!(f, "\\x{b:02x}")?,
            }
        }
        if self.is_cut {
            f.write_str("..")?;
        }
        Ok(())
    }
}

// ---- what is wrong with a file, in one line

// The words of an error less its number, which the system's end in.
fn without_number(words: &[u8]) -> &[u8] {
    match words
        .windows(11)
        .position(|part| part == b" (os error ".as_slice())
    {
        Some(end) => &words[..end],
        None => words,
    }
}

// A line by itself, past any page: what failed, a colon and the system's words.
fn tell_failed(rt: HostRuntime, what: &str, error: Error) {
    let mut words = Text::<256>::new();
    let _ = write!(words, "{error}");
    let to = rt.stderr();
    let _ = to.write_all(what.as_bytes());
    let _ = to.write_all(b": ");
    let _ = to.write_all(without_number(words.as_bytes()));
    let _ = to.write_all(b"\n");
}

// How a line about a file starts.
fn start(page: &mut Page, program: &[u8], path: &[u8]) -> fmt::Result {
    page.say(program)?;
    write!(page, ": {}", quote_name(path))
}

// A call that failed, in the system's words.
pub fn fail(rt: HostRuntime, program: &[u8], path: &[u8], error: Error) {
    let mut page = Page::errors(rt);
    if start(&mut page, program, path).is_ok() {
        let _ = page.flush();
    }
    tell_failed(rt, "", error);
}

// What kept a file from being read, by the failed call's error.
pub fn why_unread(error: Error) -> &'static str {
    match error.kind() {
        ErrorKind::NotFound | ErrorKind::NotADirectory => "there is no such file",
        ErrorKind::PermissionDenied => "it may not be read",
        ErrorKind::IsADirectory => "it is a directory",
        ErrorKind::InvalidFilename => "its name is too long",
        _ => "it cannot be read",
    }
}

fn say_wrong(page: &mut Page, program: &[u8], path: &[u8], what: &[u8]) -> fmt::Result {
    start(page, program, path)?;
    page.say(b": ")?;
    page.say(what)?;
    page.say(b"\n")?;
    page.flush()
}

pub fn wrong(rt: HostRuntime, program: &[u8], path: &[u8], what: &[u8]) {
    let _ = say_wrong(&mut Page::errors(rt), program, path, what);
}

fn print_to<D: fmt::Display + Drop>(page: &mut Page, text: D) {
    if page.write(text).is_ok() {
        let _ = page.flush();
    }
}

// One text by itself.
pub fn print_text<D: fmt::Display + Drop>(rt: HostRuntime, text: D) {
    let mut page = Page::output(rt);
    print_to(&mut page, text);
}

pub fn tell_text<D: fmt::Display + Drop>(rt: HostRuntime, text: D) {
    let mut page = Page::errors(rt);
    print_to(&mut page, text);
}

// The same of any bytes.
fn say_to(page: &mut Page, text: &[u8]) {
    if page.say(text).is_ok() {
        let _ = page.flush();
    }
}

pub fn print(rt: HostRuntime, text: &[u8]) {
    say_to(&mut Page::output(rt), text);
}

pub fn print_number(rt: HostRuntime, n: usize) {
    print_text(rt, n);
}

pub fn tell(rt: HostRuntime, text: &[u8]) {
    say_to(&mut Page::errors(rt), text);
}

// Bytes by themselves, past any page. Where they are not taken, that is told, and what comes after them is tried all the same.
pub fn print_bytes(rt: HostRuntime, bytes: &[u8]) {
    if let Err(error) = rt.stdout().write_all(bytes) {
        tell_failed(rt, "standard output", error);
    }
}

#[derive(Clone, Copy)]
struct Pieces {
    rt: HostRuntime,
}

impl fmt::Write for Pieces {
    fn write_str(&mut self, text: &str) -> fmt::Result {
        print_bytes(self.rt, text.as_bytes());
        Ok(())
    }
}

// A text whose pieces, its arguments and what stands between them, are printed so one after the other.
pub fn print_pieces<D: fmt::Display + Drop>(rt: HostRuntime, text: D) {
    let mut pieces = Pieces { rt };
    let _ = pieces.write(text);
}
