// A page in a run of bytes that is lent, as `Page` is one of its own: 65,536 bytes of text, eight for how many of them are filled, one for where the page
// goes and one for a write that failed. Any run is one, of what it has: what it has no room for falls away. These functions ask for no more than that, and
// none of them can fail; who has a choice writes to a `Page`.
ghost use Rattle.std.specs.Prelude.{◌≡◌, ◌≤◌, ◌<◌, length};

use crate::{Text, tell_failed, why_unread};
use std::fmt;
use std::fmt::Write;
use std::io::{Error, ErrorKind, Result};

const TEXT: usize = 65536;

const TO: usize = 65544;

const FAILED: usize = 65545;

fn page(to: u8) -> [u8; 65546]
    ensures { 65546 ≡ length result }
{
    let mut page = [0; 65546];
    page[TO] = to;
    page
}

// A page for what was asked.
pub fn output() -> [u8; 65546]
    ensures { 65546 ≡ length result }
{
    page(1)
}

// A page for what is wrong.
pub fn errors() -> [u8; 65546]
    ensures { 65546 ≡ length result }
{
    page(2)
}

// A byte, or eight as a number; 0 past a run's end.
pub fn byte(s: &[u8], at: usize) -> usize
    ensures { result < 256 }
{
    s.get(at).map_or(0, |b| usize::from(*b))
}

pub fn long(s: &[u8], at: usize) -> u64 {
    match s.get(at..) {
        Some([a, b, c, d, e, f, g, h, ..]) => u64::from_le_bytes([*a, *b, *c, *d, *e, *f, *g, *h]),
        _ => 0,
    }
}

fn filled(page: &[u8]) -> usize
    ensures { result ≤ 65536 }
{
    TEXT.min(long(page, TEXT) as usize)
}

fn set_filled(page: &mut [u8], n: usize) {
    let Some(place) = page.get_mut(TEXT..) else {
        return;
    };
    for (place, byte) in place.iter_mut().zip((n as u64).to_le_bytes()) {
        *place = byte;
    }
}

fn write_out(rt: HostRuntime, page: &[u8], n: usize) -> Result<()> {
    let text = page.get(..n).ok_or(Error::from(ErrorKind::InvalidInput))?;
    match byte(page, TO) {
        1 => rt.stdout().write_all(text),
        _ => rt.stderr().write_all(text),
    }
}

// Writes what the page has. A write that fails is told once, and what comes after it is dropped.
pub fn flush(rt: HostRuntime, page: &mut [u8]) -> bool {
    let n = filled(page);
    set_filled(page, 0);
    if byte(page, FAILED) != 0 {
        return false;
    }
    let Err(error) = write_out(rt, page, n) else {
        return true;
    };
    tell_failed(rt, "standard output", error);
    if let Some(failed) = page.get_mut(FAILED) {
        *failed = 1;
    }
    false
}

// A text after `at` bytes of a page, or of a run of 65,536; and where it ends.
pub fn copy(page: &mut [u8], at: usize, text: &[u8]) -> usize
    requires { at ≤ 65536 }
    ensures { result ≤ 65536 }
{
    let n = text.len().min(TEXT - at);
    if let Some(page) = page.get_mut(at..) {
        let k = n.min(page.len());
        page[..k].copy_from_slice(&text[..k]);
    }
    at + n
}

// A text that is no longer than a page.
pub fn say(rt: HostRuntime, page: &mut [u8], text: &[u8]) {
    if TEXT - filled(page) < text.len() {
        flush(rt, page);
    }
    let end = copy(page, filled(page), text);
    set_filled(page, end);
}

// What is written to such a page.
#[derive(Drop)]
pub struct Lent<'a> {
    pub rt: HostRuntime,
    pub page: &'a mut [u8],
}

impl fmt::Write for Lent<'_> {
    fn write_str(&mut self, text: &str) -> fmt::Result {
        say(self.rt, self.page, text.as_bytes());
        Ok(())
    }
}

// A text that is said at once: on a run that is too short to know how much of it is filled, each lies over the one before.
fn say_text<D: fmt::Display + Drop>(rt: HostRuntime, page: &mut [u8], text: D) {
    let mut said = Text::<64>::new();
    let _ = said.write(text);
    say(rt, page, said.as_bytes());
}

pub fn number(rt: HostRuntime, page: &mut [u8], n: u64) {
    say_text(rt, page, n);
}

// A number with its thing, one or several.
pub fn counted(rt: HostRuntime, page: &mut [u8], n: usize, one: &[u8], several: &[u8]) {
    number(rt, page, n as u64);
    say(rt, page, if n == 1 { one } else { several });
}

// A byte in hex.
pub fn hex(rt: HostRuntime, page: &mut [u8], b: u8) {
    say_text(rt, page, format_args!("{b:02x}"));
}

// Somebody else's text, cut after so many bytes.
pub fn quote(rt: HostRuntime, page: &mut [u8], text: &[u8], most: usize) {
    for b in text.iter().take(most) {
        match *b {
            32..=126 => say(rt, page, &[*b]),
            _ => {
                say(rt, page, b"\\x");
                hex(rt, page, *b);
            }
        }
    }
    if most < text.len() {
        say(rt, page, b"..");
    }
}

// How a line about a file starts.
pub fn about(rt: HostRuntime, page: &mut [u8], program: &[u8], path: &[u8]) {
    say(rt, page, program);
    say(rt, page, b": ");
    quote(rt, page, path, 4096);
}

// What kept a file from being read, by the failed call's error, and the line's end.
pub fn unread(rt: HostRuntime, page: &mut [u8], error: Error) {
    say_text(rt, page, format_args!("{}\n", why_unread(error)));
}
