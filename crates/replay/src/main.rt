// A fixed list of session files, each held to the listing that the source gave for it.
// Standard input has, for each: its length in 4 bytes, the file, the listing's length in 4 bytes, the listing. The first file whose listing differs is
// named by its number from 0.
#![tactic(auto)]

ghost use Rattle.std.specs.Prelude.{◌≤◌, length, IfSome};

use refusals::Refusal;
use std::fmt::Display;
use std::io::Read;

// More cases than the list has: every program ends.
const MOST: u64 = 1_000_000;

// One byte more than a file may have.
const FILE: usize = 65537;

// The longest listing of the list.
const LISTING: usize = 262144;

fn main(rt: HostRuntime) {
    let mut reader = rt.stdin();
    for n in 0..MOST {
        match next(&mut reader) {
            Some(true) => {}
            Some(false) => {
                say(&rt, "file ");
                say(&rt, n);
                say(&rt, " differs\n");
                return;
            }
            None => {
                say(&rt, n);
                say(&rt, " files, 0 different\n");
                return;
            }
        }
    }
}

// Whether the next case of the list is alike, if there is one: the file's listing against the one that follows.
fn next(reader: &mut impl Read) -> Option<bool> {
    let mut file = [0u8; FILE];
    let len = read_part(reader, &mut file)?;
    Some(compare(reader, &file[..len]))
}

fn compare(reader: &mut impl Read, file: &[u8]) -> bool {
    let mut want = [0u8; LISTING];
    match read_part(reader, &mut want) {
        Some(len) => is_listing(file, &want[..len]),
        None => false,
    }
}

// Whether the file's listing is this one. An input above the limit has the listing that the program prints for it.
fn is_listing(file: &[u8], want: &[u8]) -> bool {
    let mut out = [0u8; LISTING];
    match session_file::list_file(file, &mut out) {
        Ok(len) => out.get(..len) == Some(want),
        Err(Refusal::InputTooLong) => want == b"0 refused 26\nend none\n".as_slice(),
        Err(_) => false,
    }
}

// A part of the list, if there is a whole one: its length, of so many bytes at the buffer's start.
fn read_part(reader: &mut impl Read, buf: &mut [u8]) -> Option<usize>
    ensures { IfSome result (λ n. n ≤ length buf.new) }
{
    let mut head = [0u8; 4];
    reader.read_exact(&mut head).ok()?;
    let len = u32::from_le_bytes(head) as usize;
    if buf.len() < len {
        return None;
    }
    reader.read_exact(&mut buf[..len]).ok()?;
    Some(len)
}

// A write that fails is not said.
fn say(rt: &impl Print, value: impl Display + Drop) {
    let _ = rt.print(value);
}
