// Reads a session file from standard input and writes its listing to standard output, part by part.
#![tactic(auto)]

ghost use Rattle.std.specs.Prelude.{◌≤◌, length, IfOk, IfSome};

use session_file::parts;
use std::env::{Env, FillError};
use std::io;
use std::io::Read;

fn main(rt: HostRuntime) {
    if has_argument(&rt) {
        complain(
            &rt,
            "usage: clearing < FILE (reads a session file from standard input, writes its listing to standard output)",
        );
        return;
    }
    let mut buffer = [0u8; 65536];
    match read_input(&mut rt.stdin(), &mut buffer) {
        Ok(Some(n)) => show(&rt, &buffer[..n], false),
        Ok(None) => show(&rt, &buffer, true),
        Err(_) => complain(&rt, "clearing: standard input could not be read"),
    }
}

// Whether there is an argument behind the program's name. Its bytes are not looked at: they need not be text, nor fit.
fn has_argument(rt: &impl Env) -> bool {
    let mut start = [0u8; 1];
    !matches!(rt.arg(1, &mut start), Err(FillError::NotPresent))
}

fn complain(rt: &impl Eprint, line: &str) {
    let _ = rt.eprintln(line);
}

// Fills the buffer from its start: how many bytes the input has, or none where there are more than the buffer holds. An input of which a read failed, if
// only the last, has none either: what was read before may be a part of the file. No contract can say which bytes come from standard input.
fn read_input(reader: &mut impl Read, buffer: &mut [u8]) -> io::Result<Option<usize>>
    ensures { IfOk result (λ read. IfSome read (λ n. n ≤ length buffer.new)) }
{
    let mut n = 0;
    while n < buffer.len() {
        match reader.read(&mut buffer[n..])? {
            0 => return Ok(Some(n)),
            more => n += more,
        }
    }
    let mut one = [0u8; 1];
    let past = reader.read(&mut one)?;
    Ok(if past == 0 { Some(n) } else { None })
}

// The listing, part by part: the buffer has room for any part. A failed write is said, and nothing after it is written.
fn show(rt: &(impl Print + Eprint), input: &[u8], too_long: bool) {
    let mut out = [0u8; listing::ROOM];
    let mut s = parts::begin(too_long);
    while !s.ended {
        let part = parts::put_next(input, s, &mut out);
        let Ok(len) = part.written else { return };
        if !put(rt, &out[..len]) {
            return;
        }
        s = part.cursor;
    }
}

fn put(rt: &(impl Print + Eprint), text: &[u8]) -> bool {
    if rt.write_all(text).is_ok() {
        return true;
    }
    complain(rt, "clearing: standard output could not be written");
    false
}
