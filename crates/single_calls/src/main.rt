// One call on any session at all, also on those that no file leads to: for the comparison with the source.
// Standard input holds blocks of `image::BLOCK` bytes, a session and a call each; for each a line is written: the refusal, the events joined by ';', and
// the session in words.
#![tactic(auto)]

use std::io::Read;

mod image;
mod text;

// More blocks than any comparison sends: every program ends.
const MOST: u64 = 10_000_000;

fn main(rt: HostRuntime) {
    let mut reader = rt.stdin();
    for _ in 0..MOST {
        if !next(&rt, &mut reader) {
            return;
        }
    }
}

// The next block, if there is a whole one.
fn next(rt: &impl Print, reader: &mut impl Read) -> bool {
    let mut block = [0u8; image::BLOCK];
    if reader.read_exact(&mut block).is_err() {
        return false;
    }
    run(rt, &block);
    true
}

fn run(rt: &impl Print, block: &[u8]) {
    let session = image::session_in(block);
    let answer = session.apply(image::call_in(block));
    let refusal = match &answer.said {
        Ok(_) => 0,
        Err(refusal) => refusal.number(),
    };
    text::say(rt, refusal);
    text::say(rt, "|");
    if let Ok(events) = &answer.said {
        text::put_events(rt, events.as_slice());
    }
    text::say(rt, "|");
    if text::is_shown(refusal) {
        text::put_session(rt, &answer.session);
    }
    text::say(rt, "\n");
}
