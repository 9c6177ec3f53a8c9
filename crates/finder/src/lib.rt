// The search for the next frame, broken head or waiting candidate in a stream, for the heads of a line.
#![tactic(auto)]

ghost use Rattle.std.specs.Prelude.{◌≡◌, ◌+◌, ◌≤◌, ◌<◌, length, not, eqb};
ghost use Rattle.std.specs.List.{list_all};
ghost use Rattle.wire.specs.Sizes.{stream_most};
ghost use Rattle.wire.specs.Serial.{heads_of, Noise};
ghost use Rattle.finder.specs.Finder.{Reaches, Finds};

use buffer::heads::announced_by;
use wire::Line;

// What the finder stopped at: a frame with so many parameters, a broken head, or nothing that can be decided.
// Three outcomes, of which none is a failure, so no `Option` and no `Result`.
#[derive(Drop)]
pub enum Seen {
    Frame(usize),
    Torn,
    NoMore,
}

#[derive(Drop)]
pub struct Found {
    pub seen: Seen,
    pub at: usize,
}

// Whether none of these bytes is AA: without a way out the compiler looks at all of them at once.
fn quiet(s: &[u8]) -> bool
    ensures { result ≡ list_all (λ b. not (eqb b 0xAA)) s.now }
{
    s.iter().fold(true, |quiet, b| quiet & (*b != 0xAA))
}

// Passes over noise, sixteen bytes a turn, as long as none of them is AA.
// Tried, here and in `next_aa`: chunks and `position`, which take a ninth more on wrong-last-byte (100,226 instructions for 90,011).
fn leap(s: &[u8], from: usize, until: usize) -> usize
    requires { (from ≤ until) × (until ≤ length s.now) }
    ensures { Noise s.now from result × (result ≤ until) }
{
    let mut at = from;
    while 16 <= until - at {
        if !quiet(&s[at..at + 16]) {
            return at;
        }
        at += 16;
    }
    at
}

// The place of the next AA, or `until`.
pub fn next_aa(s: &[u8], from: usize, until: usize) -> usize
    requires { (from < until) × (until ≤ length s.now) }
    ensures { Reaches s.now from until result }
{
    if s[from] == 0xAA {
        return from;
    }
    let mut at = leap(s, from, until);
    while at < until {
        if s[at] == 0xAA {
            return at;
        }
        at += 1;
    }
    at
}

// Passes over bytes to skip, up to the next piece: a frame, a broken head, a candidate that waits, or `until`.
// A hunt with an inner scan over the candidate, left by label, is the form that the project asks for.
pub fn find(line: Line, s: &[u8], from: usize, until: usize) -> Found
    requires { (from ≤ until) × (until ≤ length s.now) × (length s.now ≤ stream_most) }
    ensures { Finds (heads_of line) s.now from until result }
{
    let mut at = from;
    let mut seen = Seen::NoMore;
    'hunt: while at < until {
        if s[at] != 0xAA {
            at = next_aa(s, at, until);
            continue 'hunt;
        }
        let next = at + 1;
        if s.len() <= next {
            break 'hunt;
        }
        let Some(n) = announced_by(line, s[next]) else {
            at += 1;
            continue 'hunt;
        };
        let last = at + 3 + n;
        if s.len() <= last {
            break 'hunt;
        }
        let mut place = at + 2;
        loop {
            if place != last {
                place += 1;
                continue;
            }
            if s[place] != 0x85 {
                seen = Seen::Torn;
                break 'hunt;
            }
            seen = Seen::Frame(n);
            break 'hunt;
        }
    }
    Found { seen, at }
}
