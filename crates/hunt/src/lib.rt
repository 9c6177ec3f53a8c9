// Received bytes: every frame of the stream carried out, and what waits kept.
#![tactic(auto)]

ghost use Rattle.std.specs.Prelude.{◌≡◌, ◌+◌, ◌-◌, ◌≤◌, length, take, drop};
ghost use Rattle.wire.specs.Sizes.{wait_most, input_most, stream_most, join_most};
ghost use Rattle.wire.specs.Serial.{heads_of};
ghost use Rattle.record.specs.Layout.{pending_room, record_of};
ghost use Rattle.record.specs.InPlace.{Sound};
ghost use Rattle.command.specs.Hunt.{room_for};
ghost use Rattle.hunt.specs.Progress.{Hunts, Rests, Joins, Serves};

use carry::carry;
use finder::{Seen, find};
use parts::set_pending;
use record::places::{AT_PENDING, AT_PENDING_LENGTH, PENDING_ROOM};
use wire::Line;
use wire::sizes::{FRAME_MOST, JOIN_MOST};
use words::put_few;

// What is told of a stream: how far the output is written, the bytes skipped.
#[derive(Drop)]
pub struct Counts {
    pub written: usize,
    pub skipped: usize,
}

// How far a hunt came: the place in its stream, and what it tells.
#[derive(Drop)]
pub struct Progress {
    pub at: usize,
    pub counts: Counts,
}

// The output that the replies to pending bytes and input can fill.
pub fn room_for(held: usize, len: usize) -> usize
    requires { (held ≤ pending_room) × (len ≤ input_most) }
    ensures { result ≡ room_for (held + len) }
{
    FRAME_MOST * ((held + len) / 4)
}

// Hunts through s, for the heads of a line, up to the first piece that begins at `until` or later; writes the replies from a place on.
// The line is a value: with one line a trait or a type parameter is no plainer.
#[tactic(auto, using(crate::proofs::GoingLaws::frame_whole))]
fn hunt_in(
    line: Line,
    rec: &mut [u8],
    s: &[u8],
    until: usize,
    out: &mut [u8],
    start: usize,
) -> Progress
    requires sound { Sound rec.old }
    requires until_in_bounds { (until ≤ length s.now) × (length s.now ≤ stream_most) }
    requires s_in_bounds { start + room_for (length s.now) ≤ length out.old }
    ensures { Hunts (heads_of line) (record_of rec.old) s.now out.old until start result rec.new out.new }
{
    let mut at = 0;
    let mut wrote = start;
    let mut framed = 0;
    // Left by its label, a rule of the project; no range to go over, since each piece says how far the next turn goes.
    'hunt: while at < until {
        let found = find(line, s, at, until);
        let seen = found.seen;
        at = found.at;
        match seen {
            Seen::Frame(n) => {
                wrote = carry(rec, &s[at..at + 4 + n], out, wrote);
                at = at + 4 + n;
                framed = framed + 4 + n;
                continue 'hunt;
            }
            Seen::Torn => {
                at += 1;
                continue 'hunt;
            }
            Seen::NoMore => {
                break 'hunt;
            }
        }
    }
    // What is skipped is what was passed and is no frame.
    Progress {
        at,
        counts: Counts {
            written: wrote,
            skipped: at - framed,
        },
    }
}

// Joins the pending bytes, which stand at a place, and as much of the input as a candidate that starts in them can reach.
fn join(rec: &[u8], at: usize, held: usize, input: &[u8], head: &mut [u8]) -> usize
    requires { (at + held ≤ length rec.now) × (held ≤ wait_most) × (length head.old ≡ join_most) }
    ensures { Joins (take held (drop at rec.now)) input.now result head.new }
{
    let n = input.len().min(FRAME_MOST);
    let end = put_few(head, 0, &rec[at..at + held]);
    put_few(head, end, &input[..n])
}

// Hunts through all of a stream; what waits at its end becomes the pending bytes.
fn hunt_rest(line: Line, rec: &mut [u8], s: &[u8], out: &mut [u8], start: usize) -> Progress
    requires sound { Sound rec.old }
    requires s_len_bound { length s.now ≤ stream_most }
    requires s_in_bounds { start + room_for (length s.now) ≤ length out.old }
    ensures { Rests (heads_of line) (record_of rec.old) s.now out.old start result rec.new out.new }
{
    let len = s.len();
    let p = hunt_in(line, rec, s, len, out, start);
    let at = p.at;
    set_pending(rec, AT_PENDING_LENGTH, PENDING_ROOM, &s[at..len]);
    p
}

// With pending bytes: first the candidates that start in them, then the input itself.
#[tactic(auto, using(crate::proofs::JoinLaws::joining))]
fn serve_held(rec: &mut [u8], held: usize, input: &[u8], out: &mut [u8]) -> Counts
    requires sound { Sound rec.old }
    requires held_value { held ≡ length (record_of rec.old).pending }
    requires input_len_bound { length input.now ≤ input_most }
    requires input_in_bounds { room_for (length (record_of rec.old).pending + length input.now) ≤ length out.old }
    ensures { Serves (record_of rec.old) input.now out.old result rec.new out.new }
{
    let mut head = [0u8; JOIN_MOST];
    let total = join(rec, AT_PENDING, held, input, &mut head);
    let first = hunt_in(Line::Board, rec, &head[..total], held, out, 0);
    let at = first.at;
    if at < held {
        set_pending(rec, AT_PENDING_LENGTH, PENDING_ROOM, &head[at..total]);
        return first.counts;
    }
    let from = at - held;
    let rest = hunt_rest(Line::Board, rec, &input[from..], out, first.counts.written);
    Counts {
        written: rest.counts.written,
        skipped: first.counts.skipped + rest.counts.skipped,
    }
}

// The whole of a bytes call that passed its checks. With no pending bytes there is nothing to join.
pub fn serve(rec: &mut [u8], input: &[u8], out: &mut [u8]) -> Counts
    requires sound { Sound rec.old }
    requires input_len_bound { length input.now ≤ input_most }
    requires input_in_bounds { room_for (length (record_of rec.old).pending + length input.now) ≤ length out.old }
    ensures { Serves (record_of rec.old) input.now out.old result rec.new out.new }
{
    let held = rec[AT_PENDING_LENGTH] as usize;
    if held == 0 {
        let p = hunt_rest(Line::Board, rec, input, out, 0);
        return p.counts;
    }
    serve_held(rec, held, input, out)
}
