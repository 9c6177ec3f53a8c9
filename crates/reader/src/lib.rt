// The reader: every reply and measuring frame of a capture, as an entry of a list.
#![tactic(auto)]

pub mod heads;

ghost use Rattle.std.specs.Prelude.{◌≡◌, ◌+◌, ◌*◌, ◌/◌, ◌≤◌, length, take, drop};
ghost use Rattle.wire.specs.Sizes.{capture_most};
ghost use Rattle.wire.specs.Numbers.{put};
ghost use Rattle.wire.specs.Reader.{status_told, entry_of, entry_numbers};
ghost use Rattle.call.specs.Read.{read_call, ReadLeaves};
ghost use Rattle.call.specs.Ended.{read_answer_of};
ghost use Rattle.reader.specs.Progress.{ReadsAll};

use call::{CallRefusal, ReadAnswer, ReadDone};
use finder::next_aa;
use heads::{is_long, size_at};
use wire::Size;
use wire::sizes::{CAPTURE_MOST, FRAME_LEAST};

// The numbers of one entry.
const ENTRY_NUMBERS: usize = 4;

// The status that an entry tells.
fn status_in(head: u8, third: u8) -> u32
    ensures { result ≡ status_told head third }
{
    if is_long(head) {
        return 0;
    }
    third as u32
}

// Entry k of the list: the frame of n data bytes at a place of the capture.
fn put_entry(list: &mut [u32], k: usize, s: &[u8], at: usize, n: usize)
    requires k_in_bounds { 4 * k + 4 ≤ length list.old }
    requires n_in_bounds { (at + 4 + n ≤ length s.now) × (length s.now ≤ capture_most) }
    ensures { list.new ≡ put list.old (4 * k) (entry_numbers (entry_of (record { at = at; frame = take (4 + n) (drop at s.now) }))) }
{
    let from = ENTRY_NUMBERS * k;
    let head = s[at + 1];
    let status = status_in(head, s[at + 2]);
    list[from] = head as u32;
    list[from + 1] = status;
    list[from + 2] = (at + 3) as u32;
    list[from + 3] = n as u32;
}

// Reads all of a capture. The head behind a torn AA is no AA, so the two are skipped at once.
fn read_in(s: &[u8], list: &mut [u32]) -> ReadDone
    requires { (length s.now ≤ capture_most) × (length s.now / 4 ≤ length list.old / 4) }
    ensures { ReadsAll s.now list.old result list.new }
{
    let mut at = 0;
    let mut entries = 0;
    let mut framed = 0;
    // Counted by hand: each turn goes on by what stands there, and no iterator has such places.
    'read: while at < s.len() {
        if s[at] != 0xAA {
            at = next_aa(s, at, s.len());
            continue 'read;
        }
        let n = match size_at(s, at) {
            Size::NoHead => {
                at += 1;
                continue 'read;
            }
            Size::NeedMore => break 'read,
            Size::Of(n) => n,
        };
        let last = at + 3 + n;
        if s.len() <= last {
            break 'read;
        }
        if s[last] != 0x85 {
            at += 2;
            continue 'read;
        }
        put_entry(list, entries, s, at, n);
        entries += 1;
        framed = framed + 4 + n;
        at = last + 1;
    }
    ReadDone {
        entries: entries as u32,
        skipped: (at - framed) as u32,
        unread: (s.len() - at) as u32,
    }
}

// Checks what it is given, then reads.
fn read(capture: &[u8], list: &mut [u32]) -> Result<ReadDone, CallRefusal>
    ensures { ReadLeaves (read_call capture.now list.old) (read_answer_of result) list.new }
{
    if CAPTURE_MOST < capture.len() {
        return Err(CallRefusal::BadLength);
    }
    if list.len() / ENTRY_NUMBERS < capture.len() / FRAME_LEAST {
        return Err(CallRefusal::NoRoom);
    }
    Ok(read_in(capture, list))
}

// The same, answered as C has it.
pub fn answer_read(capture: &[u8], list: &mut [u32]) -> ReadAnswer
    ensures { ReadLeaves (read_call capture.now list.old) result list.new }
{
    ReadAnswer::from(read(capture, list))
}
