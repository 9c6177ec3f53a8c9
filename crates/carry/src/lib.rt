// One command carried out on the record in its bytes: judged, carried out, answered.
// That the bytes are a record in range (`Sound`) is a clause and no type: a struct round lent bytes forgets where they go back to, so each contract would have a clause for that instead.
#![tactic(auto)]

ghost use Rattle.std.specs.Prelude.{◌≡◌, true, ◌+◌, ◌≤◌, length};
ghost use Rattle.wire.specs.Sizes.{data_most, frame_most};
ghost use Rattle.wire.specs.Serial.{is_head, head_of};
ghost use Rattle.record.specs.Layout.{record_of};
ghost use Rattle.record.specs.InPlace.{Sound, Turns};
ghost use Rattle.command.specs.Step.{left_by};
ghost use Rattle.carry.specs.Carry.{Countable, Entered, ActsBy, Carries};

use buffer::reply::close_reply;
use command::Refusal;
use effect::carry_out;
use flags::count_try;
use judge::judge;
use table::{entry_of, status_of};

// Only a wrong code leaves a trace: a try more.
fn refuse_on(rec: &mut [u8], why: Refusal)
    requires sound { Sound rec.old }
    requires countable { Countable why rec.old }
    ensures { Turns rec.old rec.new (λ r. left_by why r) }
{
    match why {
        Refusal::BadCode => count_try(rec),
        _ => {}
    }
}

// Judges a command by its entry of the table and carries it out; the data of the reply come to stand at the front of `body`.
pub fn act(
    entry: u8,
    rec: &mut [u8],
    number: u8,
    p: &[u8],
    body: &mut [u8],
) -> Result<usize, Refusal>
    requires sound { Sound rec.old }
    requires entered { Entered entry number }
    requires data_most_in_bounds { data_most ≤ length body.old }
    ensures { ActsBy entry number (record_of rec.old) p.now body.old result rec.new body.new }
{
    if let Err(why) = judge(entry, rec, p) {
        refuse_on(rec, why);
        return Err(why);
    }
    carry_out(rec, number, p, body)
}

// Carries out a whole frame and writes the reply at a place; returns the place behind it.
pub fn carry(rec: &mut [u8], frame: &[u8], out: &mut [u8], at: usize) -> usize
    requires sound { Sound rec.old }
    requires in_bounds { (4 ≤ length frame.now) × (is_head (head_of frame.now) ≡ true) }
    requires frame_most_in_bounds { at + frame_most ≤ length out.old }
    ensures { Carries (record_of rec.old) frame.now out.old at result rec.new out.new }
{
    let end = frame.len() - 1;
    let p = &frame[3..end];
    let head = frame[1];
    let number = frame[2];
    let entry = entry_of(head, number);
    let said = act(entry, rec, number, p, &mut out[at + 3..]);
    match said {
        Ok(n) => {
            // Most replies have no data: the compiler makes a shorter path for them.
            if n == 0 {
                return close_reply(out, at, head, 0, 0);
            }
            close_reply(out, at, head, 0, n)
        }
        Err(why) => close_reply(out, at, head, status_of(why), 0),
    }
}
