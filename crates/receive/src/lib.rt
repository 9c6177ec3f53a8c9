// Bytes: received bytes in, replies out.
#![tactic(auto)]

ghost use Rattle.call.specs.Outcome.{Leaves};
ghost use Rattle.call.specs.Ended.{answer_of};
ghost use Rattle.call.specs.Calls.{bytes_call};

use call::check::checked;
use call::{Answer, CallRefusal, Done};
use hunt::{room_for, serve};
use record::places::AT_PENDING_LENGTH;
use wire::sizes::INPUT_MOST;

// Carries out every whole frame of the pending bytes and the input; what waits becomes the new pending bytes.
fn received(rec: &mut [u8], input: &[u8], out: &mut [u8]) -> Result<Done, CallRefusal>
    ensures { Leaves (bytes_call rec.old input.now out.old) (answer_of result) rec.new out.new }
{
    checked(rec)?;
    if INPUT_MOST < input.len() {
        return Err(CallRefusal::BadLength);
    }
    let held = rec[AT_PENDING_LENGTH] as usize;
    if out.len() < room_for(held, input.len()) {
        return Err(CallRefusal::NoRoom);
    }
    // What waited goes on waiting.
    if input.len() == 0 {
        return Ok(Done::default());
    }
    let p = serve(rec, input, out);
    let written = p.written as u32;
    let skipped = p.skipped as u32;
    Ok(Done { written, skipped })
}

// The same, answered as C has it.
pub fn answer_bytes(rec: &mut [u8], input: &[u8], out: &mut [u8]) -> Answer
    ensures { Leaves (bytes_call rec.old input.now out.old) result rec.new out.new }
{
    Answer::from(received(rec, input, out))
}
