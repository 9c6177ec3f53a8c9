// Samples: one reading of six channels in, a measuring frame out.
#![tactic(auto)]

ghost use Rattle.std.specs.Prelude.{◌≡◌, ◌≤◌, length};
ghost use Rattle.wire.specs.Numbers.{put};
ghost use Rattle.record.specs.Layout.{channels};
ghost use Rattle.call.specs.Outcome.{Leaves};
ghost use Rattle.call.specs.Ended.{answer_of};
ghost use Rattle.call.specs.Calls.{sample_size, measuring_size, measuring_frame, samples_call};

use buffer::write::put_in;
use call::check::checked;
use call::{Answer, CallRefusal, Done};
use reading::peaks::{finite_values, take_reading, values_of};
use wire::sizes::SAMPLE_SIZE;

// The measuring frame of a reading.
const MEASURING_SIZE: usize = 28;

const FRAME_COUNT: u32 = MEASURING_SIZE as u32;

// A measuring frame at the start of the output.
fn put_measuring_frame(out: &mut [u8], sample: &[u8])
    requires measuring_size_in_bounds { measuring_size ≤ length out.old }
    requires sample_len { length sample.now ≡ sample_size }
    ensures { out.new ≡ put out.old 0 (measuring_frame channels sample.now) }
{
    let frame = [
        0xAA, 0x15, 0xB0, sample[0], sample[1], sample[2], sample[3], sample[4], sample[5],
        sample[6], sample[7], sample[8], sample[9], sample[10], sample[11], sample[12], sample[13],
        sample[14], sample[15], sample[16], sample[17], sample[18], sample[19], sample[20],
        sample[21], sample[22], sample[23], 0x85,
    ];
    put_in(out, 0, &frame);
}

// Takes a reading into the pairs and, with sending on, writes a measuring frame.
fn measured(rec: &mut [u8], sample: &[u8], out: &mut [u8]) -> Result<Done, CallRefusal>
    ensures { Leaves (samples_call rec.old sample.now out.old) (answer_of result) rec.new out.new }
{
    checked(rec)?;
    if sample.len() != SAMPLE_SIZE {
        return Err(CallRefusal::BadLength);
    }
    if out.len() < MEASURING_SIZE {
        return Err(CallRefusal::NoRoom);
    }
    let x = values_of(sample);
    if !finite_values(x) {
        return Err(CallRefusal::NotFinite);
    }
    if !take_reading(rec, x, sample) {
        return Ok(Done::default());
    }
    put_measuring_frame(out, sample);
    Ok(Done {
        written: FRAME_COUNT,
        skipped: 0,
    })
}

// The same, answered as C has it.
pub fn answer_samples(rec: &mut [u8], sample: &[u8], out: &mut [u8]) -> Answer
    ensures { Leaves (samples_call rec.old sample.now out.old) result rec.new out.new }
{
    Answer::from(measured(rec, sample, out))
}
