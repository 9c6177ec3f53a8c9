// The calls as C has them: four of the board, and the reader; each is the call of that name.
#![tactic(auto)]

ghost use Rattle.std.specs.Prelude.{[]};
ghost use Rattle.call.specs.Outcome.{Leaves};
ghost use Rattle.call.specs.Calls.{factory_call, power_on_call, bytes_call, samples_call};
ghost use Rattle.call.specs.Read.{read_call, ReadLeaves};

use call::{Answer, ReadAnswer};

// A new record over any bytes of the right length.
#[unsafe(no_mangle)]
pub extern "C" fn board_factory(rec: &mut [u8]) -> Answer
    ensures { Leaves (factory_call rec.old) result rec.new [] }
{
    board::board_factory(rec)
}

// The record as it is after a power cycle.
#[unsafe(no_mangle)]
pub extern "C" fn board_power_on(rec: &mut [u8]) -> Answer
    ensures { Leaves (power_on_call rec.old) result rec.new [] }
{
    board::board_power_on(rec)
}

// Received bytes in, replies out.
#[unsafe(no_mangle)]
pub extern "C" fn board_bytes(rec: &mut [u8], input: &[u8], out: &mut [u8]) -> Answer
    ensures { Leaves (bytes_call rec.old input.now out.old) result rec.new out.new }
{
    board::board_bytes(rec, input, out)
}

// One reading of six channels in, a measuring frame out.
#[unsafe(no_mangle)]
pub extern "C" fn board_samples(rec: &mut [u8], sample: &[u8], out: &mut [u8]) -> Answer
    ensures { Leaves (samples_call rec.old sample.now out.old) result rec.new out.new }
{
    board::board_samples(rec, sample, out)
}

// A capture of what boards said in, an entry for each reply and measuring frame out.
#[unsafe(no_mangle)]
pub extern "C" fn board_read(capture: &[u8], list: &mut [u32]) -> ReadAnswer
    ensures { ReadLeaves (read_call capture.now list.old) result list.new }
{
    board::board_read(capture, list)
}
