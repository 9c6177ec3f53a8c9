// The five calls on one page: four of the board, and the reader.
#![tactic(auto)]

ghost use Rattle.std.specs.Prelude.{[]};
ghost use Rattle.call.specs.Outcome.{Leaves};
ghost use Rattle.call.specs.Calls.{factory_call, power_on_call, bytes_call, samples_call};
ghost use Rattle.call.specs.Read.{read_call, ReadLeaves};

use birth::factory::answer_factory;
use birth::power_on::answer_power_on;
use call::{Answer, ReadAnswer};
use measure::answer_samples;
use reader::answer_read;
use receive::answer_bytes;

// A new record over any bytes of the right length.
pub fn board_factory(rec: &mut [u8]) -> Answer
    ensures { Leaves (factory_call rec.old) result rec.new [] }
{
    answer_factory(rec)
}

// The record as it is after a power cycle.
pub fn board_power_on(rec: &mut [u8]) -> Answer
    ensures { Leaves (power_on_call rec.old) result rec.new [] }
{
    answer_power_on(rec)
}

// Received bytes in, replies out.
pub fn board_bytes(rec: &mut [u8], input: &[u8], out: &mut [u8]) -> Answer
    ensures { Leaves (bytes_call rec.old input.now out.old) result rec.new out.new }
{
    answer_bytes(rec, input, out)
}

// One reading of six channels in, a measuring frame out.
pub fn board_samples(rec: &mut [u8], sample: &[u8], out: &mut [u8]) -> Answer
    ensures { Leaves (samples_call rec.old sample.now out.old) result rec.new out.new }
{
    answer_samples(rec, sample, out)
}

// A capture of what boards said in, an entry for each reply and measuring frame out.
pub fn board_read(capture: &[u8], list: &mut [u32]) -> ReadAnswer
    ensures { ReadLeaves (read_call capture.now list.old) result list.new }
{
    answer_read(capture, list)
}
