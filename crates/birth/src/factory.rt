// Factory: a new record over any bytes.
ghost use Rattle.std.specs.Prelude.{[]};
ghost use Rattle.call.specs.Outcome.{Leaves};
ghost use Rattle.call.specs.Ended.{answer_of};
ghost use Rattle.call.specs.Calls.{factory_call};

use call::{Answer, CallRefusal, Done};
use parts::fresh::write_factory;
use record::places::RECORD_SIZE;

// Writes a new record over any bytes of the right length.
fn renew(rec: &mut [u8]) -> Result<Done, CallRefusal>
    ensures { Leaves (factory_call rec.old) (answer_of result) rec.new [] }
{
    if rec.len() != RECORD_SIZE {
        return Err(CallRefusal::BadRecord(0));
    }
    write_factory(rec);
    Ok(Done::default())
}

// The same, answered as C has it.
pub fn answer_factory(rec: &mut [u8]) -> Answer
    ensures { Leaves (factory_call rec.old) result rec.new [] }
{
    Answer::from(renew(rec))
}
