// Power-on: the record as it is after a power cycle.
ghost use Rattle.std.specs.Prelude.{[]};
ghost use Rattle.call.specs.Outcome.{Leaves};
ghost use Rattle.call.specs.Ended.{answer_of};
ghost use Rattle.call.specs.Calls.{power_on_call};

use call::check::checked;
use call::{Answer, CallRefusal, Done};
use parts::fresh::power_on;

// Closes, locks, gives new tries, switches outputs off and sending on, drops what waited and was measured; the rest stays.
fn restart(rec: &mut [u8]) -> Result<Done, CallRefusal>
    ensures { Leaves (power_on_call rec.old) (answer_of result) rec.new [] }
{
    checked(rec)?;
    power_on(rec);
    Ok(Done::default())
}

// The same, answered as C has it.
pub fn answer_power_on(rec: &mut [u8]) -> Answer
    ensures { Leaves (power_on_call rec.old) result rec.new [] }
{
    Answer::from(restart(rec))
}
