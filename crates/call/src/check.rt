// The check that a call makes of the record it is lent.
ghost use Rattle.std.specs.Prelude.{◌≡◌, MatchResult, OnOk};
ghost use Rattle.record.specs.Form.{form_of};
ghost use Rattle.record.specs.InPlace.{Sound};
ghost use Rattle.record.specs.declared.Form.TheVariants.{Good};
ghost use Rattle.call.specs.Ended.{BadForm};

use super::CallRefusal;
use fault::fault_of;
use form::form_of;
use record::Form;

// A bad record is refused with the place of its first faulty field. A call of this would have its answer in memory.
#[inline(always)]
pub fn checked(rec: &[u8]) -> Result<(), CallRefusal>
    ensures decided { MatchResult result (λ _. form_of rec.now ≡ Good) (λ why. BadForm rec.now why) }
    ensures sound { OnOk result (Sound rec.now) }
{
    let Form::Good = form_of(rec) else {
        return Err(CallRefusal::BadRecord(fault_of(rec)));
    };
    Ok(())
}
