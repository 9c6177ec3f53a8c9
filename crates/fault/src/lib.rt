// The place of the first faulty field of a record, asked for behind the check's no: a function for each group of fields, in record order.
// The check looks at most of the same fields with no branch between them, so it and these tests stay apart.
#![tactic(auto)]

ghost use Rattle.std.specs.Prelude.{◌≡◌, ◌+◌, ◌^◌, ◌<◌, ◌≤◌, length};
ghost use Rattle.peak.specs.Pairs.{pair_fits, pair_at};
ghost use Rattle.record.specs.Layout.{record_size};
ghost use Rattle.record.specs.Form.{fault_of};
ghost use Rattle.form.specs.Groups.{head_fields, radio_fields, input_fields, switch_fields, name_fields, model_fields, pending_fields, pair_fields};
ghost use Rattle.fault.specs.Rest.{held, held_all, in_turn, answers_of};

use flags::flag_in;
use form::{model_fine, name_fine, pending_fine};
use limits::{INPUT_TYPE_MOST, MODE_MOST, ON_OFF_MOST, STEP_MOST, interval_fits, power_fits};
use numbers::{half_at, word_at};
use peak::{INFINITY, above, reach};
use record::Flag;
use record::places::{
    AT_FILTER, AT_FLAGS, AT_INPUTS, AT_INTERVAL, AT_MODE, AT_MODEL, AT_NAME, AT_NAME_LENGTH,
    AT_ON_OFF, AT_OUTPUTS, AT_PAIRS, AT_PENDING, AT_PENDING_LENGTH, AT_POWER, AT_SIZE, AT_STEP,
    AT_TRIES, AT_VERSION, FILTERS, FOUR_BITS, NAME_ROOM, PAIRS, PENDING_ROOM, RECORD_SIZE,
    SIZE_FIELD, TRIES_MOST, VERSION,
};

// 0 if there is no fault, but then nobody asks.
pub fn fault_of(s: &[u8]) -> u32
    ensures { result ≡ fault_of s.now }
{
    if s.len() != RECORD_SIZE {
        return AT_SIZE as u32;
    }
    check_fields(s).err().unwrap_or(0)
}

fn check_fields(s: &[u8]) -> Result<(), u32>
    requires { record_size ≤ length s.now }
    ensures { result ≡ in_turn (answers_of s.now) }
{
    check_head(s)?;
    check_radio(s)?;
    check_inputs(s)?;
    check_switches(s)?;
    check_name(s)?;
    check_model(s)?;
    check_pending(s)?;
    check_pairs(s)
}

// The place of a field whose test has failed.
fn check(fine: bool, place: usize) -> Result<(), u32>
    requires { place < 2 ^ 32 }
    ensures { result ≡ held fine place }
{
    if fine { Ok(()) } else { Err(place as u32) }
}

#[tactic(auto, unfolding(crate::specs::Rest::held_all))]
fn check_head(s: &[u8]) -> Result<(), u32>
    requires { record_size ≤ length s.now }
    ensures { result ≡ held_all (head_fields s.now) }
{
    check(half_at(s, AT_SIZE) == SIZE_FIELD, AT_SIZE)?;
    check(s[AT_VERSION] == VERSION, AT_VERSION)?;
    check(s[AT_FLAGS] < FOUR_BITS, AT_FLAGS)?;
    check(s[AT_TRIES] <= TRIES_MOST, AT_TRIES)
}

#[tactic(auto, unfolding(crate::specs::Rest::held_all))]
fn check_radio(s: &[u8]) -> Result<(), u32>
    requires { record_size ≤ length s.now }
    ensures { result ≡ held_all (radio_fields s.now) }
{
    check(power_fits(half_at(s, AT_POWER)), AT_POWER)?;
    check(s[AT_STEP] <= STEP_MOST, AT_STEP)?;
    check(s[AT_MODE] <= MODE_MOST, AT_MODE)?;
    check(s[AT_ON_OFF] <= ON_OFF_MOST, AT_ON_OFF)
}

fn check_inputs(s: &[u8]) -> Result<(), u32>
    requires { record_size ≤ length s.now }
    ensures { result ≡ held_all (input_fields s.now) }
{
    for at in AT_INPUTS..AT_OUTPUTS {
        check(s[at] <= INPUT_TYPE_MOST, at)?;
    }
    Ok(())
}

#[tactic(auto, unfolding(crate::specs::Rest::held_all))]
fn check_switches(s: &[u8]) -> Result<(), u32>
    requires { record_size ≤ length s.now }
    ensures { result ≡ held_all (switch_fields s.now) }
{
    check(s[AT_OUTPUTS] < FOUR_BITS, AT_OUTPUTS)?;
    check(interval_fits(s[AT_INTERVAL]), AT_INTERVAL)?;
    check(word_at(s, AT_FILTER) < FILTERS, AT_FILTER)
}

#[tactic(auto, unfolding(crate::specs::Rest::held_all))]
fn check_name(s: &[u8]) -> Result<(), u32>
    requires { record_size ≤ length s.now }
    ensures { result ≡ held_all (name_fields s.now) }
{
    check(usize::from(s[AT_NAME_LENGTH]) <= NAME_ROOM, AT_NAME_LENGTH)?;
    check(name_fine(s), AT_NAME)
}

#[tactic(auto, unfolding(crate::specs::Rest::held_all))]
fn check_model(s: &[u8]) -> Result<(), u32>
    requires { record_size ≤ length s.now }
    ensures { result ≡ held_all (model_fields s.now) }
{
    check(model_fine(s, AT_MODEL), AT_MODEL)
}

#[tactic(auto, unfolding(crate::specs::Rest::held_all))]
fn check_pending(s: &[u8]) -> Result<(), u32>
    requires { record_size ≤ length s.now }
    ensures { result ≡ held_all (pending_fields s.now) }
{
    check(
        usize::from(s[AT_PENDING_LENGTH]) <= PENDING_ROOM,
        AT_PENDING_LENGTH,
    )?;
    check(pending_fine(s), AT_PENDING)
}

fn check_pairs(s: &[u8]) -> Result<(), u32>
    requires { record_size ≤ length s.now }
    ensures { result ≡ held_all (pair_fields s.now) }
{
    let seen = flag_in(s[AT_FLAGS], Flag::Reading);
    for i in 0..PAIRS {
        let at = AT_PAIRS + 8 * i;
        check(pair_fine(s, at, seen), at)?;
    }
    Ok(())
}

// Whether a pair stands at a place: zeros before a reading, else finite with the smallest value not above the greatest. `seen` is one bit of the record for all pairs.
fn pair_fine(s: &[u8], at: usize, seen: bool) -> bool
    requires { at + 8 ≤ length s.now }
    ensures { result ≡ pair_fits seen (pair_at s.now at) }
{
    let greatest = word_at(s, at);
    let smallest = word_at(s, at + 4);
    if seen {
        let finite = reach(reach(0, greatest), smallest) < INFINITY;
        return finite & !above(smallest, greatest);
    }
    (greatest == 0) & (smallest == 0)
}
