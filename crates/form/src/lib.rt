// Which bytes are a board record: one function for each group of fields, in record order.
// Most groups answer with no branch between their fields, which is quick; crate `fault` tests the same fields one by one, for the first that is bad.
#![tactic(auto)]

ghost use Rattle.std.specs.Prelude.{◌≡◌, true, false, ◌++◌, ◌+◌, ◌*◌, ◌≤◌, ◌<◌, length, take, drop};
ghost use Rattle.wire.specs.Numbers.{bytes_at};
ghost use Rattle.wire.specs.Ranges.{fits};
ghost use Rattle.wire.specs.Zeros.{zeros_behind};
ghost use Rattle.wire.specs.Frames.{waits};
ghost use Rattle.wire.specs.Serial.{serial};
ghost use Rattle.peak.specs.Pairs.{pair_fits, pair_at};
ghost use Rattle.record.specs.Layout.{record_size, channels, name_room, model_room, at_code, at_inputs, at_outputs, at_name_length, at_model, at_pairs};
ghost use Rattle.record.specs.Limits.{name_range};
ghost use Rattle.record.specs.Form.{part_fits, several, all_fine, form_of};
ghost use Rattle.low.specs.Low.{low_bytes};
ghost use Rattle.form.specs.Groups.{head_fields, radio_fields, input_fields, switch_fields, name_fields, pending_fields, pair_fields};

use buffer::heads::announced_by;
use flags::flag_in;
use limits::{INPUT_TYPE_MOST, MODE_MOST, ON_OFF_MOST, STEP_MOST, interval_fits, power_fits};
use low::{all_zero, eight_at};
use numbers::zeros::{first_zero, zeros};
use numbers::{half_at, word_at};
use peak::{INFINITY, above, reach};
use record::places::{
    AT_FILTER, AT_FLAGS, AT_INPUTS, AT_INTERVAL, AT_MODE, AT_MODEL, AT_NAME, AT_NAME_LENGTH,
    AT_ON_OFF, AT_OUTPUTS, AT_PAIRS, AT_PENDING, AT_PENDING_LENGTH, AT_POWER, AT_SIZE, AT_STEP,
    AT_TRIES, AT_VERSION, FILTERS, FOUR_BITS, MODEL_ROOM, NAME_ROOM, PAIRS, PENDING_ROOM,
    RECORD_SIZE, SIZE_FIELD, TRIES_MOST, VERSION,
};
use record::{Flag, Form};
use wire::Line;

fn head_fine(s: &[u8]) -> bool
    requires { at_code ≤ length s.now }
    ensures { result ≡ all_fine (head_fields s.now) }
{
    (half_at(s, AT_SIZE) == SIZE_FIELD)
        & (s[AT_VERSION] == VERSION)
        & (s[AT_FLAGS] < FOUR_BITS)
        & (s[AT_TRIES] <= TRIES_MOST)
}

fn radio_fine(s: &[u8]) -> bool
    requires { at_inputs ≤ length s.now }
    ensures { result ≡ all_fine (radio_fields s.now) }
{
    let power = power_fits(half_at(s, AT_POWER));
    power & (s[AT_STEP] <= STEP_MOST) & (s[AT_MODE] <= MODE_MOST) & (s[AT_ON_OFF] <= ON_OFF_MOST)
}

fn inputs_fine(s: &[u8]) -> bool
    requires { at_outputs ≤ length s.now }
    ensures { result ≡ all_fine (input_fields s.now) }
{
    (s[AT_INPUTS] <= INPUT_TYPE_MOST)
        & (s[AT_INPUTS + 1] <= INPUT_TYPE_MOST)
        & (s[AT_INPUTS + 2] <= INPUT_TYPE_MOST)
        & (s[AT_INPUTS + 3] <= INPUT_TYPE_MOST)
        & (s[AT_INPUTS + 4] <= INPUT_TYPE_MOST)
}

fn switches_fine(s: &[u8]) -> bool
    requires { at_name_length ≤ length s.now }
    ensures { result ≡ all_fine (switch_fields s.now) }
{
    let interval = interval_fits(s[AT_INTERVAL]);
    (s[AT_OUTPUTS] < FOUR_BITS) & interval & (word_at(s, AT_FILTER) < FILTERS)
}

// Whether n bytes of a name are followed by zeros alone, and none is above 7F; zeros are not, so all fifteen bytes are looked at.
// The first eight are one word, the other seven another.
fn name_words(low: u64, high: u64, n: usize) -> bool
    requires { (n ≤ name_room) × (high < 0x100000000000000) }
    ensures { result ≡ part_fits (λ l. fits (name_range l)) n (low_bytes 8 low ++ low_bytes 7 high) }
{
    if low & 0x8080808080808080 != 0 {
        return false;
    }
    if high & 0x80808080808080 != 0 {
        return false;
    }
    if n < 8 {
        return (low >> 8 * n == 0) & (high == 0);
    }
    high >> 8 * (n - 8) == 0
}

pub fn name_fine(s: &[u8]) -> bool
    requires { at_model ≤ length s.now }
    ensures { result ≡ all_fine (name_fields s.now) }
{
    let n = s[AT_NAME_LENGTH] as usize;
    if NAME_ROOM < n {
        return false;
    }
    let low = eight_at(s, AT_NAME);
    let high = eight_at(s, AT_MODEL - 8) / 256;
    name_words(low, high, n)
}

// Whether a model stands at a place: all zero from its first zero.
pub fn model_fine(s: &[u8], at: usize) -> bool
    requires { at + model_room ≤ length s.now }
    ensures { result ≡ zeros_behind (bytes_at model_room s.now at) }
{
    let model = &s[at..at + MODEL_ROOM];
    let zero = first_zero(model);
    zeros(&model[zero..MODEL_ROOM])
}

// Whether n bytes from a place on are such as the hunt leaves waiting.
fn waiting_fine(s: &[u8], at: usize, n: usize) -> bool
    requires { at + n ≤ length s.now }
    ensures { result ≡ waits serial (take n (drop at s.now)) }
{
    if n == 0 {
        return true;
    }
    if s[at] != 0xAA {
        return false;
    }
    if n == 1 {
        return true;
    }
    let Some(k) = announced_by(Line::Board, s[at + 1]) else {
        return false;
    };
    n < 4 + k
}

pub fn pending_fine(s: &[u8]) -> bool
    requires { at_pairs ≤ length s.now }
    ensures { result ≡ all_fine (pending_fields s.now) }
{
    let n = s[AT_PENDING_LENGTH] as usize;
    if PENDING_ROOM < n {
        return false;
    }
    if waiting_fine(s, AT_PENDING, n) {
        return zeros(&s[AT_PENDING + n..AT_PAIRS]);
    }
    false
}

// Whether the pairs from a place on are finite, with the smallest value not above the greatest.
fn pairs_seen(s: &[u8], from: usize) -> bool
    requires { from + channels * 8 ≤ length s.now }
    ensures { result ≡ all_fine (several channels 8 (λ k. pair_fits true (pair_at s.now (from + k))) from 0) }
{
    let mut most = 0;
    for i in 0..PAIRS {
        let greatest = word_at(s, from + 8 * i);
        let smallest = word_at(s, from + 8 * i + 4);
        if above(smallest, greatest) {
            return false;
        }
        most = reach(reach(most, greatest), smallest);
    }
    most < INFINITY
}

fn pairs_fine(s: &[u8]) -> bool
    requires { record_size ≤ length s.now }
    ensures { result ≡ all_fine (pair_fields s.now) }
{
    if flag_in(s[AT_FLAGS], Flag::Reading) {
        return pairs_seen(s, AT_PAIRS);
    }
    all_zero(&s[AT_PAIRS..RECORD_SIZE])
}

// A check answers a Form, as each check here answers an enum. It returns at each group: in one chain of `&&` the branches join nine deep, and its proof did not close.
pub fn form_of(s: &[u8]) -> Form
    ensures { result ≡ form_of s.now }
{
    if s.len() != RECORD_SIZE {
        return Form::Bad;
    }
    if !head_fine(s) {
        return Form::Bad;
    }
    if !radio_fine(s) {
        return Form::Bad;
    }
    if !inputs_fine(s) {
        return Form::Bad;
    }
    if !switches_fine(s) {
        return Form::Bad;
    }
    if !name_fine(s) {
        return Form::Bad;
    }
    // Mostly there is no model and nothing waits, and then no bytes are looked at one by one.
    if !all_zero(&s[AT_MODEL..AT_PENDING_LENGTH]) && !model_fine(s, AT_MODEL) {
        return Form::Bad;
    }
    if !all_zero(&s[AT_PENDING_LENGTH..AT_PAIRS]) && !pending_fine(s) {
        return Form::Bad;
    }
    if !pairs_fine(s) {
        return Form::Bad;
    }
    Form::Good
}
