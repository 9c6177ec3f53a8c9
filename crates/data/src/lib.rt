// The data of the reply to a command that is carried out, one function for each kind, at the front of the part of a buffer that it is lent.
#![tactic(auto, using(crate::proofs::Data::kept))]

ghost use Rattle.std.specs.Prelude.{◌≡◌, cond, [], ◌∷◌, ◌+◌, ◌-◌, ◌*◌, ◌≤◌, length, get_or, take};
ghost use Rattle.wire.specs.Sizes.{data_most};
ghost use Rattle.wire.specs.Numbers.{bytes_at};
ghost use Rattle.wire.specs.Zeros.{before_zero};
ghost use Rattle.record.specs.Layout.{name_room, model_room, at_inputs, at_name_length, at_name, bit_of};
ghost use Rattle.record.specs.Settings.{setting_place, setting_width};
ghost use Rattle.command.specs.Rows.{model_data};
ghost use Rattle.data.specs.PutsData.{PutsData};

use flags::flag_in;
use limits::sheet_of;
use numbers::put_number;
use numbers::zeros::first_zero;
use record::places::{AT_NAME, AT_NAME_LENGTH, BEFORE_INPUTS, MODEL_ROOM};
use record::{Flag, Setting};
use words::put_few;

pub fn put_two(body: &mut [u8], a: u8, b: u8) -> usize
    requires { data_most ≤ length body.old }
    ensures { PutsData body.old (a ∷ b ∷ []) result body.new }
{
    body[0] = a;
    body[1] = b;
    2
}

pub fn put_lock(body: &mut [u8], flags: u8) -> usize
    requires { data_most ≤ length body.old }
    ensures { PutsData body.old (cond (bit_of flags 2) 0x08 0x00 ∷ []) result body.new }
{
    body[0] = if flag_in(flags, Flag::Unlocked) {
        0x08
    } else {
        0x00
    };
    1
}

// The input type of a channel, 2 to 6.
pub fn put_input(body: &mut [u8], rec: &[u8], channel: u8) -> usize
    requires at_inputs_in_bounds { (at_inputs + 5 ≤ length rec.now) × (data_most ≤ length body.old) }
    requires le_channel { (2 ≤ channel) × (channel ≤ 6) }
    ensures { PutsData body.old (get_or (bytes_at 5 rec.now at_inputs) (channel - 2) 0 ∷ []) result body.new }
{
    body[0] = rec[(channel as usize) + BEFORE_INPUTS];
    1
}

// A setting that is one number.
pub fn put_setting(body: &mut [u8], rec: &[u8], k: Setting) -> usize
    requires { (setting_place k + setting_width k ≤ length rec.now) × (data_most ≤ length body.old) }
    ensures { PutsData body.old (bytes_at (setting_width k) rec.now (setting_place k)) result body.new }
{
    let sheet = sheet_of(k);
    let n = sheet.width;
    put_number(body, 0, rec, sheet.place, n);
    n
}

// The pair of a channel, of those that stand from a place on, channel 1 first.
pub fn put_pair(body: &mut [u8], rec: &[u8], pairs: usize, channel: u8) -> usize
    requires channel_in_bounds { (pairs + 8 * channel ≤ length rec.now) × (data_most ≤ length body.old) }
    requires le_channel { 1 ≤ channel }
    ensures { PutsData body.old (0x00 ∷ bytes_at 8 rec.now (pairs + 8 * (channel - 1))) result body.new }
{
    let from = pairs + 8 * ((channel as usize) - 1);
    body[0] = 0x00;
    put_number(body, 1, rec, from, 4);
    put_number(body, 5, rec, from + 4, 4);
    9
}

pub fn put_name(body: &mut [u8], rec: &[u8]) -> usize
    requires name_room_in_bounds { (at_name + name_room ≤ length rec.now) × (data_most ≤ length body.old) }
    requires at_name_length_bound { get_or rec.now at_name_length 0 ≤ name_room }
    ensures { PutsData body.old (take (get_or rec.now at_name_length 0) (bytes_at name_room rec.now at_name)) result body.new }
{
    let n = rec[AT_NAME_LENGTH] as usize;
    put_few(body, 0, &rec[AT_NAME..AT_NAME + n]);
    n
}

// The model, which stands at a place of the record. A 00 follows if it is shorter than its room.
pub fn put_model(body: &mut [u8], rec: &[u8], from: usize) -> usize
    requires { (from + model_room ≤ length rec.now) × (data_most ≤ length body.old) }
    ensures { PutsData body.old (model_data (before_zero (bytes_at model_room rec.now from))) result body.new }
{
    let model = &rec[from..from + MODEL_ROOM];
    let n = first_zero(model);
    let behind = put_few(body, 0, &model[0..n]);
    if n < MODEL_ROOM {
        body[behind] = 0x00;
        return n + 1;
    }
    MODEL_ROOM
}
