// Commands whose range is looked at, and those of a setting, one function each, which tells how many bytes of data it put, or why it is refused: out of range nothing is written.
#![tactic(auto)]

ghost use Rattle.std.specs.Prelude.{◌≡◌, ◌≢◌, ◌≤◌, length};
ghost use Rattle.wire.specs.Sizes.{data_most};
ghost use Rattle.wire.specs.declared.Range.TheVariants.{Fits};
ghost use Rattle.record.specs.InPlace.{Sound};
ghost use Rattle.command.specs.declared.Command.TheVariants.{SetName, SetInput, ReadInput, SwitchOutput, ReadPair};
ghost use Rattle.command.specs.declared.Counted.TheVariants.{Right};
ghost use Rattle.command.specs.Tables.{counted_of};
ghost use Rattle.command.specs.Judge.{by_range};
ghost use Rattle.command.specs.declared.Verdict.{Verdict};
ghost use Rattle.command.specs.declared.Verdict.TheVariants.{Refuse};
ghost use Rattle.ranged.specs.Done.{Stores, Tells, IsRead, IsSet, TellsSetting, StoresSetting};

use command::Refusal;
use data::{put_input, put_pair, put_setting};
use limits::place_of;
use parts::set_name;
use range::{channel_range, input_range, name_range, output_range, pair_range, setting_range};
use record::places::AT_PAIRS;
use settings::{set_input, store, switch_output};
use table::setting_of;
use wire::Range;

// Why a value is refused that is not in its range.
fn refusal_of(range: Range) -> Refusal
    requires { range ≢ Fits }
    ensures { (next : Verdict) → by_range range next ≡ Refuse result }
{
    match range {
        Range::Big => Refusal::TooBig,
        _ => Refusal::TooSmall,
    }
}

// ---- a setting

pub fn read_setting(rec: &[u8], number: u8, body: &mut [u8]) -> Result<usize, Refusal>
    requires sound { Sound rec.now }
    requires read { IsRead number }
    requires data_most_in_bounds { data_most ≤ length body.old }
    ensures { TellsSetting number rec.now body.old result body.new }
{
    Ok(put_setting(body, rec, setting_of(number)))
}

pub fn write_setting(rec: &mut [u8], number: u8, p: &[u8]) -> Result<usize, Refusal>
    requires sound { Sound rec.old }
    requires set { IsSet number (length p.now) }
    ensures { StoresSetting number rec.old p.now result rec.new }
{
    let k = setting_of(number);
    let range = setting_range(k, p);
    let Range::Fits = range else {
        return Err(refusal_of(range));
    };
    store(rec, place_of(k), k, p);
    Ok(0)
}

// ---- a part of its own

// One form with each its functions. A rule of the project: a check's answer is taken on by `let .. else`, so no closure is handed to one function for all.

pub fn write_name(rec: &mut [u8], p: &[u8]) -> Result<usize, Refusal>
    requires sound { Sound rec.old }
    requires p_value { counted_of SetName (length p.now) ≡ Right }
    ensures { Stores SetName rec.old p.now result rec.new }
{
    let range = name_range(p);
    let Range::Fits = range else {
        return Err(refusal_of(range));
    };
    set_name(rec, p);
    Ok(0)
}

pub fn write_input(rec: &mut [u8], p: &[u8]) -> Result<usize, Refusal>
    requires sound { Sound rec.old }
    requires p_value { counted_of SetInput (length p.now) ≡ Right }
    ensures { Stores SetInput rec.old p.now result rec.new }
{
    let range = input_range(p);
    let Range::Fits = range else {
        return Err(refusal_of(range));
    };
    set_input(rec, p[0], p[1]);
    Ok(0)
}

pub fn read_input(rec: &[u8], p: &[u8], body: &mut [u8]) -> Result<usize, Refusal>
    requires sound { Sound rec.now }
    requires p_value { counted_of ReadInput (length p.now) ≡ Right }
    requires data_most_in_bounds { data_most ≤ length body.old }
    ensures { Tells ReadInput rec.now p.now body.old result body.new }
{
    let range = channel_range(p);
    let Range::Fits = range else {
        return Err(refusal_of(range));
    };
    Ok(put_input(body, rec, p[0]))
}

pub fn write_output(rec: &mut [u8], p: &[u8]) -> Result<usize, Refusal>
    requires sound { Sound rec.old }
    requires p_value { counted_of SwitchOutput (length p.now) ≡ Right }
    ensures { Stores SwitchOutput rec.old p.now result rec.new }
{
    let range = output_range(p);
    let Range::Fits = range else {
        return Err(refusal_of(range));
    };
    switch_output(rec, p[0], p[1]);
    Ok(0)
}

pub fn read_pair(rec: &[u8], p: &[u8], body: &mut [u8]) -> Result<usize, Refusal>
    requires sound { Sound rec.now }
    requires p_value { counted_of ReadPair (length p.now) ≡ Right }
    requires data_most_in_bounds { data_most ≤ length body.old }
    ensures { Tells ReadPair rec.now p.now body.old result body.new }
{
    let range = pair_range(p);
    let Range::Fits = range else {
        return Err(refusal_of(range));
    };
    Ok(put_pair(body, rec, AT_PAIRS, p[0]))
}
