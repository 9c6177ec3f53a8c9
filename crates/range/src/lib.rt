// 54, 55: whether the parameters of a command are in their ranges, from the left.
#![tactic(auto, using(crate::proofs::Ranges::tested))]

ghost use Rattle.std.specs.Prelude.{◌≡◌, ◌≤◌, length, get_or, pos};
ghost use Rattle.wire.specs.Numbers.{signed8};
ghost use Rattle.wire.specs.Ranges.{within, unsigned, also};
ghost use Rattle.record.specs.Layout.{current, channels};
ghost use Rattle.record.specs.Limits.{power_range, input_range, interval_range, filter_range, name_range};
ghost use Rattle.record.specs.Settings.{range_by, sheet_of, setting_width};
ghost use Rattle.command.specs.Rows.{input_channel, output_number, output_value, pair_channel};

use limits::{INPUT_TYPE_MOST, INTERVAL_MOST, interval_fits, name_bytes, power_fits, sheet_of};
use numbers::{half_at, word_at};
use record::places::{CHANNELS, FILTERS};
use record::{Limits, Setting};
use wire::Range;

fn unsigned_range(low: u8, high: u8, b: u8) -> Range
    ensures { result ≡ unsigned low high b }
{
    if high < b {
        return Range::Big;
    }
    if b < low {
        return Range::Small;
    }
    Range::Fits
}

// A byte from 80 on is a number below 0, and no range of these bytes reaches there.
fn signed_range(low: u8, high: u8, b: u8) -> Range
    ensures { result ≡ within (pos low) (pos high) (signed8 b) }
{
    if 127 < b {
        return Range::Small;
    }
    unsigned_range(low, high, b)
}

// A power from 8000 on is a number below 0.
fn power_range(w: u16) -> Range
    ensures { result ≡ power_range w }
{
    if power_fits(w) {
        return Range::Fits;
    }
    if w < 32768 {
        return Range::Big;
    }
    Range::Small
}

// What is below 0 or in the gap is too small.
fn interval_range(b: u8) -> Range
    ensures { result ≡ interval_range b }
{
    if interval_fits(b) {
        return Range::Fits;
    }
    if (INTERVAL_MOST < b) & (b < 128) {
        return Range::Big;
    }
    Range::Small
}

fn filter_range(bound: u32, w: u32) -> Range
    ensures { result ≡ filter_range bound w }
{
    if w < bound {
        return Range::Fits;
    }
    Range::Big
}

pub fn name_range(p: &[u8]) -> Range
    ensures { result ≡ name_range p.now }
{
    if name_bytes(p) {
        return Range::Fits;
    }
    Range::Big
}

// The first that is out of its range decides.
fn both_ranges(first: Range, second: Range) -> Range
    ensures { result ≡ also first second }
{
    match first {
        Range::Fits => second,
        missed => missed,
    }
}

// The parameters of the command that sets a setting.
pub fn setting_range(k: Setting, p: &[u8]) -> Range
    requires { setting_width k ≤ length p.now }
    ensures { result ≡ range_by (sheet_of k).limits current p.now }
{
    let limits = sheet_of(k).limits;
    match limits {
        Limits::Upto(most) => signed_range(0, most, p[0]),
        Limits::OfPower => power_range(half_at(p, 0)),
        Limits::OfInterval => interval_range(p[0]),
        Limits::OfFilter => filter_range(FILTERS, word_at(p, 0)),
    }
}

// The number of a channel that has an input type.
pub fn channel_range(p: &[u8]) -> Range
    requires { 1 ≤ length p.now }
    ensures { result ≡ input_channel (get_or p.now 0 0) }
{
    signed_range(2, 6, p[0])
}

// A channel and its input type.
pub fn input_range(p: &[u8]) -> Range
    requires { 2 ≤ length p.now }
    ensures { result ≡ also (input_channel (get_or p.now 0 0)) (input_range (get_or p.now 1 0)) }
{
    both_ranges(
        signed_range(2, 6, p[0]),
        signed_range(0, INPUT_TYPE_MOST, p[1]),
    )
}

// The number of an output, and what it is switched to.
pub fn output_range(p: &[u8]) -> Range
    requires { 2 ≤ length p.now }
    ensures { result ≡ also (output_number (get_or p.now 0 0)) (output_value (get_or p.now 1 0)) }
{
    both_ranges(signed_range(1, 4, p[0]), signed_range(0, 1, p[1]))
}

// The number of a channel that has a pair.
pub fn pair_range(p: &[u8]) -> Range
    requires { 1 ≤ length p.now }
    ensures { result ≡ pair_channel channels (get_or p.now 0 0) }
{
    unsigned_range(1, CHANNELS, p[0])
}
