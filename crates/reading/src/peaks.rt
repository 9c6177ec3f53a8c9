// A reading taken into a record: its pairs decoded, held against the values, and what these replace stored.
ghost use Rattle.std.specs.Prelude.{◌≡◌, true, ◌+◌, ◌*◌, ◌≤◌, ◌<◌, length};
ghost use Rattle.wire.specs.Numbers.{word_at, bytes_at};
ghost use Rattle.peak.specs.Pairs.{finite, all_finite, pair_at};
ghost use Rattle.peak.specs.Floats.{peak_of, is_raised, is_lowered, renewed};
ghost use Rattle.record.specs.Layout.{channels, bytes_of, record_of};
ghost use Rattle.record.specs.InPlace.{Sound};
ghost use Rattle.record.specs.Reading.{reading_of};
ghost use Rattle.reading.specs.Decoded.{decoded_at, There, Numbers, AllNumbers, words_at, finite_all, stored, seen_at, seen_up_to};

use crate::Decoded;
use flags::flag_in;
use low::{four_at, put_four};
use numbers::word_at;
use peak::{INFINITY, Peak, finite_float, lowers, raises, reach, updated};
use record::Flag;
use record::places::{AT_FLAGS, AT_PAIRS, PAIRS, READING};
use std::array::from_fn;

// The patterns of a reading, read once: they are looked at again behind stores to the record.
pub fn values_of(sample: &[u8]) -> [u32; PAIRS]
    requires { length sample.now ≡ 4 * channels }
    ensures { result ≡ words_at channels sample.now 0 }
{
    from_fn(|k| word_at(sample, 4 * k))
}

// Whether no value is infinite or no number.
pub fn finite_values(x: [u32; PAIRS]) -> bool
    ensures { result ≡ finite_all x }
{
    let mut most = 0;
    for value in x {
        most = reach(most, value);
    }
    most < INFINITY
}

fn peak_at(rec: &[u8], at: usize) -> Peak
    requires at_in_bounds { at + 8 ≤ length rec.now }
    requires at_value { (finite (word_at rec.now at) ≡ true) × (finite (word_at rec.now (at + 4)) ≡ true) }
    ensures { result ≡ peak_of (pair_at rec.now at) }
{
    let greatest = finite_float(word_at(rec, at));
    let smallest = finite_float(word_at(rec, at + 4));
    Peak { greatest, smallest }
}

// The pairs from a place on.
fn decode(rec: &[u8], at: usize) -> Decoded
    requires { There at rec.now }
    ensures { result ≡ decoded_at at rec.now }
{
    Decoded {
        peaks: from_fn(|k| peak_at(rec, at + 8 * k)),
    }
}

// Stores the four bytes of a value, if it is taken: a flag and no Option, since the bytes stand in the sample in any case.
fn put_if(taken: bool, rec: &mut [u8], at: usize, sample: &[u8], from: usize)
    requires { (at + 4 ≤ length rec.old) × (from + 4 ≤ length sample.now) }
    ensures { rec.new ≡ stored taken rec.old at (bytes_at 4 sample.now from) }
{
    if taken {
        put_four(rec, at, four_at(sample, from));
    }
}

// One channel: its pair at a place of the record, its value at a place of the sample. What is replaced in the pair is stored, and the pair returned as it is then.
// Values and sample stay two arguments: comparisons take the one and stores the other, and a struct of both would only be taken apart here.
fn see(seen: bool, rec: &mut [u8], at: usize, p: Peak, x: u32, sample: &[u8], from: usize) -> Peak
    requires at_in_bounds { (at + 8 ≤ length rec.old) × (from + 4 ≤ length sample.now) }
    requires numbers { Numbers p × (finite x ≡ true) }
    ensures { (result ≡ renewed p x (is_raised seen p x) (is_lowered seen p x)) × (rec.new ≡ seen_at seen p x (bytes_at 4 sample.now from) rec.old at) }
{
    let raised = raises(seen, p, x);
    put_if(raised, rec, at, sample, from);
    let lowered = lowers(seen, p, x);
    put_if(lowered, rec, at + 4, sample, from);
    updated(p, x, raised, lowered)
}

fn see_all(seen: bool, rec: &mut [u8], at: usize, was: Decoded, x: [u32; PAIRS], sample: &[u8])
    requires channels_in_bounds { (at + channels * 8 ≤ length rec.old) × (length sample.now ≡ 4 * channels) }
    requires all_numbers { AllNumbers was.peaks × (finite_all x ≡ true) }
    ensures { rec.new ≡ seen_up_to channels seen was.peaks x sample.now rec.old at }
{
    let mut p = was.peaks;
    for k in 0..PAIRS {
        p[k] = see(seen, rec, at + 8 * k, p[k], x[k], sample, 4 * k);
    }
}

// Takes a reading of finite values, and returns whether measuring frames are sent.
pub fn take_reading(rec: &mut [u8], x: [u32; PAIRS], sample: &[u8]) -> bool
    requires sound { Sound rec.old }
    requires sample_len { (length sample.now ≡ 4 * channels) × (x ≡ words_at channels sample.now 0) }
    requires sample_value { all_finite channels sample.now 0 ≡ true }
    ensures { (result ≡ (record_of rec.old).flags.sending) × (rec.new ≡ bytes_of (reading_of (record_of rec.old) sample.now)) }
{
    let flags = rec[AT_FLAGS];
    rec[AT_FLAGS] = flags | READING;
    let was = decode(rec, AT_PAIRS);
    see_all(flag_in(flags, Flag::Reading), rec, AT_PAIRS, was, x, sample);
    flag_in(flags, Flag::Sending)
}
