// The range, the place and the width of each setting in code.
#![tactic(auto)]

ghost use Rattle.std.specs.Prelude.{◌≡◌};
ghost use Rattle.wire.specs.Ranges.{fits};
ghost use Rattle.record.specs.Limits.{power_range, interval_range, name_range};
ghost use Rattle.record.specs.Settings.{sheet_of, setting_place, setting_width};

use record::places::{AT_FILTER, AT_INTERVAL, AT_MODE, AT_ON_OFF, AT_POWER, AT_STEP};
use record::{Limits, Setting};

// -20, as its 16 bits.
const POWER_LEAST: u16 = 65516;

const POWER_MOST: u16 = 12;

pub const STEP_MOST: u8 = 5;

pub const MODE_MOST: u8 = 1;

pub const ON_OFF_MOST: u8 = 2;

pub const INPUT_TYPE_MOST: u8 = 1;

// But for 0.
const INTERVAL_LEAST: u8 = 4;

pub const INTERVAL_MOST: u8 = 59;

pub const NAME_BYTE_MOST: u8 = 0x7F;

// What the code goes by for a setting that is one number: the kind of its range, where it stands, and in how many bytes.
#[derive(Clone, Copy)]
pub struct Sheet {
    pub limits: Limits,
    pub place: usize,
    pub width: usize,
}

fn row(limits: Limits, place: usize, width: usize) -> Sheet
    ensures { (result.limits ≡ limits) × (result.place ≡ place) × (result.width ≡ width) }
{
    Sheet {
        limits,
        place,
        width,
    }
}

pub fn sheet_of(k: Setting) -> Sheet
    ensures limits { result.limits ≡ (sheet_of k).limits }
    ensures place { result.place ≡ setting_place k }
    ensures width { result.width ≡ setting_width k }
{
    match k {
        Setting::Power => row(Limits::OfPower, AT_POWER, 2),
        Setting::Step => row(Limits::Upto(STEP_MOST), AT_STEP, 1),
        Setting::Mode => row(Limits::Upto(MODE_MOST), AT_MODE, 1),
        Setting::OnOff => row(Limits::Upto(ON_OFF_MOST), AT_ON_OFF, 1),
        Setting::Interval => row(Limits::OfInterval, AT_INTERVAL, 1),
        Setting::Filter => row(Limits::OfFilter, AT_FILTER, 4),
    }
}

pub fn place_of(k: Setting) -> usize
    ensures { result ≡ setting_place k }
{
    sheet_of(k).place
}

pub fn power_fits(w: u16) -> bool
    ensures { result ≡ fits (power_range w) }
{
    (w <= POWER_MOST) | (POWER_LEAST <= w)
}

pub fn interval_fits(b: u8) -> bool
    ensures { result ≡ fits (interval_range b) }
{
    (b == 0) | ((INTERVAL_LEAST <= b) & (b <= INTERVAL_MOST))
}

// Whether the bytes may stand in a name.
pub fn name_bytes(s: &[u8]) -> bool
    ensures { result ≡ fits (name_range s.now) }
{
    s.iter().all(|b| *b <= NAME_BYTE_MOST)
}
