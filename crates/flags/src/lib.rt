// Flags and tries of a record read and stored in its bytes, in every layout that has them at these places. A flag is set or cleared by its bit, so that the byte keeps its other bits.
#![tactic(auto, using(crate::proofs::Turn::flags_there, crate::proofs::Turn::tries_there))]

ghost use Rattle.std.specs.Prelude.{◌≡◌, true, false, ◌+◌, ◌<◌, get_or};
ghost use Rattle.record.specs.Record.{with_flags, with_tries};
ghost use Rattle.record.specs.Flags.{worth, flag_of, with_flag};
ghost use Rattle.record.specs.Layout.{FlagByte, TriesByte, at_flags, at_tries, bit_of};
ghost use Rattle.record.specs.InPlace.{SoundAt, TurnsAt, ShowsAt};

use record::Flag;
use record::places::{AT_FLAGS, AT_TRIES};

// The bit of a flag.
fn mask_of(flag: Flag) -> u8
    ensures { result ≡ worth flag }
{
    flag as u8
}

// In a byte of flags.
pub fn flag_in(flags: u8, flag: Flag) -> bool
    ensures { result ≡ bit_of flags (worth flag) }
{
    flags / mask_of(flag) % 2 == 1
}

pub fn has_flag(rec: &[u8], flag: Flag) -> bool
    requires { SoundAt FlagByte at_flags rec.now }
    ensures { ShowsAt FlagByte at_flags rec.now result (λ r. flag_of r.flags flag) }
{
    flag_in(rec[AT_FLAGS], flag)
}

pub fn raise(rec: &mut [u8], flag: Flag)
    requires { SoundAt FlagByte at_flags rec.old }
    ensures { TurnsAt FlagByte at_flags rec.old rec.new (λ r. with_flags r (with_flag r.flags flag true)) }
{
    rec[AT_FLAGS] |= mask_of(flag);
}

pub fn lower(rec: &mut [u8], flag: Flag)
    requires { SoundAt FlagByte at_flags rec.old }
    ensures { TurnsAt FlagByte at_flags rec.old rec.new (λ r. with_flags r (with_flag r.flags flag false)) }
{
    rec[AT_FLAGS] &= !mask_of(flag);
}

pub fn count_try(rec: &mut [u8])
    requires sound_at { SoundAt TriesByte at_tries rec.old }
    requires at_tries_bound { get_or rec.old at_tries 0 < 3 }
    ensures { TurnsAt TriesByte at_tries rec.old rec.new (λ r. with_tries r (r.tries + 1)) }
{
    rec[AT_TRIES] += 1;
}
