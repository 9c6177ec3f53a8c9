// Settings and outputs of a record stored in its bytes, in every layout that has them at these places.
#![tactic(auto, using(crate::proofs::Turn::inputs_there, crate::proofs::Turn::outputs_there))]

ghost use Rattle.std.specs.Prelude.{◌≡◌, ◌-◌, ◌^◌, ◌≤◌, length, set, eqb};
ghost use Rattle.record.specs.Record.{with_output, with_inputs, with_settings, with_outputs};
ghost use Rattle.record.specs.Layout.{InputBytes, OutputByte, at_inputs, at_outputs};
ghost use Rattle.record.specs.Settings.{sheet_of, setting_width};
ghost use Rattle.record.specs.InPlace.{SoundAt, TurnsAt};

use limits::sheet_of;
use numbers::put_number;
use record::Setting;
use record::places::{AT_OUTPUTS, BEFORE_INPUTS};

// At the place that the layout gives the setting.
pub fn store(rec: &mut [u8], at: usize, k: Setting, p: &[u8])
    requires sound_at { SoundAt (sheet_of k).part at rec.old }
    requires p_len { length p.now ≡ setting_width k }
    ensures { TurnsAt (sheet_of k).part at rec.old rec.new (λ r. with_settings r ((sheet_of k).stored r.settings p.now)) }
{
    put_number(rec, at, p, 0, sheet_of(k).width);
}

pub fn set_input(rec: &mut [u8], channel: u8, v: u8)
    requires sound_at { SoundAt InputBytes at_inputs rec.old }
    requires le_channel { (2 ≤ channel) × (channel ≤ 6) }
    ensures { TurnsAt InputBytes at_inputs rec.old rec.new (λ r. with_settings r (with_inputs r.settings (set r.settings.inputs (channel - 2) v))) }
{
    rec[(channel as usize) + BEFORE_INPUTS] = v;
}

// The bit of output k.
fn mask_of(k: u8) -> u8
    requires { (1 ≤ k) × (k ≤ 4) }
    ensures { (result ≡ 2 ^ (k - 1)) × (result ≤ 8) }
{
    1 << (k - 1)
}

// Only the output's bit changes.
pub fn switch_output(rec: &mut [u8], k: u8, v: u8)
    requires sound_at { SoundAt OutputByte at_outputs rec.old }
    requires le_k { (1 ≤ k) × (k ≤ 4) }
    ensures { TurnsAt OutputByte at_outputs rec.old rec.new (λ r. with_outputs r (with_output r.outputs k (eqb v 1))) }
{
    let mask = mask_of(k);
    if v == 1 {
        rec[AT_OUTPUTS] |= mask;
    } else {
        rec[AT_OUTPUTS] &= 0xFF - mask;
    }
}
