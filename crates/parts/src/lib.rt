// Name, model and pending bytes of a record stored in its bytes, with zeros behind them, in every layout that has them at these places.
#![tactic(auto, using(crate::proofs::Turn::there))]

pub mod fresh;

ghost use Rattle.std.specs.Prelude.{◌≡◌, [], ◌+◌, ◌-◌, ◌≤◌, length};
ghost use Rattle.std.proofs.lemmas.List.Edits.{sets};
ghost use Rattle.wire.specs.Numbers.{bytes_at};
ghost use Rattle.wire.specs.Zeros.{before_zero};
ghost use Rattle.record.specs.Record.{with_name, with_settings, with_model, with_pending};
ghost use Rattle.record.specs.Layout.{NamePart, ModelPart, name_room, model_room, at_name_length};
ghost use Rattle.record.specs.InPlace.{SoundAt, SoundPending, TurnsAt, TurnsPending};

use numbers::zeros::first_zero;
use record::places::{AT_MODEL, AT_NAME, AT_NAME_LENGTH, MODEL_ROOM};
use words::{clear_few, put_few};

// Writes a part over a room of zeros, so that no old byte is left behind it.
fn put_part(rec: &mut [u8], at: usize, end: usize, p: &[u8])
    requires p_bound { (at + length p.now ≤ end) × (end ≤ length rec.old) }
    requires at_bound { (at + 8 ≤ end) × (end ≤ at + 24) }
    ensures { rec.new ≡ sets rec.old at (bytes_at (end - at) p.now 0) }
{
    clear_few(rec, at, end);
    put_few(rec, at, p);
}

pub fn set_name(rec: &mut [u8], p: &[u8])
    requires sound_at { SoundAt NamePart at_name_length rec.old }
    requires p_len_bound { length p.now ≤ name_room }
    ensures { TurnsAt NamePart at_name_length rec.old rec.new (λ r. with_settings r (with_name r.settings p.now)) }
{
    rec[AT_NAME_LENGTH] = p.len() as u8;
    put_part(rec, AT_NAME, AT_MODEL, p);
}

// A name of no bytes.
pub fn clear_name(rec: &mut [u8])
    requires { SoundAt NamePart at_name_length rec.old }
    ensures { TurnsAt NamePart at_name_length rec.old rec.new (λ r. with_settings r (with_name r.settings [])) }
{
    rec[AT_NAME_LENGTH] = 0;
    clear_few(rec, AT_NAME, AT_MODEL);
}

// At the place that the layout gives the model.
pub fn set_model(rec: &mut [u8], at: usize, p: &[u8])
    requires sound_at { SoundAt ModelPart at rec.old }
    requires p_len_bound { length p.now ≤ model_room }
    ensures { TurnsAt ModelPart at rec.old rec.new (λ r. with_model r (before_zero p.now)) }
{
    let n = first_zero(p);
    put_part(rec, at, at + MODEL_ROOM, &p[..n]);
}

// At the place and in the room that the layout gives them.
pub fn set_pending(rec: &mut [u8], at: usize, room: usize, p: &[u8])
    requires sound_pending { SoundPending at room rec.old }
    requires p_len_bound { length p.now ≤ room }
    requires le_room { (8 ≤ room) × (room ≤ 24) }
    ensures { TurnsPending at room rec.old rec.new (λ r. with_pending r p.now) }
{
    rec[at] = p.len() as u8;
    put_part(rec, at + 1, at + 1 + room, p);
}
