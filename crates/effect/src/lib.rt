// One command carried out: behind the checks its number alone says which it is, and each arm is a row of the tables.
#![tactic(auto)]

ghost use Rattle.std.specs.Prelude.{◌≡◌, [], ◌≤◌, length};
ghost use Rattle.wire.specs.Sizes.{data_most};
ghost use Rattle.record.specs.InPlace.{Sound};
ghost use Rattle.effect.specs.Carried.{Calls, Carried};

use command::Refusal;
use data::{put_lock, put_model, put_name, put_two};
use flags::{lower, raise};
use parts::{clear_name, set_model};
use ranged::{
    read_input, read_pair, read_setting, write_input, write_name, write_output, write_setting,
};
use record::Flag;
use record::places::{AT_FLAGS, AT_MODEL};

// A rule of the project: in code a command is the arm of its number, so no enum of the commands is made first.

// ---- without parameters

fn bare(rec: &mut [u8], number: u8, body: &mut [u8]) -> Result<usize, Refusal>
    requires sound { Sound rec.old }
    requires calls { Calls number 0 }
    requires data_most_in_bounds { data_most ≤ length body.old }
    ensures { Carried number rec.old [] body.old result rec.new body.new }
{
    match number {
        0xE0 => {
            raise(rec, Flag::Opened);
            Ok(put_two(body, 0x00, 0x14))
        }
        0xE1 => {
            lower(rec, Flag::Opened);
            Ok(0)
        }
        0xE8 => Ok(put_name(body, rec)),
        0xE9 => {
            clear_name(rec);
            Ok(0)
        }
        0x1A => Ok(put_lock(body, rec[AT_FLAGS])),
        0x1B => Ok(put_model(body, rec, AT_MODEL)),
        0x23 => {
            lower(rec, Flag::Sending);
            Ok(0)
        }
        0x24 => {
            raise(rec, Flag::Sending);
            Ok(0)
        }
        _ => read_setting(rec, number, body),
    }
}

// ---- with parameters

fn full(rec: &mut [u8], number: u8, p: &[u8], body: &mut [u8]) -> Result<usize, Refusal>
    requires sound { Sound rec.old }
    requires in_bounds { (1 ≤ length p.now) × Calls number (length p.now) }
    requires data_most_in_bounds { data_most ≤ length body.old }
    ensures { Carried number rec.old p.now body.old result rec.new body.new }
{
    match number {
        0xE9 => write_name(rec, p),
        0xEB => write_input(rec, p),
        0xF0 => read_input(rec, p, body),
        0xF1 => write_output(rec, p),
        0x19 => {
            raise(rec, Flag::Unlocked);
            Ok(0)
        }
        0x1C => {
            set_model(rec, AT_MODEL, p);
            Ok(0)
        }
        0x53 => read_pair(rec, p, body),
        _ => write_setting(rec, number, p),
    }
}

// ---- either

// Carries out a command that passed the checks of its entry; its range is looked at here, where the command is known. The data come to stand at the front of `body`.
pub fn carry_out(rec: &mut [u8], number: u8, p: &[u8], body: &mut [u8]) -> Result<usize, Refusal>
    requires sound { Sound rec.old }
    requires calls { Calls number (length p.now) }
    requires data_most_in_bounds { data_most ≤ length body.old }
    ensures { Carried number rec.old p.now body.old result rec.new body.new }
{
    if p.len() == 0 {
        return bare(rec, number, body);
    }
    full(rec, number, p, body)
}
