// What the entry of a number decides: whether it is built, how many parameters it takes; which setting a number reads or sets.
#![tactic(auto)]

ghost use Rattle.std.specs.Prelude.{◌≡◌, true, ◌/◌, ◌<◌, eqb};
ghost use Rattle.command.specs.Tables.{counted_in};
ghost use Rattle.command.specs.Entries.{numbered_by, span_in, unpacked, is_tidy, rows_say, place_of, table_size};
ghost use Rattle.command.specs.Judge.{status_of};
ghost use Rattle.table.specs.Touched.{Touched};

use command::{Counted, Numbered, Refusal};
use entries::{ENTRIES, FROM_0, KIND_SIZE, OPENED, SPANS, UNKNOWN};
use record::Setting;

pub mod entries;

// An heads the BT121 commands, every other head the amplifier's.
fn is_bt121(head: u8) -> bool
    ensures { result ≡ eqb (head / 16) 0xA }
{
    head / 16 == 10
}

fn place_of(head: u8, number: u8) -> usize
    ensures { (result ≡ place_of head number) × (result < table_size) }
{
    if is_bt121(head) {
        return KIND_SIZE + (number as usize);
    }
    number as usize
}

// The entry of a number under a head.
pub fn entry_of(head: u8, number: u8) -> u8
    ensures { (unpacked result ≡ rows_say head number) × (is_tidy result ≡ true) }
{
    ENTRIES[place_of(head, number)]
}

// 40, 41: whether the number is that of a command.
#[tactic(auto, using(crate::proofs::Rows::numbering))]
pub fn check_number(entry: u8) -> Numbered
    ensures { result ≡ numbered_by (unpacked entry) }
{
    // taken in one mode or in both
    if entry / OPENED % 4 != 0 {
        return Numbered::AsCommand;
    }
    if entry == UNKNOWN {
        return Numbered::AsUnknown;
    }
    Numbered::AsNotBuilt
}

// From this on, bits 0 to 2 say so many to 15.
const FROM: usize = FROM_0 as usize;

const MOST: usize = 15;

// 5B: how many parameters.
#[tactic(auto, using(crate::proofs::Rows::counting))]
pub fn check_count(entry: u8, n: usize) -> Counted
    ensures { result ≡ counted_in (span_in entry) n }
{
    let span = (entry % SPANS) as usize;
    // also where it says so many to 15: what says so is itself among them
    if n == span {
        return Counted::Right;
    }
    if span < FROM {
        return Counted::Wrong;
    }
    if n < span - FROM {
        return Counted::Wrong;
    }
    if MOST < n {
        return Counted::Wrong;
    }
    Counted::Right
}

// A rule of the project: in code a command is its number. Which setting a number reads or sets, of those that are one number; asked of such a number only, so the last is what is left.
pub fn setting_of(number: u8) -> Setting
    ensures { Touched number result }
{
    // Arms with two numbers are tested one by one, in the order of the numbers: with all of them in one match a stream of F3
    // takes 27 in 100 more than with a number an arm.
    match number {
        0xED | 0xEE => Setting::OnOff,
        0xF2 | 0xF3 => Setting::Interval,
        _ => match number {
            0xE2 | 0xE3 => Setting::Power,
            0xE4 | 0xE5 => Setting::Step,
            0xE6 | 0xE7 => Setting::Mode,
            // 51, 52
            _ => Setting::Filter,
        },
    }
}

// No `From`: that could stand only beside `Refusal`, away from the edits of this crate, and at the call it would not say that the byte is a status.
pub fn status_of(why: Refusal) -> u8
    ensures { result ≡ status_of why }
{
    match why {
        Refusal::Unknown => 0x40,
        Refusal::Unbuilt => 0x41,
        Refusal::Miscounted => 0x5B,
        Refusal::NoAccess => 0x62,
        Refusal::BadCode => 0x62,
        Refusal::TooBig => 0x54,
        Refusal::TooSmall => 0x55,
    }
}
