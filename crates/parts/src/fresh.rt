// The two records that no command makes.
#![tactic(auto, using(crate::proofs::Stores::there))]

ghost use Rattle.std.specs.Prelude.{◌≡◌, length};
ghost use Rattle.record.specs.Layout.{record_size, bytes_of};
ghost use Rattle.record.specs.Births.{factory, powered_on};
ghost use Rattle.record.specs.InPlace.{Sound, Turns};

use buffer::write::{clear, put_in};
use record::places::{
    AT_FLAGS, AT_NAME, AT_NAME_LENGTH, AT_OUTPUTS, AT_PENDING_LENGTH, AT_SIZE, AT_TRIES, OPENED,
    READING, RECORD_SIZE, SENDING, UNLOCKED, VERSION,
};

// The low byte of the length field.
const SIZE_LOW: u8 = RECORD_SIZE as u8;

// What power-on clears of the flags.
const CLEARED: u8 = OPENED | UNLOCKED | READING;

// The factory record, whatever the bytes were.
pub fn write_factory(rec: &mut [u8])
    requires { length rec.old ≡ record_size }
    ensures { rec.new ≡ bytes_of factory }
{
    let head = [
        0x00, SIZE_LOW, VERSION, SENDING, 0, 0x55, 0x53, 0x43, 0x31, 0, 12, 0, 1, 1,
    ];
    clear(rec, 0, RECORD_SIZE);
    put_in(rec, AT_SIZE, &head);
    rec[AT_NAME_LENGTH] = 11;
    put_in(rec, AT_NAME, b"GSV-6BT_dev");
}

// What power-on makes of a record.
pub fn power_on(rec: &mut [u8])
    requires { Sound rec.old }
    ensures { Turns rec.old rec.new (λ r. powered_on r) }
{
    rec[AT_FLAGS] &= !CLEARED;
    rec[AT_FLAGS] |= SENDING;
    rec[AT_TRIES] = 0;
    rec[AT_OUTPUTS] = 0;
    clear(rec, AT_PENDING_LENGTH, RECORD_SIZE);
}
