// The layout that all calls take, in numbers: its size, the place of each part, rooms, and the bits of its flags.
use wire::sizes::WAIT_MOST;

pub const RECORD_SIZE: usize = 123;

pub const VERSION: u8 = 1;

// What the length field says.
pub const SIZE_FIELD: u16 = RECORD_SIZE as u16;

pub const AT_SIZE: usize = 0;

pub const AT_VERSION: usize = 2;

pub const AT_FLAGS: usize = 3;

pub const AT_TRIES: usize = 4;

pub const AT_CODE: usize = 5;

pub const AT_POWER: usize = 9;

pub const AT_STEP: usize = 11;

pub const AT_MODE: usize = 12;

pub const AT_ON_OFF: usize = 13;

pub const AT_INPUTS: usize = 14;

pub const AT_OUTPUTS: usize = 19;

pub const AT_INTERVAL: usize = 20;

pub const AT_FILTER: usize = 21;

pub const AT_NAME_LENGTH: usize = 25;

pub const AT_MODEL: usize = 41;

pub const AT_PENDING_LENGTH: usize = 56;

pub const AT_PAIRS: usize = 75;

// The input type of channel k, from 2 on, stands k places behind it.
pub const BEFORE_INPUTS: usize = AT_INPUTS - 2;

// Behind the length of the name, and behind that of the pending bytes.
pub const AT_NAME: usize = AT_NAME_LENGTH + 1;

pub const AT_PENDING: usize = AT_PENDING_LENGTH + 1;

pub const NAME_ROOM: usize = 15;

pub const MODEL_ROOM: usize = 15;

pub const PENDING_ROOM: usize = WAIT_MOST;

pub const CHANNELS: u8 = 6;

// As many as there are channels.
pub const PAIRS: usize = CHANNELS as usize;

// Filter words are below it.
pub const FILTERS: u32 = 64;

// Flags and outputs are below it: four bits each.
pub const FOUR_BITS: u8 = 16;

pub const TRIES_MOST: u8 = 3;

pub const OPENED: u8 = 1;

pub const UNLOCKED: u8 = 2;

pub const SENDING: u8 = 4;

pub const READING: u8 = 8;
