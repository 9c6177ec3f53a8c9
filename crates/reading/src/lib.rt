// A reading taken into the record.
#![tactic(auto)]

use peak::Peak;
use record::places::PAIRS;

pub mod peaks;

// What a reading is held against.
#[derive(Drop)]
pub struct Decoded {
    pub peaks: [Peak; PAIRS],
}
