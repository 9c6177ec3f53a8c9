// The board record in code.
#![tactic(auto)]

pub mod places;

// What the check of a byte record says.
#[derive(Clone, Copy)]
pub enum Form {
    Good,
    Bad,
}

// The flags of a record, each by what its bit is worth in their byte.
#[derive(Clone, Copy)]
pub enum Flag {
    Opened = 1,
    Unlocked = 2,
    Sending = 4,
    Reading = 8,
}

// The settings that are one number each, in record order.
#[derive(Clone, Copy)]
pub enum Setting {
    Power,
    Step,
    Mode,
    OnOff,
    Interval,
    Filter,
}

// The kinds of range that such a setting can have: 0 to a number, or one of its own.
#[derive(Clone, Copy)]
pub enum Limits {
    Upto(u8),
    OfPower,
    OfInterval,
    OfFilter,
}
