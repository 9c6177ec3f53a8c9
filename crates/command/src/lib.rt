// The words of the command tables and of the judge; what they mean is in the definitions.
#![tactic(auto)]

use record::Setting;

// The commands of both tables, in the order of the tables; a setting that is one number has one that reads it and one that sets it. The definitions' word: in code a command is the arm of its number in `effect`.
#[derive(Clone, Copy)]
pub enum Command {
    Open,
    Close,
    Read(Setting),
    Set(Setting),
    ReadName,
    SetName,
    SetInput,
    ReadInput,
    SwitchOutput,
    Unlock,
    ReadLock,
    ReadModel,
    SetModel,
    StopSending,
    StartSending,
    ReadPair,
}

// What a row says of its number; the definitions' word.
#[derive(Clone, Copy)]
pub enum Listed {
    Built(Command),
    NotBuilt,
    Unlisted,
}

// What an entry of the table says of its number. A rule of the project: each check answers an enum of its own, taken on by `let .. else`.
#[derive(Clone, Copy)]
pub enum Numbered {
    AsCommand,
    AsNotBuilt,
    AsUnknown,
}

// Whether the number of parameters is one that the command takes. An enum and no bool, as each check answers one.
#[derive(Clone, Copy)]
pub enum Counted {
    Right,
    Wrong,
}

// What a command needs of the board before it is carried out; the definitions' word, in code a part of the entry.
#[derive(Clone, Copy)]
pub enum Need {
    Nothing,
    Opened,
    Closed,
    Unlocked,
    Code,
}

// Whether the board gives it. An enum of its own, as each check answers one.
#[derive(Clone, Copy)]
pub enum Access {
    Given,
    Missing,
    WrongCode,
}

// Why a command is refused.
#[derive(Clone, Copy)]
pub enum Refusal {
    Unknown,
    Unbuilt,
    Miscounted,
    NoAccess,
    BadCode,
    TooBig,
    TooSmall,
}

// What becomes of a frame; the definitions' word, of which the theorems speak: no function makes one, so it stays no `Result`.
#[derive(Clone, Copy)]
pub enum Verdict {
    Do(Command),
    Refuse(Refusal),
}
