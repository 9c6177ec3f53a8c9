// Bytes on the wire: sizes, and what a byte may announce.
#![tactic(auto)]

pub mod sizes;

// What a range says of a value: an enum, as each check of a command answers one, which `let .. else` takes on or leaves.
#[derive(Clone, Copy)]
pub enum Range {
    Fits,
    Big,
    Small,
}

// Whose heads a stream is hunted for.
#[derive(Clone, Copy)]
pub enum Line {
    Board,
}

// What the front of a stream says of a frame's size: none begins here, more bytes are needed to say, 4 + n bytes.
// Three outcomes, of which none is a failure, so no `Option` and no `Result`.
#[derive(Clone, Copy)]
pub enum Size {
    NoHead,
    NeedMore,
    Of(usize),
}
