// Code over bytes: heads, writing, replies.
#![tactic(auto)]

pub mod heads;
pub mod reply;
pub mod write;
