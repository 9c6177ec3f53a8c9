// The calls that give a board its start: factory and power-on.
#![tactic(auto)]

pub mod factory;
pub mod power_on;
