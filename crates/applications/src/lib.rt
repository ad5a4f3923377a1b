// The applications that ship with the engine.
#![tactic(auto)]

pub mod damped;
pub mod level;
pub mod wheel;
