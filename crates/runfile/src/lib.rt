// The run file: its header, its records and their bodies, read over borrowed bytes; nothing is copied but the numbers asked for.
#![tactic(auto)]

pub mod body;
pub mod fault;
pub mod header;
pub mod level;
pub mod record;
