// Agreement layers: how one replica's bit reaches all, whatever the faulty say.
#![tactic(auto)]

pub mod bus;
pub mod king;
pub mod layer;
mod phase;
mod rounds;
mod said;
mod table;
mod words;
