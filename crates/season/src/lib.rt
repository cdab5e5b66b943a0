// The season: games, rounds, refusals and the reader of table files.
#![tactic(auto)]

pub mod game;
pub mod laws;
pub mod plan;
pub mod refusal;
pub mod rows;
pub mod table;
