// What the programs share: reading standard input, saying what failed, and text.
#![tactic(auto)]

pub mod append;
pub mod failure;
pub mod input;
pub mod program;
pub mod text;
