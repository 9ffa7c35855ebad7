// Tables of told rows: what is asked, and what an independent program told of it, beside what a
// call answers.
#![tactic(auto)]

pub mod cases;
pub mod pieces;
pub mod rows;
pub mod running;
pub mod tally;
#[cfg(test)]
mod tests;
pub mod texts;
pub mod words;
