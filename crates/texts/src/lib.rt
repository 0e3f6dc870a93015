// What a line answers: its numbers (`answer`), and their text in a lent buffer (`text`).
#![tactic(auto)]

pub mod answer;
pub mod text;
