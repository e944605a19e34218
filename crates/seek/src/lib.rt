// The search of a question.
#![tactic(auto)]

pub mod answered;
mod find;
mod heap;
mod open;
mod pending;
mod question;
mod spot;
mod step;
mod work;
