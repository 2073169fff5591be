// Whether one record of one class breaks a rule. Nothing is searched here: captured variables and overlay markers stand in their rows.
#![tactic(auto)]

pub mod bans;
pub mod beyond;
pub mod breaking;
pub mod early;
pub mod judging;
pub mod rule;
