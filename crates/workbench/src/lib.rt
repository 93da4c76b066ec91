#![tactic(auto)]

pub mod calls;
pub mod run;
pub mod stages;
