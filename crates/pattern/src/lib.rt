#![tactic(auto)]

pub mod like;
#[cfg(test)]
mod tests;
