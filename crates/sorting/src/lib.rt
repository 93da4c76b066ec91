#![tactic(auto)]

pub mod laws;
pub mod sort;
#[cfg(test)]
mod tests;
