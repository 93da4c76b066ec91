// 64-bit numbers, as SMT-LIB's bit vectors have them.
#![tactic(auto)]

pub mod bitvec;
#[cfg(test)]
mod tests;
