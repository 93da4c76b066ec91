#![tactic(auto)]

// Tests of scripts, apart from the crate that answers them: a crate with tests is proved twice.
#[cfg(test)]
mod tests;
