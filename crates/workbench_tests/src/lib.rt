#![tactic(auto)]

// Tests of the workbench, apart from it: a crate with tests is proved twice.
#[cfg(test)]
mod tests;
