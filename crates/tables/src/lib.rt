#![tactic(auto)]

pub mod capacities;
mod cells;
pub mod enter;
pub mod fits;
mod hold_names;
mod hold_terms;
mod hold_types;
pub mod ids;
pub mod literal;
pub mod numbers;
pub mod open;
mod part;
pub mod reads;
pub mod result;
mod span;
pub mod storage;
mod structure;
pub mod term;
pub mod term_type;
pub mod usage;
