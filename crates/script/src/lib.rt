// Answers scripts: text of one request a line, each carried out on a workbench.
#![tactic(auto)]

mod answers;
mod enter;
mod fault;
mod form;
mod numbers;
mod print_types;
mod printer;
mod reader;
mod request;
pub mod session;
mod state;
mod types;
