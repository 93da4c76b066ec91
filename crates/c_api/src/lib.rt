// Runs scripts for programs in C and Rust.
#![tactic(auto)]

ghost use Rattle.std.specs.Prelude.{◌≡◌, ◌≤◌, ◌++◌, length, drop, IfOk, OnErr};
ghost use Rattle.c_api.specs.Filled.{Filled};

use script::session::run_script;
use std::alloc::{AllocError, Global};
use std::num::TryFromIntError;

// Why no answers are written.
#[derive(Clone, Copy)]
enum Refusal {
    TooShort,
    NoMemory,
}

impl From<AllocError> for Refusal {
    fn from(_e: AllocError) -> Refusal {
        Refusal::NoMemory
    }
}

impl From<TryFromIntError> for Refusal {
    fn from(_e: TryFromIntError) -> Refusal {
        Refusal::TooShort
    }
}

fn fill_front(buffer: &mut [u8], text: &[u8])
    requires { length text.now ≤ length buffer.old }
    ensures { buffer.new ≡ text.now ++ drop (length text.now) buffer.old }
{
    buffer[..text.len()].copy_from_slice(text);
}

// What `nikdawam_run` does, with its refusals by name.
fn run(heap: Global, script: &[u8], answers: &mut [u8]) -> Result<i64, Refusal>
    ensures ok { IfOk result (λ n. Filled n answers.old answers.new) }
    ensures err { OnErr result (answers.new ≡ answers.old) }
{
    let text = run_script(heap, script)?;
    let length = i64::try_from(text.len())?;
    if text.len() > answers.len() {
        return Err(Refusal::TooShort);
    }
    fill_front(answers, text.as_slice());
    Ok(length)
}

// Writes the answers to a script to the front of `answers`, and gives their length. Where it gives a
// negative number instead, `answers` is as it was: -1 where it is too short, -2 where there is no
// memory. A caller in C passes nothing for `heap`, which has no bytes.
#[unsafe(no_mangle)]
pub extern "C" fn nikdawam_run(heap: Global, script: &[u8], answers: &mut [u8]) -> i64
    ensures { Filled result answers.old answers.new }
{
    match run(heap, script, answers) {
        Ok(length) => length,
        Err(Refusal::TooShort) => -1,
        Err(Refusal::NoMemory) => -2,
    }
}

#[cfg(test)]
mod tests;
