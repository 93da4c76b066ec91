ghost use Rattle.std.specs.Prelude.{◌≡◌, ◌+◌, ◌≤◌, ◌++◌, map, length, vec_len, vec_capacity};
ghost use Rattle.workbench.specs.Runs.{call_of, calls as called};
ghost use Rattle.workbench.specs.Ran.{Ran};
ghost use Rattle.workbench.specs.Law.{LawOfRuns};

use crate::calls::*;
use crate::stages::*;
use std::alloc::Global;
use tables::capacities::*;
use tables::result::*;

// The answers of a run, in the order of its calls, and the workbench that it leaves.
#[derive(Drop)]
pub struct RunResult {
    pub answers: Vec<Result<Reply, CompileError>>,
    pub workbench: Sealed,
}

// Makes the calls in order, and puts their answers behind.
fn make_calls<S>(
    workbench: &mut Workbench<S>,
    calls: &[Call],
    answers: &mut Vec<Result<Reply, CompileError>>,
)
    requires { vec_len answers.old + length calls.now ≤ vec_capacity answers.old }
    ensures tables { workbench.new ≡ (called (map call_of calls.now) workbench.old).0 }
    ensures items { answers.new.items ≡ answers.old.items ++ (called (map call_of calls.now) workbench.old).1 }
    ensures len { vec_len answers.new ≡ vec_len answers.old + length calls.now }
    ensures capacity { vec_capacity answers.new ≡ vec_capacity answers.old }
{
    for call in calls {
        let answer = workbench.call(*call);
        answers.push_reserved(answer);
    }
}

// Opens a workbench, makes calls on the draft, seals it, and makes calls on the sealed one.
#[tactic(auto, using(crate::proofs::LawOfRuns::law_of_runs, crate::proofs::Turns::together))]
pub fn run(
    heap: Global,
    capacities: Capacities,
    on_draft: &[Call],
    on_sealed: &[Call],
) -> Result<RunResult, CompileError>
    ensures answers { Ran capacities (map call_of on_draft.now) (map call_of on_sealed.now) result }
    ensures law { LawOfRuns }
{
    let mut draft = Draft::open(heap, capacities)?;
    let mut answers = Vec::with_capacity(heap, on_draft.len() + on_sealed.len())?;
    make_calls(&mut draft, on_draft, &mut answers);
    let mut workbench = draft.seal();
    make_calls(&mut workbench, on_sealed, &mut answers);
    Ok(RunResult { answers, workbench })
}
