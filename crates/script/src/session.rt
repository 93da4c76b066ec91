// A session: a workbench, and the answers to the lines of a script that works on it.
ghost use Rattle.std.specs.Prelude.{◌≡◌, true, IfOk, Some, Ok, Err, string_bytes};
ghost use Rattle.script.specs.Sessions.{Starts, Answered, OnBad, Lines};
ghost use Rattle.script.specs.Skipped.{skipped};
ghost use Rattle.script.specs.Held.{held};
ghost use Rattle.script.specs.AnswerText.{answer_text, refusal_text};
ghost use Rattle.script.specs.declared.answers.Answer.{Answer};
ghost use Rattle.script.specs.declared.fault.Fault.TheVariants.{Refused};
ghost use Rattle.tables.specs.Contents.{Contents};
ghost use Rattle.tables.specs.declared.result.CompileError.{CompileError};

use crate::answers::*;
use crate::enter::enter_type;
use crate::fault::*;
use crate::form::*;
use crate::print_types::Shown;
use crate::reader::*;
use crate::request::*;
use crate::state::*;
use std::alloc::{AllocError, Global};
use tables::capacities::*;
use tables::ids::*;
use tables::result::*;
use tables::storage::*;
use workbench::stages::*;

#[derive(Drop)]
struct Session {
    heap: Global,
    state: State,
}

impl Session {
    // Starts with a draft of the largest capacities.
    fn new(heap: Global) -> Result<Session, AllocError>
        ensures { IfOk result Starts }
    {
        let draft = Draft::open(heap, Capacities::LARGEST).map_err(|_| AllocError)?;
        Ok(Session {
            heap,
            state: State::Draft(draft),
        })
    }

    fn tables(&self) -> Result<&Tables, CompileError> {
        self.state.tables().ok_or(CompileError::NoMemory)
    }

    fn open(&mut self, capacities: Capacities) -> Result<Answer, CompileError> {
        let draft = Draft::open(self.heap, capacities)?;
        self.state = State::Draft(draft);
        Ok(Answer::Done)
    }

    // The number as that of a cell that was entered.
    fn entered<F: Fn(&Tables, u16) -> bool>(
        &self,
        number: u64,
        is_entered: F,
    ) -> Result<u16, CompileError>
    where
        F: Drop,
        requires { F.IsAlwaysCallable is_entered }
    {
        match u16::try_from(number) {
            Ok(n) if is_entered(self.tables()?, n) => Ok(n),
            _ => Err(CompileError::BadInput),
        }
    }

    fn carry_out(&mut self, line: &Form, request: Request) -> Result<Answer, Fault>
        ensures { OnBad result (self.new ≡ self.old) }
    {
        match request {
            Request::Open(capacities) => Ok(self.open(capacities)?),
            Request::Seal => match self.state.seal() {
                Ok(()) => Ok(Answer::Done),
                Err(AlreadySealed) => Err(line.bad("the workbench is sealed")),
            },
            Request::EnterName(name) => {
                let name = self.state.name(name.as_bytes())?;
                Ok(Answer::Number(name.0))
            }
            Request::EnterType(ty) => {
                let ty = enter_type(self.heap, &mut self.state, &ty)?;
                Ok(Answer::Number(ty.0))
            }
            Request::ShowName(number) => {
                let n = self.entered(number, |tables, n| tables.is_name(NameId(n)))?;
                Ok(Answer::Name(NameId(n)))
            }
            Request::ShowType(number) => {
                let n = self.entered(number, |tables, n| tables.is_type(TypeId(n)))?;
                Ok(Answer::Type(TypeId(n)))
            }
            Request::Counts => Ok(Answer::Cells(self.tables()?.in_use())),
            Request::Capacities => Ok(Answer::Cells(self.tables()?.capacities())),
        }
    }

    // Reads the whole line before it does anything, so that a bad one changes nothing.
    fn respond(&mut self, text: &[u8]) -> Result<Answer, Fault>
        ensures { OnBad result (self.new ≡ self.old) }
    {
        let line = read_line(self.heap, text)?;
        let request = read_request(self.heap, &line)?;
        self.carry_out(&line, request)
    }

    fn text(&self, number: usize, response: Result<Answer, Fault>) -> Result<String, AllocError>
        ensures answers { (w : Contents) (a : Answer) → held self.now.state ≡ Some w → response ≡ Ok a → IfOk result (λ t. string_bytes t ≡ answer_text w a) }
        ensures refusals { (w : Contents) (e : CompileError) → held self.now.state ≡ Some w → response ≡ Err (Refused e) → IfOk result (λ t. string_bytes t ≡ refusal_text w e) }
    {
        let Some(tables) = self.state.tables() else {
            return format!(in self.heap; "err {}", CompileError::NoMemory);
        };
        match response {
            Ok(value) => format!(in self.heap; "{}", Shown { tables, value }),
            Err(Fault::Refused(value)) => format!(in self.heap; "{}", Shown { tables, value }),
            Err(Fault::Bad(Bad { column, message })) => {
                format!(in self.heap; "bad {number}:{column} {message}")
            }
        }
    }

    // Appends the answer to the line of this number, with the end of its line; nothing for a blank
    // line and for a comment. Without memory for the answer nothing is appended.
    fn answer(&mut self, number: usize, line: &[u8], out: &mut Vec<u8>) -> Result<(), AllocError>
        ensures appended { Answered (skipped line.now) result out.old.items out.new.items }
        ensures kept { skipped line.now ≡ true → self.new ≡ self.old }
    {
        if is_skipped(line) {
            return Ok(());
        }
        let response = self.respond(line);
        let mut text = self.text(number, response)?;
        text.push('\n')?;
        out.extend_from_slice(text.as_bytes())
    }
}

// The answers to a whole script, from a new session.
#[tactic(auto, using(crate::proofs::Replies::more))]
pub fn run_script(heap: Global, script: &[u8]) -> Result<Vec<u8>, AllocError>
    ensures { IfOk result (λ v. Lines v.items) }
{
    let mut session = Session::new(heap)?;
    let mut answers = Vec::new(heap);
    for (number, line) in (1..).zip(script.split(|byte| *byte == b'\n')) {
        session.answer(number, line, &mut answers)?;
    }
    Ok(answers)
}
