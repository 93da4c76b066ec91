// Answers, and how they are written.
ghost use Rattle.std.specs.Prelude.{Some};
ghost use Rattle.script.specs.AnswerText.{counts_text, answer_text, refusal_text};

use crate::print_types::Shown;
use crate::printer::Quoted;
use std::fmt;
use tables::capacities::*;
use tables::ids::*;
use tables::result::*;

#[derive(Clone, Copy)]
pub enum Answer {
    Done,
    Number(u16),
    Name(NameId),
    Type(TypeId),
    Cells(Capacities),
}

impl fmt::Display for Shown<'_, Answer> {
    ghost output = { λ a. Some (answer_text a.tables.now a.value) };

    fn fmt<W: fmt::Write>(&self, f: &mut fmt::Formatter<W>) -> fmt::Result {
        let tables = self.tables;
        match self.value {
            Answer::Done => write!(f, "ok"),
            Answer::Number(number) => write!(f, "ok {number}"),
            Answer::Name(name) => write!(f, "ok {}", Quoted(tables.name(name))),
            Answer::Type(value) => write!(f, "ok {}", Shown { tables, value }),
            Answer::Cells(cells) => write!(f, "ok {}", Cells(cells)),
        }
    }
}

#[derive(Clone, Copy)]
struct Cells(Capacities);

impl fmt::Display for Cells {
    ghost output = { λ c. Some (counts_text c.0) };

    fn fmt<W: fmt::Write>(&self, f: &mut fmt::Formatter<W>) -> fmt::Result {
        let Capacities {
            terms,
            types,
            names,
            bytes,
            lists,
            rows,
        } = self.0;
        write!(
            f,
            "(terms {terms}) (types {types}) (names {names}) \
             (bytes {bytes}) (lists {lists}) (rows {rows})"
        )
    }
}

// A refusal, with the name or the table that it speaks of.
impl fmt::Display for Shown<'_, CompileError> {
    ghost output = { λ e. Some (refusal_text e.tables.now e.value) };

    fn fmt<W: fmt::Write>(&self, f: &mut fmt::Formatter<W>) -> fmt::Result {
        let error = self.value;
        match error {
            CompileError::NoSuchEntityType(name) | CompileError::NoSuchAttribute(name) => {
                write!(f, "err {error} {}", Quoted(self.tables.name(name)))
            }
            CompileError::Full(table) => write!(f, "err {error} {table}"),
            _ => write!(f, "err {error}"),
        }
    }
}
