// Types of a workbench, written as `types` reads them.
ghost use Rattle.std.specs.Prelude.{◌++◌, Some, codes};
ghost use Rattle.std.specs.Fmt.{WritesOnOk};
ghost use Rattle.script.specs.AnswerText.{type_text, part_text};

use crate::printer::*;
use std::fmt;
use std::fmt::Display;
use tables::ids::*;
use tables::storage::*;
use tables::term_type::*;

// A value whose text takes names and types from the tables.
#[derive(Clone, Copy)]
pub struct Shown<'a, T> {
    pub tables: &'a Tables,
    pub value: T,
}

impl fmt::Display for Shown<'_, TypeId> {
    ghost output = { λ t. Some (type_text t.tables.now t.value.0) };

    fn fmt<W: fmt::Write>(&self, f: &mut fmt::Formatter<W>) -> fmt::Result {
        self.write(f)
    }
}

// These two call each other. `fmt` does not print a part with `write!`: a `fmt` that calls itself is proved only for a
// type whose values hold values of it, and a type here holds the numbers of its parts. Literals are written by
// `write_str`, which costs less than `write!` for a text this short.
impl Shown<'_, TypeId> {
    #[cycle(types)]
    fn write<W: fmt::Write>(self, f: &mut fmt::Formatter<W>) -> fmt::Result
        ensures { WritesOnOk W.write_str_gives f.old result (type_text self.entry.tables.now self.entry.value.0) f.new }
    {
        match self.tables.term_type(self.value) {
            TermType::Bool => f.write_str("bool"),
            TermType::Long => f.write_str("long"),
            TermType::String => f.write_str("string"),
            TermType::Decimal => f.write_str("decimal"),
            TermType::Datetime => f.write_str("datetime"),
            TermType::Duration => f.write_str("duration"),
            TermType::Entity(name) => {
                f.write_str("(entity ")?;
                Quoted(self.tables.name(name)).fmt(f)?;
                f.write_str(")")
            }
            TermType::Set(part) => self.write_part(f, "(set ", part),
            TermType::Option(part) => self.write_part(f, "(option ", part),
            TermType::Record(fields) => {
                f.write_str("(record")?;
                for field in fields {
                    f.write_str(" (")?;
                    Quoted(self.tables.name(field.name)).fmt(f)?;
                    self.write_part(f, " ", field.ty)?;
                }
                f.write_str(")")
            }
        }
    }

    // Writes the rest of a list whose last item is a part of this type. A part has been entered
    // before its whole, so it has a smaller number; the test is how the proof knows it.
    // It is inlined, so that `before` is written as the literal that it is.
    #[inline(always)]
    #[cycle(types)]
    fn write_part<W: fmt::Write>(
        self,
        f: &mut fmt::Formatter<W>,
        before: &str,
        part: TypeId,
    ) -> fmt::Result
        ensures { WritesOnOk W.write_str_gives f.old result
            (before.now ++ (part_text self.entry.tables.now self.entry.value.0 part.0 ++ codes ")")) f.new }
    {
        f.write_str(before)?;
        if part.0 < self.value.0 {
            let part = Shown {
                tables: self.tables,
                value: part,
            };
            part.write(f)?;
        }
        f.write_str(")")
    }
}
