// Reads a line, byte by byte, into the tree of `form`.
//
// A line is one form, with only blanks (space, tab, CR) around it. A form is a list, forms between
// parentheses; a text, bytes between quotes; or an atom, a longest run of bytes that are no blank,
// parenthesis or quote. In a text `\xNN`, with two digits of 0-9a-f, stands for a byte, there is no
// other escape, and each byte but a quote and a backslash stands for itself. Blanks may stand between
// forms, and lists nest at most `MAX_DEPTH` deep.
ghost use Rattle.std.specs.Prelude.{◌≡◌};
ghost use Rattle.script.specs.Skipped.{blank, skipped};

use crate::fault::*;
use crate::form::*;
use std::alloc::Global;
use std::mem;

const MAX_DEPTH: usize = 500;

fn is_blank(byte: u8) -> bool
    ensures { result ≡ blank byte }
{
    matches!(byte, b' ' | b'\t' | b'\r')
}

// Whether a line holds no form: it is blank, or its first byte past the blanks is `;`.
pub fn is_skipped(line: &[u8]) -> bool
    ensures { result ≡ skipped line.now }
{
    line.iter()
        .find(|byte| !is_blank(**byte))
        .is_none_or(|byte| *byte == b';')
}

// A byte of the line and its column.
#[derive(Clone, Copy)]
struct Next {
    column: usize,
    byte: u8,
}

impl Next {
    fn bad(self, message: &'static str) -> Fault {
        Fault::bad(self.column, message)
    }

    // The digit of an escape.
    fn hex_digit(self) -> Result<u8, Fault> {
        match self.byte {
            b'0'..=b'9' => Ok(self.byte - b'0'),
            b'a'..=b'f' => Ok(self.byte - b'a' + 10),
            _ => Err(self.bad("an escape without two digits of 0-9a-f")),
        }
    }
}

// What the bytes before the next one leave it to be. Patterns over the rest of the line in its place would each have to
// say what a line lacks that ends within them; `finish` says it once for each mode.
#[derive(Clone, Copy)]
enum Mode {
    Between,
    Atom,
    // In a text without an escape so far, and in one that had one.
    Text,
    Resolved,
    // After `\`, after `\x`, and after `\x` with a digit.
    Escape,
    HighDigit,
    LowDigit(u8),
}

// A list whose closing parenthesis is still to come.
#[derive(Clone, Copy)]
struct Open {
    column: usize,
    // How many forms stand before its parts.
    before: usize,
}

#[derive(Drop)]
struct Reader<'a> {
    heap: Global,
    line: &'a [u8],
    // The whole forms that no whole list has taken: the parts of the open lists, an inner list's behind those of
    // the list around it, or the form of the line.
    forms: Vec<Form<'a>>,
    // The innermost list is the last.
    open: Vec<Open>,
    mode: Mode,
    // Where the atom or text at hand begins.
    column: usize,
    // Its bytes so far, if it is a text that had an escape.
    bytes: Vec<u8>,
}

// The bytes of a line from a column on, up to another one.
fn bytes_between(line: &[u8], from: usize, to: usize) -> &[u8] {
    line.get(from.saturating_sub(1)..to.saturating_sub(1))
        .unwrap_or(&[])
}

impl<'a> Reader<'a> {
    fn new(heap: Global, line: &'a [u8]) -> Reader<'a> {
        Reader {
            heap,
            line,
            forms: Vec::new(heap),
            open: Vec::new(heap),
            mode: Mode::Between,
            column: 0,
            bytes: Vec::new(heap),
        }
    }

    // A form may begin within a list, or as the only one of its line.
    fn check_place(&self, next: Next) -> Result<(), Fault> {
        if self.open.is_empty() && !self.forms.is_empty() {
            return Err(next.bad("a second form on the line"));
        }
        Ok(())
    }

    fn begin(&mut self, next: Next, mode: Mode) -> Result<(), Fault> {
        self.check_place(next)?;
        self.mode = mode;
        self.column = next.column;
        Ok(())
    }

    // Adds a whole form.
    fn add(&mut self, column: usize, content: Content<'a>) -> Result<(), Fault> {
        self.forms.push(Form { column, content })?;
        Ok(())
    }

    // Adds the atom or text at hand.
    fn end(&mut self, content: Content<'a>) -> Result<(), Fault> {
        self.mode = Mode::Between;
        self.add(self.column, content)
    }

    // Adds the atom at hand, which ends before the column.
    fn end_atom(&mut self, column: usize) -> Result<(), Fault> {
        let atom = bytes_between(self.line, self.column, column);
        self.end(Content::Atom(atom))
    }

    fn open_list(&mut self, next: Next) -> Result<(), Fault> {
        self.check_place(next)?;
        if self.open.len() >= MAX_DEPTH {
            return Err(next.bad("nested too deep"));
        }
        self.open.push(Open {
            column: next.column,
            before: self.forms.len(),
        })?;
        Ok(())
    }

    // Takes the parts off, into a Vec of their number. A list's parts stand behind the forms before them; `min` is how the
    // proof knows it.
    fn close_list(&mut self, next: Next) -> Result<(), Fault> {
        let Some(Open { column, before }) = self.open.pop() else {
            return Err(next.bad("a closing parenthesis too many"));
        };
        let before = before.min(self.forms.len());
        let parts = self.forms.split_off(before)?;
        self.add(column, Content::List(parts))
    }

    fn between(&mut self, next: Next) -> Result<(), Fault> {
        match next.byte {
            b'(' => self.open_list(next),
            b')' => self.close_list(next),
            b'"' => self.begin(next, Mode::Text),
            byte if is_blank(byte) => Ok(()),
            _ => self.begin(next, Mode::Atom),
        }
    }

    fn in_atom(&mut self, next: Next) -> Result<(), Fault> {
        if is_blank(next.byte) || matches!(next.byte, b'(' | b')' | b'"') {
            self.end_atom(next.column)?;
            return self.between(next);
        }
        Ok(())
    }

    // The bytes of a text are the line's until an escape comes, and kept from then on.
    fn in_text(&mut self, next: Next) -> Result<(), Fault> {
        let text = bytes_between(self.line, self.column.saturating_add(1), next.column);
        match next.byte {
            b'"' => self.end(Content::Text(text)),
            b'\\' => {
                self.mode = Mode::Escape;
                self.bytes.extend_from_slice(text)?;
                Ok(())
            }
            _ => Ok(()),
        }
    }

    fn in_resolved(&mut self, byte: u8) -> Result<(), Fault> {
        match byte {
            b'"' => {
                let bytes = mem::replace(&mut self.bytes, Vec::new(self.heap));
                self.end(Content::Resolved(bytes))
            }
            b'\\' => {
                self.mode = Mode::Escape;
                Ok(())
            }
            _ => self.keep(byte),
        }
    }

    fn keep(&mut self, byte: u8) -> Result<(), Fault> {
        self.bytes.push(byte)?;
        Ok(())
    }

    fn in_escape(&mut self, next: Next) -> Result<(), Fault> {
        if next.byte != b'x' {
            return Err(next.bad("an escape other than \\x"));
        }
        self.mode = Mode::HighDigit;
        Ok(())
    }

    fn step(&mut self, next: Next) -> Result<(), Fault> {
        match self.mode {
            Mode::Between => self.between(next),
            Mode::Atom => self.in_atom(next),
            Mode::Text => self.in_text(next),
            Mode::Resolved => self.in_resolved(next.byte),
            Mode::Escape => self.in_escape(next),
            Mode::HighDigit => {
                self.mode = Mode::LowDigit(next.hex_digit()?);
                Ok(())
            }
            Mode::LowDigit(high) => {
                let low = next.hex_digit()?;
                self.mode = Mode::Resolved;
                self.keep(high << 4 | low)
            }
        }
    }

    // The form of the line, which ends at the column past its last byte.
    fn finish(mut self, column: usize) -> Result<Form<'a>, Fault> {
        match self.mode {
            Mode::Between => {}
            Mode::Atom => self.end_atom(column)?,
            _ => return Err(Fault::bad(column, "a string is not closed")),
        }
        if !self.open.is_empty() {
            return Err(Fault::bad(column, "a parenthesis is not closed"));
        }
        self.forms
            .pop()
            .ok_or_else(|| Fault::bad(column, "no form on the line"))
    }
}

pub fn read_line(heap: Global, line: &[u8]) -> Result<Form<'_>, Fault> {
    let mut reader = Reader::new(heap, line);
    for (column, byte) in (1..).zip(line) {
        reader.step(Next {
            column,
            byte: *byte,
        })?;
    }
    reader.finish(line.len().saturating_add(1))
}
