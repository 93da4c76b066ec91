// A line that was read, as a tree of forms, which lends the line's bytes.
ghost use Rattle.std.specs.Prelude.{◌≡◌, [], ◌∷◌, length, IfOk};
ghost use Rattle.script.specs.Forms.{StandWithin};

use crate::fault::*;
use crate::numbers::parse_unsigned;
use std::str::from_utf8;

#[derive(Drop)]
#[cycle(forms)]
pub struct Form<'a> {
    // Of its first byte, from 1.
    pub column: usize,
    pub content: Content<'a>,
}

#[derive(Drop)]
#[cycle(forms)]
pub enum Content<'a> {
    Atom(&'a [u8]),
    // The bytes between the quotes, where none of them is of an escape.
    Text(&'a [u8]),
    // The bytes of a text with escapes, each resolved.
    Resolved(Vec<u8>),
    List(Vec<Form<'a>>),
}

impl<'a> Form<'a> {
    pub fn bad(&self, message: &'static str) -> Fault {
        Fault::bad(self.column, message)
    }

    pub fn atom(&self) -> Option<&[u8]> {
        match &self.content {
            Content::Atom(bytes) => Some(*bytes),
            _ => None,
        }
    }

    // A name is a text or an atom.
    pub fn name(&self) -> Result<&str, Fault> {
        let bytes = match &self.content {
            Content::Atom(bytes) | Content::Text(bytes) => *bytes,
            Content::Resolved(bytes) => bytes.as_slice(),
            Content::List(_) => return Err(self.bad("no name")),
        };
        from_utf8(bytes).map_err(|_| self.bad("a name that is not UTF-8"))
    }

    pub fn number(&self) -> Result<u64, Fault> {
        self.atom()
            .and_then(parse_unsigned)
            .ok_or_else(|| self.bad("no unsigned number of 64 bits"))
    }

    // The parts of a list. What is no list is refused with the message.
    pub fn parts(&self, no_list: &'static str) -> Result<Parts<'_, 'a>, Fault>
        ensures { IfOk result (λ p. StandWithin (p.first.now ∷ p.others.now) self.now) }
    {
        let Content::List(parts) = &self.content else {
            return Err(self.bad(no_list));
        };
        let [first, others @ ..] = parts.as_slice() else {
            return Err(self.bad("an empty list"));
        };
        Ok(Parts {
            list: self,
            first,
            others,
        })
    }
}

// The parts of a list: the first, which is its word, and the others.
#[derive(Clone, Copy)]
pub struct Parts<'f, 'a> {
    list: &'f Form<'a>,
    pub first: &'f Form<'a>,
    pub others: &'f [Form<'a>],
}

impl<'f, 'a> Parts<'f, 'a> {
    // The others, of which there have to be so many.
    pub fn exactly(&self, count: usize) -> Result<&'f [Form<'a>], Fault>
        ensures { IfOk result (λ parts. (parts.now ≡ self.now.others.now) × (length parts.now ≡ count)) }
    {
        if let Some(more) = self.others.get(count) {
            return Err(more.bad("a list with a part too many"));
        }
        if self.others.len() < count {
            return Err(self.list.bad("a list with a part too few"));
        }
        Ok(self.others)
    }

    // The only one of the others.
    pub fn only(&self) -> Result<&'f Form<'a>, Fault>
        ensures { IfOk result (λ part. self.now.others.now ≡ part.now ∷ []) }
    {
        match self.others {
            [part] => Ok(part),
            [_, more, ..] => Err(more.bad("a list with a part too many")),
            [] => Err(self.list.bad("a list with a part too few")),
        }
    }
}
