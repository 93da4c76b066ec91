use tables::ids::*;
use tables::term_type::*;

// A call on a workbench.
#[derive(Clone, Copy)]
pub enum Call<'a> {
    Name(&'a [u8]),
    Type(TermType<&'a [FieldType]>),
}

// What a call gives that is not refused.
#[derive(Clone, Copy, PartialEq, Eq, Debug)]
pub enum Reply {
    Name(NameId),
    Type(TypeId),
}
