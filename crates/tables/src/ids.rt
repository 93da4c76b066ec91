// The numbers of names, types and terms are three plain types: one generic in what it counts would need a PhantomData,
// written out wherever a number is made.

// The number of a name.
#[derive(Clone, Copy, PartialEq, Eq, Debug)]
pub struct NameId(pub u16);

// The number of a type.
#[derive(Clone, Copy, PartialEq, Eq, Debug)]
pub struct TypeId(pub u16);

// The number of a term.
#[derive(Clone, Copy, PartialEq, Eq, Debug)]
pub struct TermId(pub u16);
