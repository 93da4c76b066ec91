// Where a list lies in the table that holds it.
#[derive(Clone, Copy)]
pub struct Span {
    pub first: u16,
    pub count: u16,
}
