// Enters a type, the parts before the whole.
use crate::state::*;
use crate::types::*;
use std::alloc::{AllocError, Global};
use tables::ids::*;
use tables::open::*;
use tables::result::*;
use tables::term_type::*;

#[cycle(enter_type)]
pub fn enter_type(heap: Global, state: &mut State, ty: &TypeForm) -> Result<TypeId, CompileError> {
    match ty {
        TypeForm::Basic(basic) => state.term_type((*basic).into()),
        TypeForm::Entity(name) => {
            let name = state.name(name.as_bytes())?;
            state.term_type(TermType::Entity(name))
        }
        TypeForm::Set(part) => {
            let part = enter_type(heap, state, part)?;
            state.term_type(TermType::Set(part))
        }
        TypeForm::Option(part) => {
            let part = enter_type(heap, state, part)?;
            state.term_type(TermType::Option(part))
        }
        TypeForm::Record(fields) => {
            let fields = enter_fields(heap, state, fields.as_slice())?;
            state.term_type(TermType::Record(fields.as_slice()))
        }
    }
}

#[cycle(enter_type)]
fn enter_fields(
    heap: Global,
    state: &mut State,
    fields: &[FieldForm],
) -> Result<Vec<FieldType>, CompileError> {
    let mut entered = Vec::with_capacity(heap, fields.len())?;
    for field in fields {
        let name = state.name(field.name.as_bytes())?;
        let ty = enter_type(heap, state, &field.ty)?;
        entered
            .push(FieldType { name, ty })
            .map_err(AllocError::from)?;
    }
    Ok(entered)
}
