// The requests, one to a line.
use crate::fault::*;
use crate::form::*;
use crate::types::*;
use std::alloc::Global;
use tables::capacities::*;

#[derive(Drop)]
pub enum Request<'a> {
    Open(Capacities),
    Seal,
    EnterName(&'a str),
    EnterType(TypeForm<'a>),
    ShowName(u64),
    ShowType(u64),
    Counts,
    Capacities,
}

// The six numbers that follow the word `open`. A part that is no number is refused before a part too few or too many.
fn read_capacities(parts: &Parts) -> Result<Capacities, Fault> {
    let mut numbers = [0; 6];
    for (number, argument) in numbers.iter_mut().zip(parts.others) {
        // One past a usize is refused as too large, as the largest usize is.
        *number = usize::try_from(argument.number()?).unwrap_or(usize::MAX);
    }
    parts.exactly(6)?;
    let [terms, types, names, bytes, lists, rows] = numbers;
    Ok(Capacities {
        terms,
        types,
        names,
        bytes,
        lists,
        rows,
    })
}

// A request with no argument.
fn alone<'a>(parts: &Parts, request: Request<'a>) -> Result<Request<'a>, Fault> {
    parts.exactly(0)?;
    Ok(request)
}

pub fn read_request<'a>(heap: Global, line: &'a Form) -> Result<Request<'a>, Fault> {
    let parts = line.parts("no request")?;
    match parts.first.atom() {
        Some(b"open") => Ok(Request::Open(read_capacities(&parts)?)),
        Some(b"seal") => alone(&parts, Request::Seal),
        Some(b"enter-name") => Ok(Request::EnterName(parts.only()?.name()?)),
        Some(b"enter-type") => Ok(Request::EnterType(read_type(heap, parts.only()?)?)),
        Some(b"show-name") => Ok(Request::ShowName(parts.only()?.number()?)),
        Some(b"show-type") => Ok(Request::ShowType(parts.only()?.number()?)),
        Some(b"counts") => alone(&parts, Request::Counts),
        Some(b"capacities") => alone(&parts, Request::Capacities),
        Some(_) => Err(parts.first.bad("an unknown request")),
        None => Err(parts.first.bad("no request")),
    }
}
