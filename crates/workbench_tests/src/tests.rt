use std::alloc::Global;
use std::test::Fail;
use tables::capacities::*;
use tables::ids::*;
use tables::result::*;
use tables::storage::*;
use tables::term::*;
use tables::term_type::*;
use workbench::calls::*;
use workbench::run::run;
use workbench::stages::*;

fn refusal(heap: Global, capacities: Capacities) -> Option<CompileError> {
    match Draft::open(heap, capacities) {
        Ok(_) => None,
        Err(e) => Some(e),
    }
}

#[test]
fn capacities_at_their_ends(rt: HostRuntime) {
    let heap = rt.alloc();
    assert_eq!(rt; refusal(heap, Capacities::SMALLEST), None);
    assert_eq!(rt; refusal(heap, Capacities::LARGEST), None);
    let past = [
        Capacities {
            terms: 1,
            ..Capacities::SMALLEST
        },
        Capacities {
            terms: 4097,
            ..Capacities::LARGEST
        },
        Capacities {
            types: 0,
            ..Capacities::SMALLEST
        },
        Capacities {
            types: 513,
            ..Capacities::LARGEST
        },
        Capacities {
            names: 1,
            ..Capacities::SMALLEST
        },
        Capacities {
            names: 1025,
            ..Capacities::LARGEST
        },
        Capacities {
            bytes: 8,
            ..Capacities::SMALLEST
        },
        Capacities {
            bytes: 16385,
            ..Capacities::LARGEST
        },
        Capacities {
            lists: 8193,
            ..Capacities::LARGEST
        },
        Capacities {
            rows: 201,
            ..Capacities::LARGEST
        },
    ];
    for capacities in past {
        assert_eq!(rt; refusal(heap, capacities), Some(CompileError::BadInput));
    }
}

#[test]
fn names_of_each_length(rt: HostRuntime) -> Result<(), Fail> {
    let mut draft = Draft::open(rt.alloc(), Capacities::LARGEST)?;
    let long = [b'x'; 256];
    assert_eq!(rt; draft.name(b""), Ok(NameId(2)));
    assert_eq!(rt; draft.name(&long[0..255]), Ok(NameId(3)));
    assert_eq!(rt; draft.name(&long), Err(CompileError::BadInput));
    assert_eq!(rt; draft.name(b"tag"), Ok(NameId(1)));
    assert_eq!(rt; draft.name(b""), Ok(NameId(2)));
    assert_eq!(rt;
        draft.tables().in_use(),
        Capacities {
            names: 4,
            bytes: 264,
            lists: 0,
            terms: 2,
            types: 1,
            rows: 0,
        }
    );
    Ok(())
}

fn record(sealed: &mut Sealed, fields: &[FieldType]) -> Result<TypeId, CompileError> {
    sealed.term_type(TermType::Record(fields))
}

#[test]
fn types_are_held_once(rt: HostRuntime) -> Result<(), Fail> {
    let mut sealed = Draft::open(rt.alloc(), Capacities::LARGEST)?.seal();
    let long = sealed.term_type(TermType::Long)?;
    let option = sealed.term_type(TermType::Option(long))?;
    let first = FieldType {
        name: NameId(0),
        ty: option,
    };
    let second = FieldType {
        name: NameId(1),
        ty: long,
    };
    let fields = [first, second];
    assert_eq!(rt; record(&mut sealed, &fields), Ok(TypeId(3)));
    assert_eq!(rt; record(&mut sealed, &fields), Ok(TypeId(3)));
    assert_eq!(rt; record(&mut sealed, &fields[0..1]), Ok(TypeId(4)));
    assert_eq!(rt; record(&mut sealed, &fields[0..0]), Ok(TypeId(5)));
    assert_eq!(rt;
        record(&mut sealed, &[second, first]),
        Err(CompileError::BadInput)
    );
    assert_eq!(rt;
        record(&mut sealed, &[first, first]),
        Err(CompileError::BadInput)
    );
    Ok(())
}

#[test]
fn parts_that_may_not_stand(rt: HostRuntime) -> Result<(), Fail> {
    let mut draft = Draft::open(rt.alloc(), Capacities::LARGEST)?;
    let option = draft.term_type(TermType::Option(TypeId(0)))?;
    assert_eq!(rt;
        draft.term_type(TermType::Set(option)),
        Err(CompileError::BadInput)
    );
    assert_eq!(rt;
        draft.term_type(TermType::Option(option)),
        Err(CompileError::BadInput)
    );
    assert_eq!(rt;
        draft.term_type(TermType::Set(TypeId(2))),
        Err(CompileError::BadInput)
    );
    assert_eq!(rt;
        draft.term_type(TermType::Entity(NameId(2))),
        Err(CompileError::BadInput)
    );
    assert_eq!(rt; draft.term_type(TermType::Entity(NameId(1))), Ok(TypeId(2)));
    Ok(())
}

#[test]
fn tables_exactly_full(rt: HostRuntime) -> Result<(), Fail> {
    let capacities = Capacities {
        types: 2,
        names: 3,
        bytes: 10,
        lists: 1,
        ..Capacities::SMALLEST
    };
    let mut draft = Draft::open(rt.alloc(), capacities)?;
    let fields = [
        FieldType {
            name: NameId(0),
            ty: TypeId(0),
        },
        FieldType {
            name: NameId(1),
            ty: TypeId(0),
        },
    ];
    assert_eq!(rt; draft.name(b"ab"), Err(CompileError::Full(Table::Names)));
    assert_eq!(rt; draft.name(b"a"), Ok(NameId(2)));
    assert_eq!(rt; draft.name(b""), Err(CompileError::Full(Table::Names)));
    assert_eq!(rt; draft.name(b"a"), Ok(NameId(2)));
    assert_eq!(rt;
        draft.term_type(TermType::Record(&fields)),
        Err(CompileError::Full(Table::Lists))
    );
    assert_eq!(rt;
        draft.term_type(TermType::Record(&fields[0..1])),
        Ok(TypeId(1))
    );
    assert_eq!(rt;
        draft.term_type(TermType::Record(&fields)),
        Err(CompileError::Full(Table::Types))
    );
    assert_eq!(rt;
        draft.term_type(TermType::Record(&fields[0..1])),
        Ok(TypeId(1))
    );
    assert_eq!(rt;
        draft.tables().in_use(),
        Capacities {
            terms: 2,
            rows: 0,
            ..capacities
        }
    );
    Ok(())
}

fn number(n: i64) -> TermRef<'static> {
    Term::Prim(TermPrim::Bitvec(n))
}

#[test]
fn terms_are_held_once(rt: HostRuntime) -> Result<(), Fail> {
    let capacities = Capacities {
        terms: 6,
        types: 3,
        lists: 4,
        ..Capacities::SMALLEST
    };
    let mut tables = Tables::open(rt.alloc(), capacities)?;
    let long = tables.enter_type(TermType::Long)?;
    let longs = tables.enter_type(TermType::Set(long))?;
    let one = tables.enter_term(number(1), long)?;
    assert_eq!(rt; one, TermId(2));
    assert_eq!(rt; tables.enter_term(number(1), long), Ok(one));
    assert_eq!(rt;
        tables.enter_term(Term::Prim(TermPrim::Bool(true)), TypeId(0)),
        Ok(TermId(1))
    );
    let id = NameId(0);
    let x = Term::Var(TermVar { id, ty: long });
    let variable = tables.enter_term(x, long)?;
    let both = [one, variable];
    let set = tables.enter_term(Term::Set(long, &both), longs)?;
    assert_eq!(rt; tables.enter_term(Term::Set(long, &both), longs), Ok(set));
    assert_eq!(rt;
        (tables.term(variable).literal, tables.term(set).literal),
        (false, false)
    );
    assert_eq!(rt; tables.in_use().lists, 2);
    assert_eq!(rt;
        tables.enter_term(Term::Set(long, &[one, one, one]), longs),
        Err(CompileError::Full(Table::Lists))
    );
    let ones = tables.enter_term(Term::Set(long, &both[0..1]), longs)?;
    assert_eq!(rt; ones, TermId(5));
    assert_eq!(rt;
        (tables.term(ones).literal, tables.term(ones).ty),
        (true, longs)
    );
    assert_eq!(rt;
        tables.enter_term(number(2), long),
        Err(CompileError::Full(Table::Terms))
    );
    assert_eq!(rt; tables.in_use().lists, 3);
    assert_eq!(rt; tables.term_fits(Term::Some(TermId(5))), true);
    assert_eq!(rt; tables.term_fits(Term::Some(TermId(6))), false);
    Ok(())
}

#[test]
fn a_run_answers_every_call(rt: HostRuntime) -> Result<(), Fail> {
    let on_draft = [
        Call::Name(b"Judgment"),
        Call::Type(TermType::Entity(NameId(2))),
    ];
    let on_sealed = [
        Call::Type(TermType::Set(TypeId(1))),
        Call::Type(TermType::Set(TypeId(9))),
    ];
    let result = run(rt.alloc(), Capacities::LARGEST, &on_draft, &on_sealed)?;
    let answers = result.answers.as_slice();
    assert_eq!(rt; answers.first().copied(), Some(Ok(Reply::Name(NameId(2)))));
    assert_eq!(rt; answers.get(1).copied(), Some(Ok(Reply::Type(TypeId(1)))));
    assert_eq!(rt; answers.get(2).copied(), Some(Ok(Reply::Type(TypeId(2)))));
    assert_eq!(rt; answers.get(3).copied(), Some(Err(CompileError::BadInput)));
    assert_eq!(rt; answers.len(), 4);
    Ok(())
}
