use script::session::run_script;
use std::alloc::{AllocError, Global};
use std::process::Abort;
use std::test::Fail;

fn answers(rt: &impl Abort, heap: Global, script: &[u8], expected: &[u8]) -> Result<(), Fail> {
    assert!(rt; run_script(heap, script)?.as_slice() == expected);
    Ok(())
}

#[test]
fn every_request_is_answered(rt: HostRuntime) -> Result<(), Fail> {
    let script = b"; a comment

(enter-name \"caf\\xc3\\xa9\")
(enter-name tag)
(show-name 2)
(counts)
(seal)
 (seal)
(enter-name \"\")
(enter-type datetime)
(show-type 1)
(show-type 2)
(show-name 65536)
(capacities)
(open 2 1 2 9 0 0)
(seal)
(counts)";
    let expected = b"ok 2
ok 1
ok \"caf\\xc3\\xa9\"
ok (terms 2) (types 1) (names 3) (bytes 14) (lists 0) (rows 0)
ok
bad 8:2 the workbench is sealed
ok 3
ok 1
ok datetime
err BadInput
err BadInput
ok (terms 4096) (types 512) (names 1024) (bytes 16384) (lists 8192) (rows 200)
ok
ok
ok (terms 2) (types 1) (names 2) (bytes 9) (lists 0) (rows 0)
";
    answers(&rt, rt.alloc(), script, expected)
}

// An option is of no option; what the line entered before it was refused stays.
#[test]
fn every_type_is_entered_once(rt: HostRuntime) -> Result<(), Fail> {
    let script =
        b"(enter-type (record (z bool) (f duration) (b (set string)) (d decimal) (a (option (entity tag)))))
(show-type 7)
(enter-type (record (a (option (entity tag))) (b (set string)) (d decimal) (f duration) (z bool)))
(enter-type (set (option long)))
(counts)
(enter-type (record))";
    let expected = b"ok 7
ok (record (\"a\" (option (entity \"tag\"))) (\"b\" (set string)) (\"d\" decimal) (\"f\" duration) (\"z\" bool))
ok 7
err BadInput
ok (terms 2) (types 10) (names 7) (bytes 14) (lists 5) (rows 0)
ok 10
";
    answers(&rt, rt.alloc(), script, expected)
}

#[test]
fn bad_lines_change_nothing(rt: HostRuntime) -> Result<(), Fail> {
    let script = b"open
()
(\"open\")
(close)
(open 2 1 2 9 0)
(open 2 1 2 9 0 0 0)
(open 2 1 2 9 0 -1)
(seal 1)
(enter-name (a))
(enter-name \"\\xff\")
(enter-type text)
(enter-type \"long\")
(enter-type (list long))
(enter-type (record a))
(enter-type (record (a long) (b)))
(enter-type (record (b long) (a long) (b string)))
(show-name 1) x
(counts)";
    let expected = b"bad 1:1 no request
bad 2:1 an empty list
bad 3:2 no request
bad 4:2 an unknown request
bad 5:1 a list with a part too few
bad 6:19 a list with a part too many
bad 7:17 no unsigned number of 64 bits
bad 8:7 a list with a part too many
bad 9:13 no name
bad 10:13 a name that is not UTF-8
bad 11:13 an unknown type
bad 12:13 no type
bad 13:14 an unknown type
bad 14:21 no field
bad 15:30 a list with a part too few
bad 16:40 a name twice in a record
bad 17:15 a second form on the line
ok (terms 2) (types 1) (names 2) (bytes 9) (lists 0) (rows 0)
";
    answers(&rt, rt.alloc(), script, expected)
}

// Of several faults of a line: those of a record's fields come first, then those of their types in
// the order of the names; and a number's comes before that of another one that is missing.
#[test]
fn the_first_fault_is_answered(rt: HostRuntime) -> Result<(), Fail> {
    let script = b"(enter-type (record (b text) (a list) (c)))
(enter-type (record (b text) (a list)))
(enter-type (record (b text) (b long) c))
(open 2 x)
(seal (";
    let expected = b"bad 1:39 a list with a part too few
bad 2:33 an unknown type
bad 3:31 a name twice in a record
bad 4:9 no unsigned number of 64 bits
bad 5:8 a parenthesis is not closed
";
    answers(&rt, rt.alloc(), script, expected)
}

#[test]
fn capacities_end_where_they_do(rt: HostRuntime) -> Result<(), Fail> {
    let script = b"(open 2 1 2 9 0 0)
(open 4096 512 1024 16384 8192 200)
(open 1 1 2 9 0 0)
(open 2 0 2 9 0 0)
(open 2 1 1 9 0 0)
(open 2 1 2 8 0 0)
(open 4097 1 2 9 0 0)
(open 2 513 2 9 0 0)
(open 2 1 1025 9 0 0)
(open 2 1 2 16385 0 0)
(open 2 1 2 9 8193 0)
(open 2 1 2 9 0 201)
(capacities)";
    let expected = b"ok
ok
err BadInput
err BadInput
err BadInput
err BadInput
err BadInput
err BadInput
err BadInput
err BadInput
err BadInput
err BadInput
ok (terms 4096) (types 512) (names 1024) (bytes 16384) (lists 8192) (rows 200)
";
    answers(&rt, rt.alloc(), script, expected)
}

#[test]
fn full_tables_are_named(rt: HostRuntime) -> Result<(), Fail> {
    let script = b"(open 2 3 4 12 1 0)
(enter-type (record (a long)))
(enter-type (set long))
(enter-name bc)
(enter-name d)
(counts)
(open 2 4 3 12 1 0)
(enter-name abcd)
(enter-name abc)
(enter-name \"\")
(enter-type (record (abc (record (abc bool)))))
(counts)";
    let expected = b"ok
ok 2
err Full types
ok 3
err Full names
ok (terms 2) (types 3) (names 4) (bytes 12) (lists 1) (rows 0)
ok
err Full names
ok 2
err Full names
err Full lists
ok (terms 2) (types 2) (names 3) (bytes 12) (lists 1) (rows 0)
";
    answers(&rt, rt.alloc(), script, expected)
}

fn long_name(heap: Global, length: usize) -> Result<Vec<u8>, AllocError> {
    let mut line = Vec::from_slice(heap, b"(enter-name ")?;
    for _ in 0..length {
        line.push(b'n')?;
    }
    line.push(b')')?;
    Ok(line)
}

#[test]
fn names_have_at_most_255_bytes(rt: HostRuntime) -> Result<(), Fail> {
    let heap = rt.alloc();
    answers(&rt, heap, long_name(heap, 255)?.as_slice(), b"ok 2\n")?;
    answers(
        &rt,
        heap,
        long_name(heap, 256)?.as_slice(),
        b"err BadInput\n",
    )
}

#[test]
fn lexical_rules(rt: HostRuntime) -> Result<(), Fail> {
    let script = b"(enter-name \"a
(enter-name \"\\x2G\")
(enter-name \"\\n\")
(counts))
((counts)
(show-name 01)
(show-name 18446744073709551615)
(show-name 18446744073709551616)
(enter-name \"a \\x22q\\x22 \\x5c ~\\x7f\\x00\\xc3\\xbf\")
(show-name 2)
\t(counts)\r
 ; (counts)";
    let expected = b"bad 1:15 a string is not closed
bad 2:17 an escape without two digits of 0-9a-f
bad 3:15 an escape other than \\x
bad 4:9 a closing parenthesis too many
bad 5:10 a parenthesis is not closed
bad 6:12 no unsigned number of 64 bits
err BadInput
bad 8:12 no unsigned number of 64 bits
ok 2
ok \"a \\x22q\\x22 \\x5c ~\\x7f\\x00\\xc3\\xbf\"
ok (terms 2) (types 1) (names 3) (bytes 22) (lists 0) (rows 0)
";
    answers(&rt, rt.alloc(), script, expected)
}

// A set of a set of .. long, whose parentheses nest so deep.
fn nested(heap: Global, depth: usize) -> Result<Vec<u8>, AllocError> {
    let mut line = Vec::from_slice(heap, b"(enter-type ")?;
    for _ in 1..depth {
        line.extend_from_slice(b"(set ")?;
    }
    line.extend_from_slice(b"long")?;
    for _ in 0..depth {
        line.push(b')')?;
    }
    Ok(line)
}

#[test]
fn nesting_is_bounded(rt: HostRuntime) -> Result<(), Fail> {
    let heap = rt.alloc();
    answers(&rt, heap, nested(heap, 500)?.as_slice(), b"ok 500\n")?;
    answers(
        &rt,
        heap,
        nested(heap, 501)?.as_slice(),
        b"bad 1:2508 nested too deep\n",
    )
}

// The type that is shown for a number has that number.
#[test]
fn shown_types_are_read_again(rt: HostRuntime) -> Result<(), Fail> {
    let heap = rt.alloc();
    let line =
        b"(enter-type (record (\"b\\x00\\x22\" (set (record (c decimal)))) (a (entity \"\"))))\n";
    let mut script = Vec::from_slice(heap, line)?;
    script.extend_from_slice(b"(show-type 5)")?;
    let shown = run_script(heap, script.as_slice())?;
    let text = shown.as_slice().get(8..).ok_or("not shown")?;
    let mut again = Vec::from_slice(heap, line)?;
    again.extend_from_slice(b"(enter-type ")?;
    again.extend_from_slice(text)?;
    again.pop();
    again.push(b')')?;
    answers(&rt, heap, again.as_slice(), b"ok 5\nok 5\n")
}
