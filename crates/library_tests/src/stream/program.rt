//! Runs of the program over arguments and bytes in memory, and over devices that fail. Each message names its case.

use crate::asserts::{assert_in, assert_same_in};
use crate::stream::failing::{Broken, Device, Slow, Then};
use aho_devices::adapters::{FromRead, FromWrite};
use std::alloc::{AllocError, Global};
use std::io::{ErrorKind, Read};
use std::process::Abort;
use std::test::Fail;
use tool_parts::run::run;

/// How many bytes the program asks of its input at once.
const PIECE: usize = 16 * 1024;

pub(crate) const USAGE: &str =
    "usage: acfind find KIND [-i] PATTERN.. | overlap PATTERN.. | replace P R ..\n";

fn texts(alloc: Global, arguments: &[&str]) -> Result<Vec<String>, AllocError> {
    let mut texts = Vec::new(alloc);
    for argument in arguments {
        texts.push(String::from_str(alloc, argument)?)?;
    }
    Ok(texts)
}

/// Runs on an input, and answers what was written on output and errors.
fn run_on<R: Read>(
    alloc: Global,
    arguments: &[&str],
    input: &mut R,
) -> Result<(u8, Vec<u8>, Vec<u8>), AllocError> {
    let arguments = texts(alloc, arguments)?;
    let mut output = Vec::new(alloc);
    let mut errors = Vec::new(alloc);
    let status = run(
        alloc,
        arguments.as_slice(),
        &mut FromRead::new(input),
        &mut FromWrite::new(&mut output),
        &mut FromWrite::new(&mut errors),
    );
    Ok((status, output, errors))
}

/// These arguments on this input end with this status and print this, and no errors.
fn prints(
    rt: &impl Abort,
    alloc: Global,
    arguments: &[&str],
    input: &[u8],
    status: u8,
    printed: &str,
) -> Result<(), Fail> {
    let mut rest = input;
    let (found, output, errors) = run_on(alloc, arguments, &mut rest)?;
    let case = (&arguments, "on", &input);
    assert_same_in(rt, &case, found, status);
    assert_same_in(rt, &case, output.as_slice(), printed.as_bytes());
    assert_in(rt, &case, errors.is_empty());
    Ok(())
}

/// Arguments, an input, the status and what is printed.
const FINDS: &[(&[&str], &[u8], u8, &str)] = &[
    (
        &["find", "standard", "b", "abc", "abcd"],
        b"abcd",
        0,
        "0 1 2\n",
    ),
    (&["find", "standard", "b", "abc", "abcd"], b"xyz", 1, ""),
    (
        &["find", "first", "samwise", "sam"],
        b"samwise",
        0,
        "0 0 7\n",
    ),
    (
        &["find", "first", "sam", "samwise"],
        b"samwise",
        0,
        "0 0 3\n",
    ),
    (
        &["find", "first", "abcd", "b", "bce", "ce"],
        b"abce",
        0,
        "1 1 2\n3 2 4\n",
    ),
    (
        &["find", "longest", "abcd", "b", "bce"],
        b"abce",
        0,
        "2 1 4\n",
    ),
    (
        &["find", "first", "xyz", ""],
        b"xy",
        0,
        "1 0 0\n1 1 1\n1 2 2\n",
    ),
    (&["find", "longest", "", "a"], b"ab", 0, "1 0 1\n0 2 2\n"),
    (
        &["find", "standard", "-i", "apple", "maple", "snapple"],
        b"Nobody likes maple in their apple flavored Snapple.",
        0,
        "1 13 18\n0 28 33\n2 43 50\n",
    ),
    (&["find", "first", "a", "b"], b"b", 0, "1 0 1\n"),
    (&["find", "first", "b", "a"], b"b", 0, "0 0 1\n"),
    (&["find", "standard", "-i", "apple"], b"APPLE", 0, "0 0 5\n"),
    (
        &["find", "standard", "apple", "-i"],
        b"APPLE -i",
        0,
        "1 6 8\n",
    ),
    (&["find", "standard", "-i", "-i"], b"-I", 0, "0 0 2\n"),
    (&["find", "first", ""], b"", 0, "0 0 0\n"),
    (&["find", "standard", "b"], b"\xff\x00b", 0, "0 2 3\n"),
    (&["find", "standard", "\u{e9}"], b"\xc3\xa9", 0, "0 0 2\n"),
    (&["find", "standard", "a"], b"", 1, ""),
];

#[test]
fn prints_the_finds(rt: HostRuntime) -> Result<(), Fail> {
    for (arguments, input, status, printed) in FINDS {
        prints(&rt, rt.alloc(), arguments, input, *status, printed)?;
    }
    Ok(())
}

#[test]
fn prints_all_that_overlaps(rt: HostRuntime) -> Result<(), Fail> {
    let rows: [(&[&str], &[u8], u8, &str); 6] = [
        (
            &["overlap", "append", "appendage", "app"],
            b"append the app to the appendage",
            0,
            "2 0 3\n0 0 6\n2 11 14\n2 22 25\n0 22 28\n1 22 31\n",
        ),
        (
            &["overlap", "", "ab"],
            b"ab",
            0,
            "0 0 0\n0 1 1\n1 0 2\n0 2 2\n",
        ),
        (&["overlap", "ab", "ab"], b"ab", 0, "0 0 2\n1 0 2\n"),
        (&["overlap", "-i", "a"], b"A-i", 0, "0 1 3\n"),
        (&["overlap", "standard"], b"a", 1, ""),
        (&["overlap", "a"], b"", 1, ""),
    ];
    for (arguments, input, status, printed) in rows {
        prints(&rt, rt.alloc(), arguments, input, status, printed)?;
    }
    Ok(())
}

#[test]
fn tells_wrong_arguments(rt: HostRuntime) -> Result<(), Fail> {
    let rows: [&[&str]; 11] = [
        &[],
        &[""],
        &["find"],
        &["find", "standard"],
        &["find", "standard", "-i"],
        &["find", "leftmost", "a"],
        &["find", "-i", "standard", "a"],
        &["overlap"],
        &["replace"],
        &["replace", "a"],
        &["replace", "a", "b", "c"],
    ];
    for arguments in rows {
        let mut input: &[u8] = b"a";
        let (found, output, errors) = run_on(rt.alloc(), arguments, &mut input)?;
        assert_same_in(&rt, &arguments, found, 2);
        assert_in(&rt, &arguments, output.is_empty());
        assert_same_in(&rt, &arguments, errors.as_slice(), USAGE.as_bytes());
    }
    Ok(())
}

/// As many times "a", and "bb".
fn text_of(alloc: Global, length: usize) -> Result<Vec<u8>, AllocError> {
    let mut text = Vec::new(alloc);
    text.resize(length, b'a')?;
    text.extend_from_slice(b"bb")?;
    Ok(text)
}

/// An input that gives all that is asked for is read to its end.
fn is_read(rt: &impl Abort, alloc: Global, text: &[u8], printed: &str) -> Result<(), Fail> {
    let mut input = text;
    let (found, output, _errors) = run_on(alloc, &["find", "standard", "b"], &mut input)?;
    let case = (&text.len(), "bytes");
    assert_same_in(rt, &case, found, 0);
    assert_same_in(rt, &case, output.as_slice(), printed.as_bytes());
    assert_in(rt, &case, input.is_empty());
    Ok(())
}

/// An input that gives a byte at a time is read to its end.
fn is_read_slowly(rt: &impl Abort, alloc: Global, text: &[u8], printed: &str) -> Result<(), Fail> {
    let mut slow = Slow { rest: text };
    let (found, output, _errors) = run_on(alloc, &["find", "standard", "b"], &mut slow)?;
    let case = (&text.len(), "bytes, one by one");
    assert_same_in(rt, &case, found, 0);
    assert_same_in(rt, &case, output.as_slice(), printed.as_bytes());
    assert_in(rt, &case, slow.rest.is_empty());
    Ok(())
}

#[test]
fn reads_an_input_of_several_pieces(rt: HostRuntime) -> Result<(), Fail> {
    for (length, printed) in [
        (PIECE - 1, "0 16383 16384\n0 16384 16385\n"),
        (PIECE, "0 16384 16385\n0 16385 16386\n"),
        (3 * PIECE, "0 49152 49153\n0 49153 49154\n"),
    ] {
        let text = text_of(rt.alloc(), length)?;
        is_read(&rt, rt.alloc(), &text, printed)?;
        is_read_slowly(&rt, rt.alloc(), &text, printed)?;
    }
    Ok(())
}

#[test]
fn tells_a_reader_that_fails(rt: HostRuntime) -> Result<(), Fail> {
    let first: &[u8] = b"ab";
    for kind in [
        ErrorKind::Other,
        ErrorKind::OutOfMemory,
        ErrorKind::Interrupted,
    ] {
        for first in [b"", first] {
            let mut input = Broken {
                first,
                kind: Some(kind),
                rest: b"b",
            };
            let arguments = ["find", "standard", "b"];
            let (found, output, errors) = run_on(rt.alloc(), &arguments, &mut input)?;
            let case = (&kind, "after", &first);
            assert_same_in(&rt, &case, found, 3);
            assert_in(&rt, &case, output.is_empty());
            assert_same_in(&rt, &case, errors.as_slice(), "read fault\n".as_bytes());
        }
    }
    Ok(())
}

/// What a writer does, and what is told of it.
#[derive(Clone, Copy)]
struct WriterRow {
    case: &'static str,
    then: Then,
    flush: Option<ErrorKind>,
    told: &'static str,
}

const WRITER_ROWS: [WriterRow; 8] = [
    WriterRow {
        case: "it is broken",
        then: Then::Fails(ErrorKind::BrokenPipe),
        flush: None,
        told: "write fault\n",
    },
    WriterRow {
        case: "it is interrupted",
        then: Then::Fails(ErrorKind::Interrupted),
        flush: None,
        told: "write fault\n",
    },
    WriterRow {
        case: "memory runs out",
        then: Then::Fails(ErrorKind::OutOfMemory),
        flush: None,
        told: "write fault\n",
    },
    WriterRow {
        case: "no byte is taken",
        then: Then::TakesNone,
        flush: None,
        told: "write took no bytes\n",
    },
    WriterRow {
        case: "a buffer's write took no byte",
        then: Then::Fails(ErrorKind::WriteZero),
        flush: None,
        told: "write took no bytes\n",
    },
    WriterRow {
        case: "a flush fails",
        then: Then::Takes,
        flush: Some(ErrorKind::BrokenPipe),
        told: "write fault\n",
    },
    WriterRow {
        case: "a flush is interrupted",
        then: Then::Takes,
        flush: Some(ErrorKind::Interrupted),
        told: "write fault\n",
    },
    WriterRow {
        case: "a buffer's flush took no byte",
        then: Then::Takes,
        flush: Some(ErrorKind::WriteZero),
        told: "write took no bytes\n",
    },
];

/// Two lines that are printed of some matches, or written by a replacement.
const LINES: &[u8] = b"0 1 2\n0 3 4\n";

/// What the writer holds in the end, where it takes `first` bytes at least.
fn held_of(then: Then, first: usize) -> &'static [u8] {
    match then {
        Then::Takes => LINES,
        Then::TakesNone | Then::Fails(_) => LINES.get(..first).unwrap_or(&[]),
    }
}

/// Runs with a device for the output, and answers what was written on errors.
fn run_into(
    alloc: Global,
    arguments: &[&str],
    text: &[u8],
    output: &mut Device,
) -> Result<(u8, Vec<u8>), AllocError> {
    let arguments = texts(alloc, arguments)?;
    let mut errors = Vec::new(alloc);
    let mut input = text;
    let status = run(
        alloc,
        arguments.as_slice(),
        &mut FromRead::new(&mut input),
        &mut FromWrite::new(output),
        &mut FromWrite::new(&mut errors),
    );
    Ok((status, errors))
}

/// The fault of a writer that takes `first` bytes at least is told, where these arguments print the two lines of this text.
fn tells_the_writer(
    rt: &impl Abort,
    alloc: Global,
    arguments: &[&str],
    text: &[u8],
    row: &WriterRow,
    first: usize,
) -> Result<(), Fail> {
    let mut output = Device::new(alloc, first, row.then, row.flush);
    let (found, errors) = run_into(alloc, arguments, text, &mut output)?;
    let case = (&row.case, "after", &first);
    assert_same_in(rt, &case, found, 3);
    let held = held_of(row.then, first);
    assert_same_in(rt, &case, output.held.as_slice(), held);
    assert_in(rt, &case, output.flushed.is_empty());
    assert_same_in(rt, &case, errors.as_slice(), row.told.as_bytes());
    Ok(())
}

/// The fault of each writer is told, however many bytes it takes.
fn tells_each_writer(
    rt: &impl Abort,
    alloc: Global,
    arguments: &[&str],
    text: &[u8],
) -> Result<(), Fail> {
    for row in WRITER_ROWS {
        for first in [0, 1, 5, 6, 7, 11] {
            tells_the_writer(rt, alloc, arguments, text, &row, first)?;
        }
    }
    Ok(())
}

#[test]
fn tells_a_writer_that_fails(rt: HostRuntime) -> Result<(), Fail> {
    let replace = ["replace", "b", "0 3", "a", "0 1 2\n"];
    tells_each_writer(&rt, rt.alloc(), &["find", "standard", "b"], b"abab")?;
    tells_each_writer(&rt, rt.alloc(), &replace, b"ab 4\n")
}

/// These arguments on this input write this.
fn replaces(
    rt: &impl Abort,
    alloc: Global,
    arguments: &[&str],
    input: &[u8],
    written: &[u8],
) -> Result<(), Fail> {
    let mut rest = input;
    let (status, output, errors) = run_on(alloc, arguments, &mut rest)?;
    let case = (&arguments, "on", &input);
    assert_same_in(rt, &case, status, 0);
    assert_same_in(rt, &case, output.as_slice(), written);
    assert_in(rt, &case, errors.is_empty());
    Ok(())
}

/// These arguments on this input, which comes a byte at a time, write this.
fn replaces_slowly(
    rt: &impl Abort,
    alloc: Global,
    arguments: &[&str],
    input: &[u8],
    written: &[u8],
) -> Result<(), Fail> {
    let mut slow = Slow { rest: input };
    let (status, output, _errors) = run_on(alloc, arguments, &mut slow)?;
    let case = (&arguments, "on", &input, "one by one");
    assert_same_in(rt, &case, status, 0);
    assert_same_in(rt, &case, output.as_slice(), written);
    Ok(())
}

#[test]
fn replaces_each_match(rt: HostRuntime) -> Result<(), Fail> {
    let rows: [(&[&str], &[u8], &[u8]); 7] = [
        (
            &["replace", "fox", "sloth", "brown", "grey", "quick", "slow"],
            b"The quick brown fox.",
            b"The slow grey sloth.",
        ),
        (&["replace", "aa", "b"], b"aaaaa", b"bba"),
        (&["replace", "a", ""], b"bab", b"bb"),
        (
            &["replace", "ab", "x", "a", "y", "a", "z"],
            b"\xffaab",
            b"\xffyyb",
        ),
        (&["replace", "-i", "x"], b"-i-I", b"x-I"),
        (&["replace", "a", "b"], b"cd\n", b"cd\n"),
        (&["replace", "a", "b"], b"", b""),
    ];
    for (arguments, input, written) in rows {
        replaces(&rt, rt.alloc(), arguments, input, written)?;
        replaces_slowly(&rt, rt.alloc(), arguments, input, written)?;
    }
    Ok(())
}

#[test]
fn tells_a_replacement_that_is_refused_or_broken_off(rt: HostRuntime) -> Result<(), Fail> {
    let refused = "matching with an empty pattern string is not supported for this operation\n";
    let mut input: &[u8] = b"a";
    let arguments = ["replace", "b", "y", "", "x"];
    let (status, output, errors) = run_on(rt.alloc(), &arguments, &mut input)?;
    assert_same_in(&rt, "refused", status, 2);
    assert_in(&rt, "refused", output.is_empty());
    assert_same_in(&rt, "refused", errors.as_slice(), refused.as_bytes());
    assert_same_in(&rt, "refused", input.len(), 1);

    let mut broken = Broken {
        first: b"The qui",
        kind: Some(ErrorKind::Interrupted),
        rest: b"ck fox",
    };
    let arguments = ["replace", "quick", "slow"];
    let (status, output, errors) = run_on(rt.alloc(), &arguments, &mut broken)?;
    assert_same_in(&rt, "broken off", status, 3);
    assert_in(&rt, "broken off", output.len() >= 2);
    assert_in(&rt, "broken off", b"The ".starts_with(output.as_slice()));
    assert_same_in(
        &rt,
        "broken off",
        errors.as_slice(),
        "read fault\n".as_bytes(),
    );
    Ok(())
}

/// Runs on a reader that fails at once, with a device for the errors, and answers what was written on output.
fn run_with_errors(
    alloc: Global,
    arguments: &[&str],
    errors: &mut Device,
) -> Result<(u8, Vec<u8>), AllocError> {
    let arguments = texts(alloc, arguments)?;
    let mut output = Vec::new(alloc);
    let mut input = Broken {
        first: b"",
        kind: Some(ErrorKind::Other),
        rest: b"",
    };
    let status = run(
        alloc,
        arguments.as_slice(),
        &mut FromRead::new(&mut input),
        &mut FromWrite::new(&mut output),
        &mut FromWrite::new(errors),
    );
    Ok((status, output))
}

/// The status is kept where only the first four bytes of a message can be told.
fn keeps_the_status(
    rt: &impl Abort,
    alloc: Global,
    case: &str,
    arguments: &[&str],
    then: Then,
    status: u8,
    told: &[u8],
) -> Result<(), Fail> {
    let mut errors = Device::new(alloc, 4, then, None);
    let (found, output) = run_with_errors(alloc, arguments, &mut errors)?;
    assert_same_in(rt, &case, found, status);
    assert_in(rt, &case, output.is_empty());
    assert_same_in(rt, &case, errors.held.as_slice(), told);
    Ok(())
}

#[test]
fn keeps_the_status_where_errors_cannot_be_told(rt: HostRuntime) -> Result<(), Fail> {
    let alloc = rt.alloc();
    let right = ["find", "standard", "b"];
    for then in [Then::TakesNone, Then::Fails(ErrorKind::Interrupted)] {
        keeps_the_status(&rt, alloc, "wrong arguments", &["find"], then, 2, b"usag")?;
        keeps_the_status(&rt, alloc, "a reader that fails", &right, then, 3, b"read")?;
    }
    Ok(())
}

#[test]
fn writes_in_pieces_and_flushes(rt: HostRuntime) -> Result<(), Fail> {
    for (kind, status, printed, told) in [
        ("standard", 0, "0 1 2\n0 3 4\n", ""),
        ("none", 2, "", USAGE),
    ] {
        let arguments = texts(rt.alloc(), &["find", kind, "b"])?;
        let mut output = Device::new(rt.alloc(), 0, Then::Takes, None);
        let mut errors = Device::new(rt.alloc(), 0, Then::Takes, None);
        let mut input: &[u8] = b"abab";
        let found = run(
            rt.alloc(),
            arguments.as_slice(),
            &mut FromRead::new(&mut input),
            &mut FromWrite::new(&mut output),
            &mut FromWrite::new(&mut errors),
        );
        assert_same_in(&rt, &kind, found, status);
        assert_same_in(&rt, &kind, output.flushed.as_slice(), printed.as_bytes());
        assert_same_in(&rt, &kind, errors.flushed.as_slice(), told.as_bytes());
    }
    Ok(())
}
