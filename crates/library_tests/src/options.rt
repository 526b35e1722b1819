//! Names and their beginnings, and what arguments are.

use tool_parts::options::argument::{Argument, argument_of, text_argument_of};
use tool_parts::options::found::{Found, NotFound};

/// The number of the option that is meant, or of why there is none.
fn meant_by(asked: &[u8]) -> u8 {
    let found = Found::Unknown
        .or(asked, b"count", 1)
        .or(asked, b"counts", 2)
        .or_either(asked, b"color", b"colour", 3);
    match found.option() {
        Ok(number) => number,
        Err(NotFound::UnknownName) => 4,
        Err(NotFound::Ambiguous) => 5,
    }
}

#[test]
fn a_whole_name_goes_before_beginnings(rt: HostRuntime) {
    assert_eq!(rt; meant_by(b"count"), 1);
    assert_eq!(rt; meant_by(b"counts"), 2);
    assert_eq!(rt; meant_by(b"colour"), 3);
}

#[test]
fn a_beginning_means_one_option(rt: HostRuntime) {
    assert_eq!(rt; meant_by(b"col"), 3);
    assert_eq!(rt; meant_by(b"coun"), 5);
    assert_eq!(rt; meant_by(b"co"), 5);
    assert_eq!(rt; meant_by(b"countss"), 4);
}

/// The number of what an argument is, and what it holds: its name or its letters, and its value.
fn told<T: Copy>(argument: Argument<T>) -> (u8, Option<T>, Option<T>) {
    match argument {
        Argument::End => (0, None, None),
        Argument::Name(name) => (1, Some(name), None),
        Argument::Joined(name, value) => (2, Some(name), Some(value)),
        Argument::Letters(letters) => (3, Some(letters), None),
        Argument::Plain => (4, None, None),
    }
}

#[test]
fn what_bytes_are(rt: HostRuntime) {
    let (kind, name, value) = told(argument_of(b"--a=b=c"));
    assert_eq!(rt; kind, 2);
    assert_eq!(rt; name.unwrap_or(b""), b"a".as_slice());
    assert_eq!(rt; value.unwrap_or(b""), b"b=c".as_slice());
    assert_eq!(rt; told(argument_of(b"--")).0, 0);
    assert_eq!(rt; told(argument_of(b"---")).0, 1);
    assert_eq!(rt; told(argument_of(b"-")).0, 4);
    assert_eq!(rt; told(argument_of(b"")).0, 4);
}

#[test]
fn what_texts_are(rt: HostRuntime) {
    let (kind, letters, _) = told(text_argument_of("-ab"));
    assert_eq!(rt; kind, 3);
    assert_eq!(rt; letters.unwrap_or(""), "ab");
    assert_eq!(rt; told(text_argument_of("--a=")).0, 2);
    assert_eq!(rt; told(text_argument_of("-")).0, 4);
    assert_eq!(rt; told(text_argument_of("a-")).0, 4);
}
