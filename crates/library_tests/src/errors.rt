//! What errors write.

use crate::asserts::assert_same;
use aho_core::error::{BuildError, Fault, MatchError, ReplaceError, StreamError};
use aho_core::search::{MatchKind, PatternID};
use std::alloc::AllocError;
use std::test::Fail;

#[test]
fn build_errors_are_told(rt: HostRuntime) -> Result<(), Fail> {
    let alloc = rt.alloc();
    let cases = [
        (
            BuildError::StateIDOverflow {
                max: 2147483646,
                requested: 2147483647,
            },
            "state identifier overflow: failed to create state ID from 2147483647, which exceeds the max of 2147483646",
        ),
        (
            BuildError::PatternIDOverflow {
                max: 2147483646,
                requested: 18446744073709551615,
            },
            "pattern identifier overflow: failed to create pattern ID from 18446744073709551615, which exceeds the max of 2147483646",
        ),
        (
            BuildError::PatternTooLong {
                pattern: PatternID::new(10)?,
                len: 2147483650,
                max: 2147483646,
            },
            "pattern 10 with length 2147483650 exceeds the maximum pattern length of 2147483646",
        ),
        (BuildError::OutOfMemory, "out of memory"),
    ];
    for (error, want) in &cases {
        let text = format!(in alloc; "{}", error)?;
        assert_same(&rt, text.as_str(), *want);
    }
    Ok(())
}

#[test]
fn match_errors_are_told(rt: HostRuntime) -> Result<(), Fail> {
    let alloc = rt.alloc();
    let cases = [
        (
            MatchError::invalid_input_anchored(),
            "anchored searches are not supported or enabled",
        ),
        (
            MatchError::invalid_input_unanchored(),
            "unanchored searches are not supported or enabled",
        ),
        (
            MatchError::unsupported_stream(MatchKind::LeftmostFirst),
            "match kind LeftmostFirst does not support stream searching",
        ),
        (
            MatchError::unsupported_overlapping(MatchKind::LeftmostLongest),
            "match kind LeftmostLongest does not support overlapping searches",
        ),
        (
            MatchError::unsupported_overlapping(MatchKind::Standard),
            "match kind Standard does not support overlapping searches",
        ),
        (
            MatchError::unsupported_empty(),
            "matching with an empty pattern string is not supported for this operation",
        ),
    ];
    for (error, want) in cases {
        let text = format!(in alloc; "{}", error)?;
        assert_same(&rt, text.as_str(), want);
    }
    Ok(())
}

#[test]
fn the_default_kind_is_standard(rt: HostRuntime) {
    assert_same(&rt, MatchKind::default(), MatchKind::Standard);
}

#[test]
fn replace_errors_are_told(rt: HostRuntime) -> Result<(), Fail> {
    let alloc = rt.alloc();
    let cases = [
        (
            ReplaceError::from(MatchError::unsupported_empty()),
            "matching with an empty pattern string is not supported for this operation",
        ),
        (ReplaceError::from(AllocError), "out of memory"),
    ];
    for (error, want) in cases {
        let text = format!(in alloc; "{}", error)?;
        assert_same(&rt, text.as_str(), want);
    }
    Ok(())
}

#[test]
fn stream_errors_are_told(rt: HostRuntime) -> Result<(), Fail> {
    let alloc = rt.alloc();
    let cases = [
        (
            StreamError::from(MatchError::unsupported_stream(MatchKind::LeftmostFirst)),
            "match kind LeftmostFirst does not support stream searching",
        ),
        (StreamError::Read(Fault), "read fault"),
        (StreamError::Write(Fault), "write fault"),
        (StreamError::WriteZero, "write took no bytes"),
        (StreamError::from(AllocError), "out of memory"),
        (StreamError::PositionLimit, "position limit reached"),
    ];
    for (error, want) in cases {
        let text = format!(in alloc; "{}", error)?;
        assert_same(&rt, text.as_str(), want);
    }
    Ok(())
}
