//! What the program tells of each failure.

use crate::asserts::assert_same_in;
use crate::stream::program::USAGE;
use aho_core::error::{BuildError, MatchError};
use aho_core::search::{MatchKind, PatternID};
use aho_devices::adapters::FromWrite;
use std::test::Fail;
use tool_parts::failure::Failure;
use tool_parts::run::report;

/// The longest line has room.
#[test]
fn tells_each_failure_in_a_line(rt: HostRuntime) -> Result<(), Fail> {
    let max = u64::MAX;
    let rows = [
        (Failure::Usage, 2, USAGE),
        (
            Failure::Build(BuildError::StateIDOverflow {
                max,
                requested: max,
            }),
            2,
            "state identifier overflow: failed to create state ID from 18446744073709551615, which exceeds the max of \
             18446744073709551615\n",
        ),
        (
            Failure::Build(BuildError::PatternIDOverflow {
                max,
                requested: max,
            }),
            2,
            "pattern identifier overflow: failed to create pattern ID from 18446744073709551615, which exceeds the max of \
             18446744073709551615\n",
        ),
        (
            Failure::Build(BuildError::PatternTooLong {
                pattern: PatternID::new(7)?,
                len: usize::MAX,
                max: usize::MAX,
            }),
            2,
            "pattern 7 with length 18446744073709551615 exceeds the maximum pattern length of 18446744073709551615\n",
        ),
        (
            Failure::Build(BuildError::OutOfMemory),
            2,
            "out of memory\n",
        ),
        (
            Failure::Search(MatchError::unsupported_overlapping(MatchKind::LeftmostLongest)),
            2,
            "match kind LeftmostLongest does not support overlapping searches\n",
        ),
        (Failure::OutOfMemory, 2, "out of memory\n"),
        (Failure::PositionLimit, 2, "position limit reached\n"),
        (Failure::Read, 3, "read fault\n"),
        (Failure::Write, 3, "write fault\n"),
        (Failure::WriteZero, 3, "write took no bytes\n"),
    ];
    for (failure, status, told) in &rows {
        let mut errors = Vec::new(rt.alloc());
        let found = report(failure, &mut FromWrite::new(&mut errors));
        assert_same_in(&rt, told, found, *status);
        assert_same_in(&rt, told, errors.as_slice(), told.as_bytes());
    }
    Ok(())
}
