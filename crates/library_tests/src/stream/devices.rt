//! What the buffer and `write_whole` do with devices that cut, end and fail.

ghost use Rattle.std.specs.Prelude.{◌≤◌};
ghost use Rattle.aho_core.specs.Numbers.{greatest_index};

use crate::asserts::assert_same;
use crate::stream::scripted::{ScriptedSink, ScriptedSource, Turn};
use aho_core::error::{Fault, StreamError};
use aho_devices::adapters::{FromRead, FromWrite};
use aho_devices::buffer::{Buffer, Filled};
use aho_devices::device::Source;
use aho_devices::write::write_whole;
use std::alloc::{AllocError, Global};
use std::process::Abort;
use std::test::Fail;

fn fill<R: Source>(
    rt: &impl Abort,
    buffer: &mut Buffer,
    source: &mut R,
    room: u64,
) -> Result<Filled, StreamError> {
    assert!(rt; !buffer.is_full());
    buffer.fill(source, room)
}

#[test]
fn a_fill_reads_until_there_is_enough(rt: HostRuntime) -> Result<(), Fail> {
    let turns = [Turn::Move(1), Turn::Move(2), Turn::Move(3)];
    let mut source = ScriptedSource::new(b"abcdefghij", &turns);
    let mut buffer = Buffer::new(rt.alloc(), 5)?;
    let filled = fill(&rt, &mut buffer, &mut source, 100)?;
    assert_same(
        &rt,
        filled,
        Filled {
            read: 6,
            ended: false,
        },
    );
    assert_same(&rt, buffer.buffer(), b"abcdef".as_slice());
    assert_same(&rt, source.reads(), 3);
    assert_same(&rt, source.rest(), b"ghij".as_slice());
    Ok(())
}

#[test]
fn a_fill_keeps_what_came_before_a_fault_and_comes_back(rt: HostRuntime) -> Result<(), Fail> {
    let turns = [Turn::Move(2), Turn::Fail, Turn::Move(1), Turn::Move(0)];
    let mut source = ScriptedSource::new(b"abcdef", &turns);
    let mut buffer = Buffer::new(rt.alloc(), 4)?;
    let failed = fill(&rt, &mut buffer, &mut source, 100);
    assert_same(&rt, failed, Err(StreamError::Read(Fault)));
    assert_same(&rt, buffer.buffer(), b"ab".as_slice());
    let ended = fill(&rt, &mut buffer, &mut source, 100)?;
    assert_same(
        &rt,
        ended,
        Filled {
            read: 1,
            ended: true,
        },
    );
    assert_same(&rt, buffer.buffer(), b"abc".as_slice());
    let more = fill(&rt, &mut buffer, &mut source, 100)?;
    assert_same(
        &rt,
        more,
        Filled {
            read: 3,
            ended: false,
        },
    );
    assert_same(&rt, buffer.buffer(), b"abcdef".as_slice());
    assert_same(&rt, source.reads(), 5);
    Ok(())
}

#[test]
fn a_fill_stops_at_the_limit(rt: HostRuntime) -> Result<(), Fail> {
    let mut source = ScriptedSource::new(b"abcdef", &[]);
    let mut buffer = Buffer::new(rt.alloc(), 4)?;
    let none = fill(&rt, &mut buffer, &mut source, 0);
    assert_same(&rt, none, Err(StreamError::PositionLimit));
    assert_same(&rt, source.reads(), 0);
    let two = fill(&rt, &mut buffer, &mut source, 2)?;
    assert_same(
        &rt,
        two,
        Filled {
            read: 2,
            ended: false,
        },
    );
    assert_same(&rt, buffer.buffer(), b"ab".as_slice());
    assert_same(&rt, source.rest(), b"cdef".as_slice());
    Ok(())
}

#[test]
fn a_roll_keeps_the_last_bytes(rt: HostRuntime) -> Result<(), Fail> {
    let mut source = ScriptedSource::new(b"abcdef", &[]);
    let mut buffer = Buffer::new(rt.alloc(), 2)?;
    fill(&rt, &mut buffer, &mut source, 100)?;
    assert!(rt; buffer.min_buffer_len() <= buffer.buffer().len());
    buffer.roll();
    assert_same(&rt, buffer.buffer(), b"ef".as_slice());
    Ok(())
}

// More bytes than any buffer of these tests holds.
fn many_bytes(alloc: Global) -> Result<Vec<u8>, AllocError> {
    vec![in alloc; 7; 100_000]
}

// How many bytes one fill of an empty buffer reads, where the source gives all that is asked for.
fn read_at_once(rt: &impl Abort, alloc: Global, min_buffer_len: usize) -> Result<u64, Fail>
    requires small { min_buffer_len ≤ greatest_index }
{
    let bytes = many_bytes(alloc)?;
    let mut source = ScriptedSource::new(bytes.as_slice(), &[]);
    let mut buffer = Buffer::new(alloc, min_buffer_len)?;
    let filled = fill(rt, &mut buffer, &mut source, 100_000)?;
    assert!(rt; buffer.is_full());
    Ok(filled.read)
}

#[test]
fn a_buffer_has_its_length(rt: HostRuntime) -> Result<(), Fail> {
    assert_same(&rt, read_at_once(&rt, rt.alloc(), 0)?, 65_536);
    assert_same(&rt, read_at_once(&rt, rt.alloc(), 8_192)?, 65_536);
    assert_same(&rt, read_at_once(&rt, rt.alloc(), 8_193)?, 65_544);
    assert_same(&rt, read_at_once(&rt, rt.alloc(), 10_000)?, 80_000);
    Ok(())
}

#[test]
fn a_whole_piece_is_written(rt: HostRuntime) -> Result<(), Fail> {
    let mut sink = ScriptedSink::new(rt.alloc(), &[Turn::Move(1), Turn::Move(2)]);
    write_whole(&mut sink, b"abcdef")?;
    assert_same(&rt, sink.taken(), b"abcdef".as_slice());
    assert_same(&rt, sink.writes(), 3);
    write_whole(&mut sink, b"")?;
    assert_same(&rt, sink.writes(), 3);
    Ok(())
}

#[test]
fn a_beginning_is_written_before_a_fault(rt: HostRuntime) -> Result<(), Fail> {
    let cases = [
        (Turn::Fail, StreamError::Write(Fault)),
        (Turn::Move(0), StreamError::WriteZero),
    ];
    for (turn, want) in cases {
        let turns = [Turn::Move(2), turn];
        let mut sink = ScriptedSink::new(rt.alloc(), &turns);
        assert_same(&rt, write_whole(&mut sink, b"abcdef".as_slice()), Err(want));
        assert_same(&rt, sink.taken(), b"ab".as_slice());
        assert_same(&rt, sink.writes(), 2);
    }
    Ok(())
}

#[test]
fn a_reader_and_a_writer_of_std_are_devices(rt: HostRuntime) -> Result<(), Fail> {
    let text: &[u8] = b"abcdef";
    let mut source = FromRead::new(text);
    let mut buffer = Buffer::new(rt.alloc(), 100)?;
    let filled = fill(&rt, &mut buffer, &mut source, 4)?;
    assert_same(
        &rt,
        filled,
        Filled {
            read: 4,
            ended: false,
        },
    );
    assert_same(&rt, source.into_inner(), b"ef".as_slice());
    let mut sink = FromWrite::new(Vec::new(rt.alloc()));
    write_whole(&mut sink, buffer.buffer())?;
    assert_same(&rt, sink.into_inner().as_slice(), b"abcd".as_slice());
    Ok(())
}
