//! The arguments and the status that a process ends with. Each message names its case.

use super::*;
use std::alloc::Alloc;
use std::env::{Env, FillError};
use std::test::Fail;

/// The arguments of a call, the program's name first.
#[derive(Drop)]
struct Call<'c, 'w> {
    alloc: Global,
    arguments: &'c [&'w [u8]],
}

impl Alloc for Call<'_, '_> {
    type A = Global;

    fn alloc(&self) -> Global {
        self.alloc
    }
}

impl Env for Call<'_, '_> {
    fn arg(&self, i: usize, buf: &mut [u8]) -> Result<usize, FillError> {
        if i >= self.arguments.len() {
            return Err(FillError::NotPresent);
        }
        let argument = self.arguments[i];
        if buf.len() < argument.len() {
            return Err(FillError::TooLong);
        }
        buf[..argument.len()].copy_from_slice(argument);
        Ok(argument.len())
    }

    fn var(&self, _name: &str, _buf: &mut [u8]) -> Result<usize, FillError> {
        Err(FillError::NotPresent)
    }

    fn var_at(&self, _i: usize, _buf: &mut [u8]) -> Result<usize, FillError> {
        Err(FillError::NotPresent)
    }
}

#[test]
fn ends_with_the_status_of_the_arguments(rt: HostRuntime) -> Result<(), Fail> {
    let usage = "usage: acfind find KIND [-i] PATTERN.. | overlap PATTERN.. | replace P R ..\n";
    let rows: [(&[&[u8]], u8, &str, &str); 7] = [
        (
            &[b"acfind", b"find", b"first", b"a", b"b"],
            0,
            "1 0 1\n",
            "",
        ),
        (
            &[b"acfind", b"find", b"first", b"b", b"a"],
            0,
            "0 0 1\n",
            "",
        ),
        (&[b"acfind", b"find", b"first", b"a"], 1, "", ""),
        (&[b"acfind", b"find", b"first", b"b", b"\xff"], 2, "", usage),
        (&[b"acfind", b"first", b"find", b"b"], 2, "", usage),
        (&[b"acfind"], 2, "", usage),
        (&[], 2, "", usage),
    ];
    for (given, status, printed, told) in rows {
        let call = Call {
            alloc: rt.alloc(),
            arguments: given,
        };
        let mut input: &[u8] = b"b";
        let mut output = Vec::new(rt.alloc());
        let mut errors = Vec::new(rt.alloc());
        let code = exit_code(
            rt.alloc(),
            arguments(&call),
            &mut FromRead::new(&mut input),
            &mut FromWrite::new(&mut output),
            &mut FromWrite::new(&mut errors),
        );
        assert_eq!(rt; code, ExitCode::from(status), "{given:?}");
        assert_eq!(rt; output.as_slice(), printed.as_bytes(), "{given:?}");
        assert_eq!(rt; errors.as_slice(), told.as_bytes(), "{given:?}");
    }
    Ok(())
}
