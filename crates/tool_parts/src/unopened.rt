//! Standard streams that are closed when a program starts.

use crate::reason::Reason;
use std::fs::OpenOptions;
use std::os::fd::{AsFd, IntoRawFd};
use std::rt::Files;

/// The device that stands in the place of a closed stream.
pub const DEVICE: &str = "/dev/null";

/// Opens the null device in the place of each standard stream that is closed, and leaves it open. Else the first file that the
/// program opens would take the number of the stream, and be read or written in its place.
///
/// It is opened the other way round, to be written as standard input and to be read as one of the others. So a stream that is not
/// used does no harm, and a use of it fails, as that of a closed one does.
///
/// # Errors
///
/// Why the device cannot be opened, where a stream is closed. The program may open no file then.
pub fn fill_closed<D: IntoRawFd + Drop, R: Files<File = D>, I: AsFd, O: AsFd, E: AsFd>(
    rt: &R,
    input: &I,
    output: &O,
    errors: &E,
) -> Result<(), Reason> {
    if is_closed(input) {
        open_device(rt, OpenOptions::new().write(true))?;
    }
    if is_closed(output) {
        open_device(rt, OpenOptions::new().read(true))?;
    }
    if is_closed(errors) {
        open_device(rt, OpenOptions::new().read(true))?;
    }
    Ok(())
}

/// Whether a stream is closed: it cannot be duplicated then.
fn is_closed<S: AsFd>(stream: &S) -> bool {
    stream.as_fd().try_clone_to_owned().is_err()
}

/// Opens the device, which gets the lowest number that is free, for as long as the process lives.
fn open_device<D: IntoRawFd + Drop, R: Files<File = D>>(
    rt: &R,
    options: &OpenOptions,
) -> Result<(), Reason> {
    match options.open(rt, DEVICE) {
        Ok(device) => {
            let _number = device.into_raw_fd();
            Ok(())
        }
        Err(error) => Err(Reason::of(&error)),
    }
}
