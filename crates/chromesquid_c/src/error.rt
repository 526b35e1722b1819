//! Why a build fails: by numbers, and as a text.

ghost use Rattle.std.specs.Prelude.{◌≡◌, ◌≢◌, ◌<◌, length, None};
ghost use Rattle.chromesquid.specs.Rules.{Accepts};
ghost use Rattle.chromesquid_c.specs.Building.{ForOptions, IsBuiltBy, building_by};
ghost use Rattle.chromesquid_c.specs.Failing.{FailsTelling, error_text, error_told, option_error, error_option_name, error_of_options};
ghost use Rattle.chromesquid_c.specs.Replacing.{EndsReplacing, FitsInto};

use crate::build::{
    build_status, builder_of, handle_for, later_option, match_kind_of, start_kind_of,
};
use crate::handle::CsSearcher;
use crate::options::{CsError, CsOptions, OPTIONS_SIZE};
use crate::replace::put_bytes;
use crate::status::{
    AUTOMATON, DONE, LATER, MATCH_KIND, NO_MEMORY, NO_OPTION, NO_ROOM, SIZE, START_KIND, TOO_LONG,
    TOO_MANY_PATTERNS, TOO_MANY_STATES,
};
use chromesquid::BuildError;
use std::alloc::Global;
use std::fmt;

/// The error of an option whose number means nothing.
fn option_error(option: u32, number: u64) -> CsError
    ensures told { result ≡ option_error option number }
{
    CsError {
        status: NO_OPTION,
        option,
        pattern: 0,
        requested: number,
        max: 0,
    }
}

/// The error of the first option whose number means nothing, where there is one.
fn error_of_options(options: &CsOptions) -> CsError
    ensures told { result ≡ error_of_options options.now }
{
    if options.size != OPTIONS_SIZE {
        return option_error(SIZE, options.size as u64);
    }
    let later = later_option(options);
    if later != 0 {
        return option_error(LATER, later);
    }
    let Some(_) = match_kind_of(options.match_kind) else {
        return option_error(MATCH_KIND, options.match_kind as u64);
    };
    let Some(_) = start_kind_of(options.start_kind) else {
        return option_error(START_KIND, options.start_kind as u64);
    };
    option_error(AUTOMATON, options.automaton as u64)
}

/// What is told of a build's error.
fn error_told(error: &BuildError) -> CsError
    ensures told { result ≡ error_told error.now }
{
    let mut told = CsError {
        status: build_status(error),
        option: 0,
        pattern: 0,
        requested: 0,
        max: 0,
    };
    match error {
        BuildError::OutOfMemory => {}
        BuildError::StateIDOverflow { max, requested } => {
            told.requested = *requested;
            told.max = *max;
        }
        BuildError::PatternIDOverflow { max, requested } => {
            told.pattern = *requested as usize;
            told.requested = *requested;
            told.max = *max;
        }
        BuildError::PatternTooLong { pattern, len, max } => {
            told.pattern = pattern.as_usize();
            told.requested = *len as u64;
            told.max = *max as u64;
        }
    }
    told
}

/// Puts a new searcher for the patterns into `out`, as `cs_build` does, and answers 0; or puts into `error` why there is none.
///
/// # Errors
///
/// As those of `cs_build`: `out` is then as it was. `error` is as it was where 0 is answered.
#[unsafe(no_mangle)]
pub extern "C" fn cs_try_build(
    alloc: Global,
    patterns: &[&[u8]],
    options: &CsOptions,
    out: &mut CsSearcher,
    error: &mut CsError,
) -> u32
    ensures no_option { building_by options.now ≡ None → result ≡ NO_OPTION }
    ensures named { building_by options.now ≡ None → error.new ≡ error_of_options options.now }
    ensures built { ForOptions options.now (λ b. result ≡ DONE → IsBuiltBy b patterns.now out.new) }
    ensures accepted { ForOptions options.now (λ b. result ≡ DONE → Accepts b.settings patterns.now) }
    ensures refused { ForOptions options.now (λ b.
        result ≢ DONE → FailsTelling b.settings patterns.now result error.new) }
    ensures kept { result ≢ DONE → out.new ≡ out.old }
    ensures untold { result ≡ DONE → error.new ≡ error.old }
{
    let Some(builder) = builder_of(options) else {
        *error = error_of_options(options);
        return NO_OPTION;
    };
    match handle_for(alloc, &builder, patterns) {
        Ok(handle) => {
            *out = handle;
            DONE
        }
        Err(why) => {
            *error = error_told(&why);
            build_status(&why)
        }
    }
}

/// What an option is called.
fn error_option_name(option: u32) -> &'static str
    ensures name { result.now ≡ error_option_name option }
{
    if option == MATCH_KIND {
        "match kind"
    } else if option == START_KIND {
        "start kind"
    } else if option == SIZE {
        "size"
    } else if option == LATER {
        "later option"
    } else {
        "automaton"
    }
}

/// Writes what a build's error writes, or which option's number means nothing, with no line end; nothing of another status.
impl fmt::Display for CsError {
    ghost use Rattle.std.specs.Prelude.{Some};
    ghost use Rattle.chromesquid_c.specs.Failing.{error_text};

    ghost output = { λ error. Some (error_text error) };

    fn fmt<W: fmt::Write>(&self, f: &mut fmt::Formatter<W>) -> fmt::Result {
        let (pattern, requested, max) = (self.pattern, self.requested, self.max);
        if self.status == NO_MEMORY {
            f.write_str("out of memory")
        } else if self.status == NO_OPTION {
            write!(
                f,
                "{} {requested} means nothing",
                error_option_name(self.option)
            )
        } else if self.status == TOO_MANY_STATES {
            write!(
                f,
                "state identifier overflow: failed to create state ID from {requested}, which exceeds the max of {max}",
            )
        } else if self.status == TOO_MANY_PATTERNS {
            write!(
                f,
                "pattern identifier overflow: failed to create pattern ID from {requested}, which exceeds the max of {max}",
            )
        } else if self.status == TOO_LONG {
            write!(
                f,
                "pattern {pattern} with length {requested} exceeds the maximum pattern length of {max}",
            )
        } else {
            f.write_str("")
        }
    }
}

/// Puts the text of an error into `room`, and in `len` how many bytes it has, and answers 0: the one of the build's error, in UTF-8,
/// without an end of a line and without a zero. Of what is no build's error the text is empty. Where the room is too small it answers
/// 11: `len` is how many bytes are wanted, and nothing is written. The text is made in memory of its own
/// first, but for that of an error which says that memory ran out.
///
/// # Errors
///
/// 5 where memory runs out. `room` is as it was unless 0 is answered, `len` unless 0 or 11 is.
#[unsafe(no_mangle)]
pub extern "C" fn cs_error_text(
    alloc: Global,
    error: &CsError,
    room: &mut [u8],
    len: &mut usize,
) -> u32
    ensures text { result ≡ DONE → FitsInto (error_text error.now) room.old room.new }
    ensures wanted { result ≡ NO_ROOM → length room.old < length (error_text error.now) }
    ensures measured { result ≢ NO_MEMORY → len.new ≡ length (error_text error.now) }
    ensures kept { result ≢ DONE → room.new ≡ room.old }
    ensures unmeasured { result ≡ NO_MEMORY → len.new ≡ len.old }
    ensures answered { EndsReplacing result }
    ensures of_memory { error.now.status ≡ NO_MEMORY → result ≢ NO_MEMORY }
{
    if error.status == NO_MEMORY {
        return put_bytes(b"out of memory", room, len);
    }
    match error.to_string(alloc) {
        Ok(text) => put_bytes(text.as_bytes(), room, len),
        Err(_) => NO_MEMORY,
    }
}
