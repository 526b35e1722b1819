//! What an argument is that stands where an option may.

ghost use Rattle.std.specs.Prelude.{◌≡◌};
ghost use Rattle.std.specs.List.{position_or_len};
ghost use Rattle.tool_parts.specs.ArgumentForms.{argument_form, form_of, is_equals, long_form, short_form};

/// What stands before a long name, and alone ends the options.
const HYPHENS: &[u8] = b"--";

/// What an argument is that stands where an option may.
#[derive(Clone, Copy)]
pub enum Argument<T> {
    /// Two hyphens: no option follows.
    End,
    /// This long name.
    Name(T),
    /// This long name, and this value behind the first equals sign.
    Joined(T, T),
    /// These joined letters: one or more.
    Letters(T),
    /// No option.
    Plain,
}

/// What an argument of any bytes is.
#[tactic(auto, unfolding(crate::specs::ArgumentForms::argument_form))]
pub fn argument_of(argument: &[u8]) -> Argument<&[u8]>
    ensures form { form_of result ≡ argument_form argument.now }
{
    if argument == HYPHENS {
        return Argument::End;
    }
    match argument.strip_prefix(HYPHENS) {
        Some(long) => long_of(long),
        None => short_of(argument),
    }
}

/// What stands behind two hyphens: a long name, which a value may follow behind an equals sign.
fn long_of(text: &[u8]) -> Argument<&[u8]>
    ensures form { form_of result ≡ long_form text.now }
{
    let end = first_equals(text);
    if end < text.len() {
        return Argument::Joined(&text[..end], &text[end + 1..]);
    }
    Argument::Name(text)
}

/// Where the first equals sign stands, or else the end.
pub fn first_equals(text: &[u8]) -> usize
    ensures place { result ≡ position_or_len is_equals text.now }
{
    let mut at = 0;
    while at < text.len() {
        if text[at] == b'=' {
            return at;
        }
        at += 1;
    }
    at
}

/// What an argument is that does not begin with two hyphens.
fn short_of(argument: &[u8]) -> Argument<&[u8]>
    ensures form { form_of result ≡ short_form argument.now }
{
    match argument {
        [b'-', _, ..] => Argument::Letters(&argument[1..]),
        _ => Argument::Plain,
    }
}

/// What an argument is that is text.
#[tactic(auto, unfolding(crate::specs::ArgumentForms::argument_form))]
pub fn text_argument_of(argument: &str) -> Argument<&str>
    ensures form { form_of result ≡ argument_form argument.now }
{
    if argument == "--" {
        return Argument::End;
    }
    match argument.strip_prefix("--") {
        Some(long) => long_text_of(long),
        None => short_text_of(argument),
    }
}

/// What stands behind two hyphens in a text.
fn long_text_of(text: &str) -> Argument<&str>
    ensures form { form_of result ≡ long_form text.now }
{
    match text.split_once('=') {
        Some((name, value)) => Argument::Joined(name, value),
        None => Argument::Name(text),
    }
}

/// What a text is that does not begin with two hyphens.
fn short_text_of(argument: &str) -> Argument<&str>
    ensures form { form_of result ≡ short_form argument.now }
{
    match argument.strip_prefix('-') {
        Some(letters) => {
            if letters.is_empty() {
                Argument::Plain
            } else {
                Argument::Letters(letters)
            }
        }
        None => Argument::Plain,
    }
}
