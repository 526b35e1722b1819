//! What can be searched.

ghost use Rattle.std.specs.Prelude.{◌≡◌, string_bytes};
ghost use Rattle.aho_core.specs.Search.{Search, plain_search};

use aho_core::search::Input;

/// What can be searched: bytes or a text, the whole of it, or an `Input`.
pub trait Searchable<'h> {
    /// The search that is meant.
    ghost search: { Self → Search };

    /// The input that is searched.
    fn into_input(self) -> Input<'h>
        ensures same { result ≡ search self };
}

impl<'h> Searchable<'h> for &'h [u8] {
    ghost search = { λ haystack. plain_search haystack.now };

    fn into_input(self) -> Input<'h> {
        Input::new(self)
    }
}

impl<'h> Searchable<'h> for &'h str {
    ghost search = { λ haystack. plain_search haystack.now };

    fn into_input(self) -> Input<'h> {
        Input::new(self.as_bytes())
    }
}

impl<'h> Searchable<'h> for Input<'h> {
    ghost search = { λ input. input };

    fn into_input(self) -> Input<'h> {
        self
    }
}
