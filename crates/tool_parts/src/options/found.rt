//! What a long name means among the options of a program, or a beginning of one.

ghost use Rattle.std.specs.Prelude.{◌≡◌, ◌∷◌, []};
ghost use Rattle.tool_parts.specs.OptionNames.{begun_too, found_more, meant};

/// What a name means, as far as the options were looked at.
#[derive(Clone, Copy)]
pub enum Found<O> {
    /// No option's name begins so.
    Unknown,
    /// This one's does.
    Begun(O),
    /// Those of several do.
    Several,
    /// It is this one's name.
    Whole(O),
}

/// Why a name means no option.
#[derive(Clone, Copy)]
pub enum NotFound {
    /// No option's name begins so.
    UnknownName,
    /// Those of several do.
    Ambiguous,
}

impl<O: Copy> Found<O> {
    /// What it means with a further option, which has this name.
    #[tactic(auto, unfolding(crate::specs::OptionNames::found_more))]
    pub fn or(self, asked: &[u8], name: &[u8], option: O) -> Found<O>
        ensures found { result ≡ found_more asked.now self (name.now ∷ []) option }
    {
        if asked == name {
            Found::Whole(option)
        } else if name.starts_with(asked) {
            self.begun_too(option)
        } else {
            self
        }
    }

    /// What it means with a further option, which has two names. A beginning of both begins one option alone.
    #[tactic(auto, unfolding(crate::specs::OptionNames::found_more))]
    pub fn or_either(self, asked: &[u8], one: &[u8], other: &[u8], option: O) -> Found<O>
        ensures found { result ≡ found_more asked.now self (one.now ∷ other.now ∷ []) option }
    {
        if asked == one || asked == other {
            Found::Whole(option)
        } else if one.starts_with(asked) || other.starts_with(asked) {
            self.begun_too(option)
        } else {
            self
        }
    }

    /// What it means where a name of a further option begins so too.
    fn begun_too(self, option: O) -> Found<O>
        ensures found { result ≡ begun_too self option }
    {
        match self {
            Found::Unknown => Found::Begun(option),
            Found::Begun(_) => Found::Several,
            Found::Several | Found::Whole(_) => self,
        }
    }

    /// The option that is meant, or why none is.
    pub fn option(self) -> Result<O, NotFound>
        ensures meant { result ≡ meant self }
    {
        match self {
            Found::Whole(option) | Found::Begun(option) => Ok(option),
            Found::Several => Err(NotFound::Ambiguous),
            Found::Unknown => Err(NotFound::UnknownName),
        }
    }
}
