//! Files that are replaced whole: a new one is written beside each, and takes its place at the end.

ghost use Rattle.std.specs.Prelude.{◌≡◌, ℕ, [], IfOk, IfSome, List, MatchResult, Option};
ghost use Rattle.tool_parts.specs.declared.reason.Reason.{Reason};

use chromesquid::FromWrite;
use std::io::Write;
use tool_parts::reason::Reason;

/// What makes new files, and has them take the places of others.
pub trait Outputs {
    /// A new file.
    type File: Write + Drop;

    /// A new file was made, to take the place of the one of this name, and holds these bytes, where it tells them: from what was
    /// so before to what is after.
    ghost makes: { Self → Self → List ℕ → Option (List ℕ) → Type 0 };

    /// None was made, for this reason.
    ghost makes_none: { Self → Self → List ℕ → Reason → Type 0 };

    /// The new file took the place of the one of this name, with these bytes.
    ghost puts: { Self → Self → List ℕ → Option (List ℕ) → Type 0 };

    /// It did not, for this reason.
    ghost puts_none: { Self → Self → List ℕ → Reason → Type 0 };

    /// The new file was removed that was to take the place of the one of this name.
    ghost removes: { Self → Self → List ℕ → Type 0 };

    /// A writer to no file, which takes nothing.
    fn idle(&self) -> Self::File;

    /// Makes a new file, which is to take the place of the one of this name, whether there is one or not.
    fn make(&mut self, name: &str) -> Result<Self::File, Reason>
        ensures made { MatchResult result
            (λ file. makes self.old self.new name.now (Self.File.contents file))
            (λ reason. makes_none self.old self.new name.now reason) }
        ensures empty { IfOk result (λ file.
            IfSome (Self.File.contents file) (λ held. held ≡ [])) };

    /// Has the new file take the place of the one of this name.
    fn put(&mut self, name: &str, file: &FromWrite<Self::File>) -> Result<(), Reason>
        ensures put { MatchResult result
            (λ _. puts self.old self.new name.now (Self.File.contents file.now.device.writer))
            (λ reason. puts_none self.old self.new name.now reason) };

    /// Why the new file could not be written, or another file last.
    fn unwritten(&self) -> Reason;

    /// Removes the new file that was to take the place of the one of this name.
    fn remove(&mut self, name: &str)
        ensures removed { removes self.old self.new name.now };
}
