//! What is done with the lines of a stream.

ghost use Rattle.std.specs.Prelude.{List, IfErr, OnOk};
ghost use Rattle.aho_core.specs.Occurrence.{Occurrence};
ghost use Rattle.aho_core.specs.declared.error.stream.StreamError.{StreamError};
ghost use Rattle.secret_rules.specs.Lines.{Line, line_with};
ghost use Rattle.secret_rules.specs.Visitors.{CanBeVisited, IsVisitRefusal};

use aho_core::error::StreamError;
use aho_core::search::Match;

/// What is done with each line of a stream, one after another.
pub trait LineVisitor {
    /// A line with these runs was taken, from what was so before to what is after.
    ghost visits: { Self → Self → Line → List Occurrence → Type 0 };

    /// The same where it failed at the line, with this error.
    ghost stops: { Self → Self → Line → List Occurrence → StreamError → Type 0 };

    /// Takes a line: its bytes without its end, its end, which is a line end, or nothing at the end of the stream, and the runs of what is
    /// covered in it, in order.
    ///
    /// A line that is too long comes without its bytes, with one run from 0 up to how many they are.
    ///
    /// # Errors
    ///
    /// A device to which it writes failed, or memory ran out.
    fn visit(&mut self, line: &[u8], end: &[u8], runs: &[Match]) -> Result<(), StreamError>
        requires lie { CanBeVisited line.now runs.now }
        ensures visits { OnOk result
            (visits self.old self.new (line_with line.now end.now) runs.now) }
        ensures stops { IfErr result
            (stops self.old self.new (line_with line.now end.now) runs.now) }
        ensures only { IfErr result IsVisitRefusal };
}
