//! Outlines: lines, one after another.

ghost use Rattle.std.specs.Prelude.{◌≡◌, ◌≤◌, IfSome, List, length, vec_capacity};
ghost use Rattle.std.specs.List.{All};
ghost use Rattle.span_fill.specs.Lines.{GivesFirst, HasNearEnds};
ghost use Rattle.span_fill.specs.declared.line.Line.{Line as TheLine};

use crate::line::Line;

/// The lines of a drawing, which are returned in order, each once. The number of a line is its position in that order,
/// from 0.
pub trait Outline {
    /// The remaining lines.
    ghost lines: { Self → List TheLine };

    /// The number of remaining lines.
    fn count(&self) -> usize
        ensures { result ≡ length (lines self.now) };

    /// The next line, or `None` after the last one.
    fn next_line(&mut self) -> Option<Line>
        ensures line { GivesFirst (lines self.old) result (lines self.new) }
        ensures near { IfSome result HasNearEnds };
}

/// Replaces the lines by those of the outline.
pub(crate) fn copy_lines<O: Outline>(outline: &mut O, lines: &mut Vec<Line>)
    requires { length (O.lines outline.old) ≤ vec_capacity lines.old }
    ensures lines { lines.new.items ≡ O.lines outline.old }
    ensures near { All HasNearEnds lines.new.items }
    ensures capacity { vec_capacity lines.new ≡ vec_capacity lines.old }
{
    lines.clear();
    while let Some(line) = outline.next_line() {
        lines.push_reserved(line);
    }
}
