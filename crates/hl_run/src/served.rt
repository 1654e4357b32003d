//! The lines that the program serves.

ghost use Rattle.std.specs.Prelude.{◌≡◌};
ghost use Rattle.hl_run.specs.Served.{is_served};

use hl_script::Line;

/// Whether the program serves the line. A line of another kind is a bad line.
pub fn is_served(line: &Line) -> bool
    ensures { result ≡ is_served line.now }
{
    matches!(line, Line::File(_))
}
