ghost use Rattle.std.specs.Prelude.{◌≡◌, ℕ, List, ◌++◌, string_bytes, OnOk};
ghost use Rattle.line_text.specs.Lines.{lines_by};

use std::alloc::AllocError;

/// An entry of a table that is told in a line of its own.
pub trait TextLine {
    ghost line: { ℕ → Self → List ℕ };

    /// Appends the line of the entry at a place.
    fn push_line(&self, place: usize, text: &mut String) -> Result<(), AllocError>
        ensures { OnOk result (string_bytes text.new ≡ string_bytes text.old ++ line place self.now) };
}

/// Appends a line for each entry of a table.
pub fn push_lines<L: TextLine>(text: &mut String, entries: &[L]) -> Result<(), AllocError>
    ensures { OnOk result (string_bytes text.new ≡ string_bytes text.old ++ lines_by L.line 0 entries.now) }
{
    for (place, entry) in entries.iter().enumerate() {
        entry.push_line(place, text)?;
    }
    Ok(())
}
