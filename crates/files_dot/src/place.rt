//! Places in a text.
ghost use Rattle.std.specs.Prelude.{◌≡◌, ◌+◌, ◌<◌, ◌≤◌, length};
ghost use Rattle.files_text.specs.Faults.{IsLine};
ghost use Rattle.files_dot.specs.Places.{behind, place_after};

use files_text::Fault;

/// A place in a text: its line and its column, counted from 1. A column is a byte of its line.
#[derive(Clone, Copy)]
pub struct Place {
    pub line: usize,
    pub column: usize,
}

impl Place {
    /// Returns the place after a byte that is here.
    pub fn after(self, byte: u8) -> Place
        requires line { self.line < usize.MAX }
        requires column { self.column < usize.MAX }
        ensures { result ≡ place_after self byte }
    {
        if byte == b'\n' {
            return Place {
                line: self.line + 1,
                column: 1,
            };
        }
        Place {
            line: self.line,
            column: self.column + 1,
        }
    }

    /// Returns the fault of what is here in the place of something else.
    pub fn unexpected(self, expected: &'static str) -> Fault
        ensures { IsLine result self.line self.column expected.now }
    {
        Fault::Line {
            line: self.line,
            column: self.column,
            expected,
        }
    }
}

/// Returns the place after bytes that begin at a place.
pub fn behind(place: Place, bytes: &[u8]) -> Place
    requires lines { place.line + length bytes.now ≤ usize.MAX }
    requires columns { place.column + length bytes.now ≤ usize.MAX }
    ensures place { result ≡ behind place bytes.now }
    ensures lines { result.line ≤ place.line + length bytes.now }
    ensures columns { result.column ≤ place.column + length bytes.now }
{
    let mut at = place;
    'bytes: for byte in bytes {
        at = at.after(*byte);
    }
    at
}
