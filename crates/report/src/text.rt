// A text as it stands at the front of a fixed buffer.
ghost use Rattle.std.specs.Prelude.{◌≡◌, []};

use std::marker::Model;

// The longest text: a first line of 16 bytes, and 33 for each of 64 fields.
const LONGEST: usize = 16 + 64 * 33;

/// A text of at most as many bytes as the runner prints at most.
#[derive(Drop)]
pub struct Text {
    pub(crate) bytes: [u8; LONGEST],
    pub(crate) len: usize,
}

impl Model for Text {
    ghost use Rattle.std.specs.Prelude.{ℕ, List, take, ◌≤◌};
    ghost use Rattle.report.specs.Report.{longest};

    ghost Value = { List ℕ };

    ghost view = { λ text. take text.len text.bytes };

    ghost invariant = { λ text. text.len ≤ longest };
}

impl Text {
    pub fn new() -> Text
        ensures { result ≡ [] }
    {
        Text {
            bytes: [0; LONGEST],
            len: 0,
        }
    }

    pub fn as_slice(&self) -> &[u8]
        ensures { result.now ≡ self.now }
    {
        &self.bytes[..self.len]
    }
}
