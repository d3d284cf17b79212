//! Where lines go.
ghost use Rattle.std.specs.Prelude.{◌≡◌, ◌+◌, ◌-◌, ◌≤◌, ◌++◌, ℕ, List, [], length, OnOk, string_bytes, vec_len, vec_capacity};
ghost use Rattle.ccr_history.specs.Text.{Text};
ghost use Rattle.ccr_lines.specs.Noted.{IsNoted};

use std::alloc::AllocError;

/// Where lines go. Contracts see all that was written since it was made, what of that waits to be shown, unless showing it
/// failed, for how many bytes there is room, and what was told beside it, on standard error.
pub trait Lines {
    ghost written: { Self → List ℕ };

    ghost waiting: { Self → List ℕ };

    ghost room: { Self → ℕ };

    ghost notes: { Self → List Text };

    /// Makes room for so many bytes. The only error is out of memory; what was written stays.
    fn make_room(&mut self, bytes: usize) -> Result<(), AllocError>
        ensures same { written self.new ≡ written self.old }
        ensures waiting { waiting self.new ≡ waiting self.old }
        ensures notes { notes self.new ≡ notes self.old }
        ensures room { OnOk result (bytes ≤ room self.new) };

    /// Writes bytes for which there is room. No memory is taken.
    fn add(&mut self, bytes: &[u8])
        requires { length bytes.now ≤ room self.old }
        ensures added { written self.new ≡ written self.old ++ bytes.now }
        ensures notes { notes self.new ≡ notes self.old }
        ensures left { room self.old ≤ room self.new + length bytes.now };

    /// Shows what was written so far to whoever waits for it.
    fn hand_out(&mut self)
        ensures same { written self.new ≡ written self.old }
        ensures notes { notes self.new ≡ notes self.old }
        ensures shown { waiting self.new ≡ [] };

    /// Tells one line, given without its line feed, beside what is written. A failure changes nothing; out of memory
    /// nothing may be told.
    fn note(&mut self, line: String)
        ensures noted { IsNoted (string_bytes line) (notes self.old) (notes self.new) }
        ensures same { written self.new ≡ written self.old }
        ensures waiting { waiting self.new ≡ waiting self.old }
        ensures room { room self.new ≡ room self.old };
}

/// A vector keeps what is written. It shows it to nobody, so nothing waits for that, and it tells nothing beside it.
impl Lines for Vec<u8> {
    ghost written = { λ v. v.items };

    ghost waiting = { λ _. [] };

    ghost room = { λ v. vec_capacity v - vec_len v };

    ghost notes = { λ _. [] };

    fn make_room(&mut self, bytes: usize) -> Result<(), AllocError> {
        self.reserve(bytes)
    }

    fn add(&mut self, bytes: &[u8]) {
        self.extend_from_slice(bytes).unwrap();
    }

    fn hand_out(&mut self) {}

    fn note(&mut self, _line: String) {}
}
