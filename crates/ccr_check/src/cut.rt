//! Where the problem's text ends.

ghost use Rattle.std.specs.Prelude.{◌≡◌};
ghost use Rattle.ccr_check.specs.Cut.{begins, IsCut};

#[tactic(auto, unfolding(crate::specs::Cut::begins))]
fn begins(bytes: &[u8]) -> bool
    ensures { result ≡ begins bytes.now }
{
    bytes.starts_with(b"proof") || bytes.starts_with(b"best") || bytes.starts_with(b"none")
}

/// How many bytes stand before the first line that begins with `proof`, `best` or `none`: all, where there is no such line.
pub(crate) fn cut_index(bytes: &[u8]) -> usize
    ensures { IsCut bytes.now result }
{
    let mut at_start = true;
    for (index, b) in bytes.iter().enumerate() {
        if at_start && begins(&bytes[index..]) {
            return index;
        }
        at_start = *b == b'\n';
    }
    bytes.len()
}
