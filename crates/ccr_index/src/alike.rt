//! Prints of builds, by which builds that are alike are found.

ghost use Rattle.std.specs.Prelude.{◌≡◌, ◌≤◌, length, IsTrue};
ghost use Rattle.ccr_index.specs.Alike.{does_count, counting, print_of, HasFirst};

use ccr_choice::MOST_INPUTS;

/// For each scope whether its pairs count: whether an input of the scope names the job.
pub(crate) type Scopes = [bool; MOST_INPUTS as usize];

/// What is made of the pairs of a build that count.
#[derive(Clone, Copy)]
pub(crate) struct Print {
    /// A number that builds which differ seldom share.
    pub(crate) number: u32,
    /// How many they are.
    pub(crate) size: usize,
}

/// Whether pairs in this scope count.
pub(crate) fn does_count(scopes: &Scopes, scope: u32) -> bool
    ensures { result ≡ does_count scopes.now scope }
{
    scopes.get(scope as usize).copied().unwrap_or(false)
}

/// The print of a build with these pairs.
pub(crate) fn print_of(scopes: &Scopes, pairs: &[(u32, u32)]) -> Print
    ensures number { result.number ≡ print_of 0 (counting scopes.now pairs.now) }
    ensures size { result.size ≡ length (counting scopes.now pairs.now) }
    ensures few { result.size ≤ length pairs.now }
{
    let mut number: u64 = 0;
    let mut size = 0;
    for (scope, place) in pairs {
        if does_count(scopes, *scope) {
            number = (number * 1_000_003 + *scope as u64 * 100_001 + *place as u64) % 4_294_967_296;
            size += 1;
        }
    }
    Print {
        number: number as u32,
        size,
    }
}

/// Whether one of these pairs counts and no earlier row has it, of which 0 tells in the same place.
pub(crate) fn has_first(scopes: &Scopes, pairs: &[(u32, u32)], earlier: &[u32]) -> bool
    requires { length pairs.now ≤ length earlier.now }
    ensures { IsTrue result → HasFirst scopes.now pairs.now earlier.now }
{
    for k in 0..pairs.len() {
        if earlier[k] == 0 && does_count(scopes, pairs[k].0) {
            return true;
        }
    }
    false
}
