//! Numbers as they are typed.
ghost use Rattle.std.specs.Prelude.{◌≡◌};
ghost use Rattle.ccr_command.specs.Numbers.{in_range, number_of, place_of, seconds_of};

/// The highest number that is taken: of rounds, and as a budget.
const MOST: u32 = 1_000_000;
/// The highest place of a version that is taken.
const MOST_PLACE: u32 = 100_000;
/// The most seconds that are taken: those of a day.
const MOST_SECONDS: u32 = 86_400;

/// The number, where it is one from 1 to the highest.
fn in_range(number: u32) -> Option<u32>
    ensures { result ≡ in_range number }
{
    if 1 <= number && number <= MOST {
        Some(number)
    } else {
        None
    }
}

/// The number that a text writes; None where it is no number from 1 to 1,000,000.
pub(crate) fn number_of(text: &str) -> Option<u32>
    ensures { result ≡ number_of text.now }
{
    match text.parse::<u32>() {
        Ok(number) => in_range(number),
        Err(_) => None,
    }
}

/// The place of a version that a text writes; None where it is no number from 1 to 100,000.
pub(crate) fn place_of(text: &str) -> Option<u32>
    ensures { result ≡ place_of text.now }
{
    let place = number_of(text)?;
    if place <= MOST_PLACE {
        Some(place)
    } else {
        None
    }
}

/// The seconds that a text writes; None where they are no number from 1 to 86,400.
pub(crate) fn seconds_of(text: &str) -> Option<u32>
    ensures { result ≡ seconds_of text.now }
{
    let seconds = number_of(text)?;
    if seconds <= MOST_SECONDS {
        Some(seconds)
    } else {
        None
    }
}
