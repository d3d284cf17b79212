//! What `explain` says of demands that exclude each other.
ghost use Rattle.std.specs.Prelude.{◌≡◌, option_map};
ghost use Rattle.ccr_overview.specs.Clashes.{behind_clash};

/// The demands that words name as excluding each other, if they name some.
pub(crate) fn behind_clash(words: &str) -> Option<&str>
    ensures { option_map (λ d. d.now) result ≡ behind_clash words.now }
{
    words.strip_prefix("clash: ")
}
