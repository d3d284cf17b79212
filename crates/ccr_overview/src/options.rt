//! What a page is asked for with.

/// What a page has that no core holds.
#[derive(Drop)]
pub struct Options {
    /// The heading.
    pub title: String,
    /// When it is made, in words. Without it the page says nothing of that.
    pub made: Option<String>,
    /// What runs right now, in words, as `unit 12: task test, for 40 s`. Where there are several, `; ` is between them.
    pub now: Option<String>,
    /// After how many seconds it's to be read again.
    pub refresh: Option<u32>,
    /// Where the logs are, as the reader of the page sees it.
    pub logs: Option<String>,
}
