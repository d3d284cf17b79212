//! What to do about a line, told once.
ghost use Rattle.std.specs.Prelude.{◌≡◌, [], option_map};
ghost use Rattle.ccr_run.specs.Advised.{advice_data, advice_lines, advice_on, ends_by, has_any, has_words, heeded, is_written};
ghost use Rattle.ccr_run.specs.Topics.{topic_data};
ghost use Rattle.ccr_run.specs.Writers.{GetsLines};

use crate::errors::Errors;
use crate::topic::Topic;
use std::io::Write;

/// What to do about a line: it is told once, or never, if it isn't to be told any more by then.
#[derive(Clone, Copy)]
pub struct Advice {
    topic: Topic,
    // Whether it was told, or isn't to be told.
    is_told: bool,
}

/// Whether words stand in a text.
#[tactic(auto, using(crate::proofs::Searching::finds))]
pub fn has_words(text: &[u8], words: &str) -> bool
    ensures { result ≡ has_words words.now text.now }
{
    for at in 0..text.len() {
        if text[at..].starts_with(words.as_bytes()) {
            return true;
        }
    }
    false
}

/// Whether words stand in a text, if there are any.
fn has_any(text: &[u8], words: Option<&str>) -> bool
    ensures { result ≡ has_any text.now (option_map (λ words. words.now) words.entry) }
{
    match words {
        Some(words) => has_words(text, words),
        None => false,
    }
}

/// Whether these bytes write the words of a topic, with those that have to stand beside them, and without those that may
/// not.
fn is_written(bytes: &[u8], topic: Topic) -> bool
    ensures { result ≡ is_written bytes.now (topic_data topic) }
{
    has_words(bytes, topic.words())
        && has_words(bytes, topic.beside())
        && !has_any(bytes, topic.but())
}

impl Advice {
    /// What to do about a line; or nothing, for whoever says it better.
    pub fn on(topic: Topic, is_silent: bool) -> Advice
        ensures { advice_data result ≡ advice_on (topic_data topic) is_silent }
    {
        Advice {
            topic,
            is_told: is_silent,
        }
    }

    /// Whether these bytes write words with which it isn't told any more.
    fn ends_by(&self, bytes: &[u8]) -> bool
        ensures { result ≡ ends_by bytes.now (advice_data self.now) }
    {
        has_any(bytes, self.topic.unless())
    }

    /// Tells what to do, where these bytes write its words, and it wasn't told before.
    pub fn heed<E: Write>(&mut self, bytes: &[u8], errors: &mut Errors<E>)
        ensures heeded { advice_data self.new ≡ heeded bytes.now (advice_data self.old) }
        ensures told { GetsLines (advice_lines bytes.now (advice_data self.old)) errors.old errors.new }
        ensures quiet { advice_lines bytes.now (advice_data self.old) ≡ [] → errors.new ≡ errors.old }
    {
        let is_said = !self.is_told && is_written(bytes, self.topic);
        self.is_told = self.is_told || is_said || self.ends_by(bytes);
        if is_said {
            let hint = self.topic.hint();
            errors.say(format_args!("hint: {hint}"));
        }
    }
}
