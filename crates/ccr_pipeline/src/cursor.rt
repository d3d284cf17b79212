//! A value of the text, and where it stands.
ghost use Rattle.std.specs.Prelude.{◌≡◌, option_map, IfSome};
ghost use Rattle.serde_json.specs.View.{view};
ghost use Rattle.ccr_pipeline.specs.Keys.{data_of, path_to, at_key, path_below, path_at};

use crate::key::at_key;
use crate::place::Place;
use serde_json::Value;

/// A value of the text, and where it stands.
#[derive(Clone, Copy)]
pub struct Cursor<'a> {
    /// The value.
    pub value: &'a Value,
    /// Where it stands.
    pub place: Place<'a>,
}

impl<'a> Cursor<'a> {
    /// What stands at a key of the object here; `null` is as absent.
    pub fn at(&'a self, key: &'a str) -> Option<Cursor<'a>>
        ensures value { option_map data_of result ≡ at_key key.now (data_of self.now) }
        ensures place { IfSome result (λ found. path_to found ≡ path_below (path_to self.now) key.now) }
    {
        let value = at_key(self.value, key)?;
        let place = self.place.key(key);
        Some(Cursor { value, place })
    }

    /// A member of the list here, at its position.
    pub fn member(&'a self, value: &'a Value, position: usize) -> Cursor<'a>
        ensures value { data_of result ≡ view value.now }
        ensures place { path_to result ≡ path_at (path_to self.now) position }
    {
        let place = self.place.member(position);
        Cursor { value, place }
    }
}
