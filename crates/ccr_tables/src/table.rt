//! The six tables.

ghost use Rattle.std.specs.Prelude.{◌≡◌};
ghost use Rattle.ccr_tables.specs.Tables.{creation_text, listing_text};

/// One of the six tables of a history, with its columns; the first of them are its key.
#[derive(Clone, Copy, PartialEq, Eq)]
pub enum Table {
    /// Under 1 the number of the format, under 2 the text of the pipeline: k, v.
    Meta,
    /// Whose version tables there are: id, resource, kind, source.
    Scopes,
    /// The versions of each scope by place: scope, place, body.
    Versions,
    /// The builds in order of making: id, job, number, status.
    Builds,
    /// What each build used, under its inputs, and what it moved, under the empty input: build, input, scope, place.
    Pairs,
    /// The pin of each resource that has one: resource, body.
    Pins,
}

impl Table {
    /// The statement that makes the table.
    pub(crate) fn creation(self) -> &'static str
        ensures { result.now ≡ creation_text self }
    {
        match self {
            Table::Meta => "CREATE TABLE meta(k INTEGER PRIMARY KEY, v BLOB NOT NULL)",
            Table::Scopes => {
                "CREATE TABLE scopes(id INTEGER PRIMARY KEY, resource TEXT NOT NULL,\n  kind TEXT NOT NULL, \
                 source TEXT NOT NULL, UNIQUE(resource, kind, source))"
            }
            Table::Versions => {
                "CREATE TABLE versions(scope INTEGER NOT NULL, place INTEGER NOT NULL,\n  body TEXT NOT NULL, \
                 PRIMARY KEY(scope, place), UNIQUE(scope, body))"
            }
            Table::Builds => {
                "CREATE TABLE builds(id INTEGER PRIMARY KEY, job TEXT NOT NULL,\n  number INTEGER NOT NULL, \
                 status INTEGER NOT NULL, UNIQUE(job, number))"
            }
            Table::Pairs => {
                "CREATE TABLE pairs(build INTEGER NOT NULL, input TEXT NOT NULL,\n  scope INTEGER NOT NULL, \
                 place INTEGER NOT NULL,\n  PRIMARY KEY(build, input, scope, place))"
            }
            Table::Pins => "CREATE TABLE pins(resource TEXT PRIMARY KEY, body TEXT NOT NULL)",
        }
    }

    /// The statement that reads all of the table, by its key.
    pub(crate) fn listing(self) -> &'static str
        ensures { result.now ≡ listing_text self }
    {
        match self {
            Table::Meta => "SELECT k, v FROM meta ORDER BY k",
            Table::Scopes => "SELECT id, resource, kind, source FROM scopes ORDER BY id",
            Table::Versions => "SELECT scope, place, body FROM versions ORDER BY scope, place",
            Table::Builds => "SELECT id, job, number, status FROM builds ORDER BY id",
            Table::Pairs => {
                "SELECT build, input, scope, place FROM pairs ORDER BY build, input, scope, place"
            }
            Table::Pins => "SELECT resource, body FROM pins ORDER BY resource",
        }
    }
}
