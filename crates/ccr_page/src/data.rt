//! What a page shows: plain texts, numbers and enums.
//!
//! Jobs and resources go by their positions. A text is as it was given: the page cuts and escapes it.

use crate::status::Status;

/// A version: its fields as JSON, and in a few letters.
#[derive(Drop)]
pub struct Version {
    pub key: String,
    pub short: String,
}

/// A word of a sentence.
#[derive(Drop)]
pub enum Word {
    /// Words of the sentence itself.
    Plain(String),
    /// A text in so many units, as wide letters count two.
    Text(String, u32),
    /// The same of a name, whose letters may go from right to left.
    Name(String, u32),
    /// A job by its position and its name, which leads to what is said of it.
    Job(usize, String),
    /// The same of a resource.
    Resource(usize, String),
    /// A build by its job's position, its number and its job's name, which leads to its row.
    Build(usize, u32, String),
    /// A build that has no row, by its job's name and its number.
    Past(String, u32),
    /// A build that has a row, by its job's position, its number and these words.
    Row(usize, u32, String),
    Version(Version),
    /// A pin as JSON.
    Pin(String),
}

/// How urgent it is that a job stands still.
#[derive(Clone, Copy, Drop)]
pub enum Urgency {
    /// Something stopped it.
    Stopped,
    /// A pin or the like holds it.
    Held,
    /// It goes on by itself.
    Going,
}

/// Why a job stands still, in a sentence without its subject.
#[derive(Drop)]
pub struct Why {
    pub urgency: Urgency,
    pub words: Vec<Word>,
}

/// A build in the row of a job's last builds.
#[derive(Clone, Copy, Drop)]
pub struct Bar {
    pub number: u32,
    pub status: Status,
    /// Whether it has a row among the builds.
    pub has_row: bool,
}

/// What a build took for an input: a place, and the version there in a few letters.
#[derive(Drop)]
pub struct Cell {
    pub place: u32,
    pub short: String,
}

/// A build: what it took for each of the columns, and in words through which builds that went together, and what it put.
#[derive(Drop)]
pub struct Row {
    pub number: u32,
    pub status: Status,
    pub cells: Vec<Option<Cell>>,
    pub rest: Vec<Word>,
}

/// An input of a job: a port of its box.
#[derive(Drop)]
pub struct Port {
    /// The name of its resource.
    pub resource: String,
    /// Whether a version has to have passed jobs: the port has a tab then.
    pub is_passed: bool,
}

/// A job.
#[derive(Drop)]
pub struct Job {
    pub name: String,
    /// How its newest build stands.
    pub status: Status,
    /// The number of its newest build, 0 if there is none.
    pub number: u32,
    pub ports: Vec<Port>,
    /// Its newest build, the newest good one, its next one, its inputs and outputs, in words.
    pub about: Vec<Word>,
    pub why: Option<Why>,
    /// Its last builds, the newest first.
    pub bars: Vec<Bar>,
    /// The names of the inputs of the builds below.
    pub columns: Vec<String>,
    /// The builds that have a row, the newest first.
    pub rows: Vec<Row>,
}

/// A resource.
#[derive(Drop)]
pub struct Resource {
    pub name: String,
    /// Its type.
    pub kind: String,
    pub newest: Option<Version>,
    pub version_count: u64,
    /// A pin in a few letters.
    pub pin: Option<String>,
    /// What holds it, in words.
    pub held: Vec<Word>,
}

/// A line of the picture. Resources come before jobs.
#[derive(Clone, Copy, Drop)]
pub struct Arrow {
    pub source: usize,
    pub target: usize,
    /// The port of the target, 0 where the target is a resource.
    pub port: usize,
    /// Whether a new version makes a build.
    pub trigger: bool,
    /// Whether a newer version didn't get past the source.
    pub is_held: bool,
}

/// A page.
#[derive(Drop)]
pub struct Page {
    pub title: String,
    /// When it was made, in words. Without it the page says nothing of that.
    pub made: Option<String>,
    /// What runs right now, in words, as `unit 12: task test, for 40 s`. Where there are several, `; ` is between them.
    pub now: Option<String>,
    /// After how many seconds it's to be read again.
    pub refresh: Option<u32>,
    /// Where the logs are, as the reader of the page sees it.
    pub logs: Option<String>,
    pub has_pipeline: bool,
    /// How many builds of each job have a row.
    pub row_count: u32,
    pub jobs: Vec<Job>,
    pub resources: Vec<Resource>,
    pub arrows: Vec<Arrow>,
}
