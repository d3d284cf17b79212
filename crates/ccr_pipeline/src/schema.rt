//! The format of pipelines and task files: the keys of each object, in the order in which they are read.
ghost use Rattle.std.specs.Prelude.{◌≡◌};
ghost use Rattle.ccr_pipeline.specs.Schema.{opening, closing, rows as row_list, has_row, has_key, schema_of};
ghost use Rattle.serde_json.specs.View.{view};

use crate::key::at_key;
use serde_json::Value;

/// Whether a key has to be there.
#[derive(Clone, Copy)]
pub enum Need {
    /// It has to be there, with a text that no earlier object of the list has there.
    New,
    /// It has to be there.
    Must,
    /// It may be absent.
    May,
}

/// What stands at a key.
#[derive(Clone, Copy)]
pub enum Kind {
    /// A text.
    Text,
    /// A text that a resource, type, job, step or artifact may have as its name.
    Name,
    /// The name of the object that has the key: all artifacts lie beside each other under their own names.
    OwnName,
    /// A list of texts.
    Texts,
    /// `true` or `false`.
    Truth,
    /// A whole number that isn't negative.
    Whole,
    /// An object whose numbers are all whole.
    Params,
    /// An object whose fields are all texts.
    Fields,
    /// An object without members, since what it says isn't done here.
    Nothing,
    /// `latest`, `every` or the fields of a pin.
    Wanted,
    /// An object with these keys.
    Object(Schema),
    /// A list of such objects.
    Objects(Schema),
    /// A list of steps.
    Steps,
    /// A list of steps, or an object that has one.
    Parallel,
    /// A step, which has rules of its own.
    Step,
    /// A number of attempts, which has a rule of its own.
    Attempts,
    /// Whatever, since it has no effect.
    Any,
    /// No value: what the key says isn't done here.
    Undone,
}

/// The objects whose keys are known.
#[derive(Clone, Copy)]
pub enum Schema {
    /// The whole pipeline.
    Pipeline,
    /// A resource.
    Resource,
    /// A job.
    Job,
    /// What no step may have.
    Undone,
    /// A `get` step.
    Get,
    /// A `put` step.
    Put,
    /// A task with its config.
    Task,
    /// A task whose config is in a file.
    FileTask,
    /// A `do`, an `in_parallel` or a `try`.
    Holder,
    /// The object of an `in_parallel`.
    Parallel,
    /// What a task runs, takes and leaves.
    Config,
    /// The program of a config.
    Run,
    /// An input of a config.
    Input,
    /// An output of a config.
    Output,
}

/// How many levels of objects a step or a task file has: a task, its config, and what its config holds.
pub const NESTED: u32 = 3;

/// A key: whether it has to be there, what stands at it, and its text.
pub type Row = (Need, Kind, &'static str);

const PIPELINE: &[Row] = &[
    (Need::May, Kind::Objects(Schema::Resource), "resources"),
    (Need::May, Kind::Objects(Schema::Job), "jobs"),
];

const RESOURCE: &[Row] = &[
    (Need::New, Kind::Name, "name"),
    (Need::Must, Kind::Name, "type"),
    (Need::May, Kind::Params, "source"),
    (Need::May, Kind::Fields, "version"),
];

const JOB: &[Row] = &[
    (Need::New, Kind::Name, "name"),
    (Need::Must, Kind::Steps, "plan"),
];

const UNDONE: &[Row] = &[
    (Need::May, Kind::Undone, "across"),
    (Need::May, Kind::Undone, "set_pipeline"),
    (Need::May, Kind::Undone, "load_var"),
    (Need::May, Kind::Undone, "aggregate"),
];

const GET: &[Row] = &[
    (Need::New, Kind::Name, "get"),
    (Need::May, Kind::Text, "resource"),
    (Need::May, Kind::Texts, "passed"),
    (Need::May, Kind::Truth, "trigger"),
    (Need::May, Kind::Params, "params"),
    (Need::May, Kind::Wanted, "version"),
];

const PUT: &[Row] = &[
    (Need::Must, Kind::Name, "put"),
    (Need::May, Kind::Text, "resource"),
    (Need::May, Kind::Params, "params"),
    (Need::May, Kind::Params, "get_params"),
    (Need::May, Kind::Truth, "no_get"),
];

const TASK: &[Row] = &[
    (Need::Must, Kind::Text, "task"),
    (Need::Must, Kind::Object(Schema::Config), "config"),
    (Need::May, Kind::Params, "params"),
    (Need::May, Kind::Nothing, "input_mapping"),
    (Need::May, Kind::Nothing, "output_mapping"),
];

const FILE_TASK: &[Row] = &[
    (Need::Must, Kind::Text, "task"),
    (Need::Must, Kind::Text, "file"),
    (Need::May, Kind::Params, "params"),
    (Need::May, Kind::Nothing, "input_mapping"),
    (Need::May, Kind::Nothing, "output_mapping"),
];

const HOLDER: &[Row] = &[
    (Need::May, Kind::Steps, "do"),
    (Need::May, Kind::Parallel, "in_parallel"),
    (Need::May, Kind::Step, "try"),
];

const PARALLEL: &[Row] = &[(Need::Must, Kind::Steps, "steps")];

const CONFIG: &[Row] = &[
    (Need::Must, Kind::Object(Schema::Run), "run"),
    (Need::May, Kind::Objects(Schema::Input), "inputs"),
    (Need::May, Kind::Objects(Schema::Output), "outputs"),
    (Need::May, Kind::Params, "params"),
    (Need::May, Kind::Any, "platform"),
];

const RUN: &[Row] = &[
    (Need::Must, Kind::Text, "path"),
    (Need::May, Kind::Texts, "args"),
    (Need::May, Kind::Text, "dir"),
];

const INPUT: &[Row] = &[
    (Need::New, Kind::Name, "name"),
    (Need::May, Kind::OwnName, "path"),
    (Need::May, Kind::Truth, "optional"),
];

const OUTPUT: &[Row] = &[
    (Need::New, Kind::Name, "name"),
    (Need::May, Kind::OwnName, "path"),
];

// After the steps of a plan.
const JOB_END: &[Row] = &[
    (Need::May, Kind::Truth, "serial"),
    (Need::May, Kind::Texts, "serial_groups"),
    (Need::May, Kind::Whole, "max_in_flight"),
    (Need::May, Kind::Step, "on_success"),
    (Need::May, Kind::Step, "on_failure"),
    (Need::May, Kind::Step, "on_error"),
    (Need::May, Kind::Step, "on_abort"),
    (Need::May, Kind::Step, "ensure"),
];

// After the steps of a step, whatever its kind.
const STEP_END: &[Row] = &[
    (Need::May, Kind::Attempts, "attempts"),
    (Need::May, Kind::Step, "on_success"),
    (Need::May, Kind::Step, "on_failure"),
    (Need::May, Kind::Step, "on_error"),
    (Need::May, Kind::Step, "on_abort"),
    (Need::May, Kind::Step, "ensure"),
];

const PARALLEL_END: &[Row] = &[(Need::May, Kind::Truth, "fail_fast")];

/// The keys of an object as far as they come before the steps that it holds.
pub fn opening(schema: Schema) -> &'static [Row]
    ensures { row_list result.now ≡ opening schema }
{
    match schema {
        Schema::Pipeline => PIPELINE,
        Schema::Resource => RESOURCE,
        Schema::Job => JOB,
        Schema::Undone => UNDONE,
        Schema::Get => GET,
        Schema::Put => PUT,
        Schema::Task => TASK,
        Schema::FileTask => FILE_TASK,
        Schema::Holder => HOLDER,
        Schema::Parallel => PARALLEL,
        Schema::Config => CONFIG,
        Schema::Run => RUN,
        Schema::Input => INPUT,
        Schema::Output => OUTPUT,
    }
}

/// The keys of an object that come after the steps that it holds.
pub fn closing(schema: Schema) -> &'static [Row]
    ensures { row_list result.now ≡ closing schema }
{
    match schema {
        Schema::Job => JOB_END,
        Schema::Get | Schema::Put | Schema::Task | Schema::FileTask | Schema::Holder => STEP_END,
        Schema::Parallel => PARALLEL_END,
        _ => &[],
    }
}

/// Whether one of the rows has the key.
fn has_row(rows: &[Row], key: &str) -> bool
    ensures { result ≡ has_row (row_list rows.now) key.now }
{
    for (_, _, known) in rows {
        if *known == key {
            return true;
        }
    }
    false
}

/// Whether objects of the schema may have the key.
pub(crate) fn has_key(schema: Schema, key: &str) -> bool
    ensures { result ≡ has_key schema key.now }
{
    has_row(opening(schema), key) || has_row(closing(schema), key)
}

/// The keys that a step has by its kind.
pub fn schema_of(step: &Value) -> Schema
    ensures { result ≡ schema_of (view step.now) }
{
    if at_key(step, "get").is_some() {
        Schema::Get
    } else if at_key(step, "put").is_some() {
        Schema::Put
    } else if at_key(step, "task").is_none() {
        Schema::Holder
    } else if at_key(step, "config").is_none() && at_key(step, "file").is_some() {
        Schema::FileTask
    } else {
        Schema::Task
    }
}
