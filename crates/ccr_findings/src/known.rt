//! The keys of Concourse's pipelines that have no effect here, and where a key has one.
ghost use Rattle.std.specs.Prelude.{◌≡◌, option_map, IfOk};
ghost use Rattle.serde_json.specs.View.{view};
ghost use Rattle.ccr_pipeline.specs.Schema.{rows as row_list};
ghost use Rattle.ccr_findings.specs.Known as spec;
ghost use Rattle.ccr_findings.specs.Known.{idle_rows};
ghost use Rattle.ccr_findings.specs.Timeouts.{timeout_remedy};

use crate::near::is_like;
use crate::stand::{Keys, kind_at, kind_in};
use ccr_pipeline::schema::{Row, Schema, closing, opening};
use serde_json::Value;
use std::alloc::{AllocError, Global};

/// The objects in which a misplaced key is looked for, those with gates first.
const OWNERS: &[Schema] = &[
    Schema::Get,
    Schema::Put,
    Schema::Task,
    Schema::FileTask,
    Schema::Job,
    Schema::Resource,
    Schema::Parallel,
    Schema::Config,
    Schema::Run,
    Schema::Input,
    Schema::Output,
    Schema::Holder,
    Schema::Pipeline,
];

/// The same.
fn owners() -> &'static [Schema]
    ensures { result.now ≡ spec.owners }
{
    OWNERS
}

/// What an object is called in a line.
pub(crate) fn name_of(schema: Schema) -> &'static str
    ensures { result.now ≡ spec.name_of schema }
{
    match schema {
        Schema::Pipeline => "the pipeline",
        Schema::Resource => "a resource",
        Schema::Job => "a job",
        Schema::Undone => "nothing",
        Schema::Get => "get",
        Schema::Put => "put",
        Schema::Task | Schema::FileTask => "task",
        Schema::Holder => "a step",
        Schema::Parallel => "in_parallel",
        Schema::Config => "a task's config",
        Schema::Run => "run",
        Schema::Input => "an input",
        Schema::Output => "an output",
    }
}

/// A key of Concourse without effect here, and what to do in its place.
type Idle = (&'static str, &'static str);

const LIMIT: &str = "wrap the program in one that has a time limit";

const STEP_LIMIT: &str =
    "only a launcher (--launcher) ends it then; without one, wrap the program in one that has a time limit";

const VALUES: &str = "put values in before set-pipeline";

const OWN_TYPE: &str = "the programs of a type are in the directory of types";

const IMAGE: &str = "a task runs on this machine itself: install there what it needs";

const RIGHTS: &str = "a task runs as the user of ccr_run, or as a launcher (--launcher) has it run";

const BOUNDS: &str = "there are no containers; a launcher (--launcher) can set bounds";

const MACHINE: &str = "all programs run on this machine; leave it out";

const ACCESS: &str = "whoever may read the database sees all; leave it out";

const LOGS: &str = "a launcher (--launcher) keeps logs, and its settings say how long";

const PIPELINE: &[Idle] = &[
    ("resource_types", OWN_TYPE),
    ("groups", "jobs aren't grouped; leave it out"),
    ("display", "nothing shows it; leave it out"),
    ("var_sources", VALUES),
    ("prototypes", OWN_TYPE),
];

const RESOURCE: &[Idle] = &[
    ("icon", "nothing shows it; leave it out"),
    ("check_every", "each round checks each resource"),
    ("check_timeout", LIMIT),
    (
        "expose_build_created_by",
        "no build knows who made it; leave it out",
    ),
    (
        "webhook_token",
        "have the hook start a round: run --rounds 1",
    ),
    ("public", ACCESS),
    ("tags", MACHINE),
    (
        "old_name",
        "under a new name a resource begins without versions",
    ),
];

const JOB: &[Idle] = &[
    ("old_name", "under a new name a job begins without builds"),
    ("public", ACCESS),
    ("build_log_retention", LOGS),
    ("build_logs_to_retain", LOGS),
    (
        "disable_manual_trigger",
        "trigger-job takes each job; leave it out",
    ),
    (
        "interruptible",
        "there are no workers to wait for; leave it out",
    ),
];

const TASK: &[Idle] = &[
    ("file", "the task has a config; leave one of the two out"),
    ("image", IMAGE),
    ("privileged", RIGHTS),
    (
        "vars",
        "give values as params, which are the task's environment",
    ),
    ("container_limits", BOUNDS),
    (
        "hermetic",
        "a launcher (--launcher) can take the network away",
    ),
    ("tags", MACHINE),
];

const CONFIG: &[Idle] = &[
    ("image_resource", IMAGE),
    ("rootfs_uri", IMAGE),
    ("caches", "keep files in a directory outside of the build's"),
    ("container_limits", BOUNDS),
];

const GET: &[Idle] = &[("tags", MACHINE), ("container_limits", BOUNDS)];

const PUT: &[Idle] = &[
    ("inputs", "a put has all artifacts; leave it out"),
    ("tags", MACHINE),
    ("container_limits", BOUNDS),
];

/// The keys of an object that Concourse knows and that have no effect here, but for the timeout of a get, put or task.
fn idle_keys(schema: Schema) -> &'static [Idle]
    ensures { idle_rows result.now ≡ spec.idle_keys schema }
{
    match schema {
        Schema::Pipeline => PIPELINE,
        Schema::Resource => RESOURCE,
        Schema::Job => JOB,
        Schema::Get => GET,
        Schema::Put => PUT,
        Schema::Task | Schema::FileTask => TASK,
        Schema::Holder => &[("timeout", "put it at each step in it"), ("tags", MACHINE)],
        Schema::Parallel => &[("limit", "its steps run one after another; leave it out")],
        Schema::Config => CONFIG,
        Schema::Run => &[("user", RIGHTS)],
        Schema::Undone | Schema::Input | Schema::Output => &[],
    }
}

/// What to do in the place of a key, by the rows of a table.
fn remedy_in(rows: &'static [Idle], key: &str) -> Option<&'static str>
    ensures { option_map (λ remedy. remedy.now) result ≡ spec.remedy_in (idle_rows rows.now) key.now }
{
    for (known, remedy) in rows {
        if *known == key {
            return Some(*remedy);
        }
    }
    None
}

/// What to do about the timeout of a get, put or task step.
fn timeout_remedy(timeout: &Value) -> &'static str
    ensures { result.now ≡ timeout_remedy (view timeout.now) }
{
    if timeout.is_string() {
        STEP_LIMIT
    } else {
        "as a text it has an effect, with a launcher alone"
    }
}

/// Whether steps of the schema have a timeout.
fn has_timeout(schema: Schema) -> bool
    ensures { result ≡ spec.has_timeout schema }
{
    match schema {
        Schema::Get | Schema::Put | Schema::Task | Schema::FileTask => true,
        Schema::Pipeline | Schema::Resource | Schema::Job | Schema::Undone => false,
        Schema::Holder | Schema::Parallel | Schema::Config | Schema::Run => false,
        Schema::Input | Schema::Output => false,
    }
}

/// What to do in the place of a key that Concourse knows, by what stands there.
pub(crate) fn remedy_of(schema: Schema, key: &str, value: &Value) -> Option<&'static str>
    ensures { option_map (λ remedy. remedy.now) result ≡ spec.remedy_of schema key.now (view value.now) }
{
    if has_timeout(schema) && key == "timeout" {
        return Some(timeout_remedy(value));
    }
    remedy_in(idle_keys(schema), key)
}

/// The first key of a table that this one looks like.
fn like_in(
    alloc: Global,
    rows: &'static [Row],
    key: &str,
) -> Result<Option<&'static str>, AllocError>
    ensures { IfOk result
        (λ o. option_map (λ known. known.now) o ≡ spec.like_in (row_list rows.now) key.now) }
{
    for (_, _, known) in rows {
        if is_like(alloc, key, known)? {
            return Ok(Some(*known));
        }
    }
    Ok(None)
}

/// The key with an effect in the object that this one looks like.
pub(crate) fn meant_key(
    alloc: Global,
    schema: Schema,
    key: &str,
) -> Result<Option<&'static str>, AllocError>
    ensures { IfOk result (λ o. option_map (λ known. known.now) o ≡ spec.meant_key schema key.now) }
{
    match like_in(alloc, opening(schema), key)? {
        Some(known) => Ok(Some(known)),
        None => like_in(alloc, closing(schema), key),
    }
}

/// Whether the key has an effect in the object.
fn has_effect(schema: Schema, key: &str) -> bool
    ensures { result ≡ spec.has_effect schema key.now }
{
    kind_at(Keys::Of(schema), key).is_some()
}

/// The first of the objects in which the key has an effect.
fn owner_in(schemas: &[Schema], key: &str) -> Option<Schema>
    ensures { result ≡ spec.owner_in schemas.now key.now }
{
    for schema in schemas {
        if has_effect(*schema, key) {
            return Some(*schema);
        }
    }
    None
}

/// An object in which the key has an effect.
#[tactic(auto, unfolding(crate::specs::Known::owner_of))]
pub(crate) fn owner_of(key: &str) -> Option<Schema>
    ensures { result ≡ spec.owner_of key.now }
{
    owner_in(owners(), key)
}

/// Whether an object of the schema is a step.
fn is_step(schema: Schema) -> bool
    ensures { result ≡ spec.is_step schema }
{
    match schema {
        Schema::Get | Schema::Put | Schema::Task | Schema::FileTask | Schema::Holder => true,
        Schema::Pipeline | Schema::Resource | Schema::Job | Schema::Undone => false,
        Schema::Parallel | Schema::Config | Schema::Run | Schema::Input => false,
        Schema::Output => false,
    }
}

/// Whether the key of a step is a fault: it says another kind of step, or what isn't done here.
fn is_fault(key: &str) -> bool
    ensures { result ≡ spec.is_fault key.now }
{
    if kind_in(opening(Schema::Undone), key).is_some() {
        return true;
    }
    if key == "get" || key == "put" || key == "task" {
        return true;
    }
    kind_in(opening(Schema::Holder), key).is_some()
}

/// Whether nothing is said of the key as one without effect.
pub(crate) fn is_passed_over(schema: Schema, key: &str) -> bool
    ensures { result ≡ spec.is_passed_over schema key.now }
{
    has_effect(schema, key) || (is_step(schema) && is_fault(key))
}
