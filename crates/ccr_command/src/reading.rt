//! The commands that only read, with their help.
ghost use Rattle.std.specs.Prelude.{◌≡◌, ◌∷◌, [], false, IfOk, codes};
ghost use Rattle.clap.specs.Words.{rule_of};
ghost use Rattle.ccr_command.specs.Usage.{IsCommand, value_rule, extra_rule, option_rule, flag_rule, look_rule, as_number, as_seconds};

use crate::argument::{as_number, as_seconds, extra, flag, look, option, value};
use crate::commands::command;
use clap::{Arg, Command};
use std::alloc::{AllocError, Global};

/// The flag that asks for JSON.
fn json<'a>(alloc: Global) -> Arg<'a>
    ensures rule { rule_of result ≡ flag_rule (codes "json") }
    ensures local { result.global ≡ false }
{
    flag(alloc, "json", "Prints JSON instead of the lines")
}

/// Shows the versions of a resource.
pub(crate) fn resource_versions<'a>(alloc: Global) -> Result<Command<'a>, AllocError>
    ensures { IfOk result (IsCommand (codes "resource-versions")
        (value_rule (codes "NAME") ∷ flag_rule (codes "json") ∷ look_rule ∷ [])) }
{
    let name = value(alloc, "NAME", "The resource's name");
    command(
        alloc,
        "resource-versions",
        "Shows the versions of a resource",
        "\
Prints `PLACE KEY` for each version: its place in the resource's version table, counted from 1, and its JSON text; ` disabled`
follows if it is disabled.

With --json: one line, an array with an object for each version: `place`, `version` and `enabled`.

Exit statuses: 0 shown; 1 refused, because there is no pipeline or no such resource; 2 usage;
4 the disk or the memory failed.

Examples:
  ccr_run --db ci.db resource-versions repo
  ccr_run --db ci.db resource-versions repo --json",
    )
    .arg(name)?
    .arg(json(alloc))?
    .arg(look(alloc))
}

/// Shows builds.
pub(crate) fn builds<'a>(alloc: Global) -> Result<Command<'a>, AllocError>
    ensures { IfOk result (IsCommand (codes "builds")
        (option_rule (codes "job") ∷ as_number (option_rule (codes "count")) ∷ flag_rule (codes "json") ∷ look_rule ∷ [])) }
{
    let job = option(alloc, "job", "JOB", "Only the builds of this job");
    let count = option(
        alloc,
        "count",
        "N",
        "Only the newest N builds, from 1 to 1000000",
    );
    command(
        alloc,
        "builds",
        "Shows builds: all, those of a job, or the newest ones",
        "\
Prints `JOB N STATUS` for each build, in the order in which they were made. With --count, the newest N of them; with --job too,
the newest N of the job. A job that the pipeline no longer has is still shown, if it has builds.

With --json: one line, an array with an object for each build: `job_name`, `name` (the build's number) and `status`.

Exit statuses: 0 shown; 1 refused, because the pipeline has no such job and the job has no builds; 2 usage;
4 the disk or the memory failed.

Examples:
  ccr_run --db ci.db builds
  ccr_run --db ci.db builds --job unit --count 10 --json",
    )
    .arg(job)?
    .arg(as_number(count))?
    .arg(json(alloc))?
    .arg(look(alloc))
}

/// Shows the pipeline as it was set.
pub(crate) fn get_pipeline<'a>(alloc: Global) -> Result<Command<'a>, AllocError>
    ensures { IfOk result (IsCommand (codes "get-pipeline") (look_rule ∷ [])) }
{
    command(
        alloc,
        "get-pipeline",
        "Shows the pipeline as it was set",
        "\
Prints the bytes of the file that `set-pipeline` read last.

Exit statuses: 0 shown; 1 refused, because there is no pipeline; 2 usage; 4 the disk or the memory failed.

Example:
  ccr_run --db ci.db get-pipeline >pipeline.json",
    )
    .arg(look(alloc))
}

/// Shows the resources of the pipeline.
pub(crate) fn resources<'a>(alloc: Global) -> Result<Command<'a>, AllocError>
    ensures { IfOk result (IsCommand (codes "resources") (flag_rule (codes "json") ∷ look_rule ∷ [])) }
{
    command(
        alloc,
        "resources",
        "Shows the resources of the pipeline, with their pins",
        "\
Prints `NAME TYPE N versions` for each resource, in the order of the pipeline. ` pinned by pipeline PIN` follows if its
`version` in the pipeline is a pin, and ` pinned PIN` if `pin-resource` pinned it. A version has to meet both.

With --json: one line, an array with an object for each resource: `name`, `type`, `version_count`, `pinned_by_pipeline` and
`pinned_version`. A pin that isn't there is null.

Exit statuses: 0 shown; 1 refused, because there is no pipeline; 2 usage; 4 the disk or the memory failed.

Example:
  ccr_run --db ci.db resources",
    )
    .arg(json(alloc))?
    .arg(look(alloc))
}

/// Shows the jobs of the pipeline.
pub(crate) fn jobs<'a>(alloc: Global) -> Result<Command<'a>, AllocError>
    ensures { IfOk result (IsCommand (codes "jobs") (flag_rule (codes "json") ∷ look_rule ∷ [])) }
{
    command(
        alloc,
        "jobs",
        "Shows the jobs of the pipeline, and what their next builds would be",
        "\
Prints `JOB N STATUS NEXT` for each job, in the order of the pipeline, with its newest build; `JOB no builds NEXT` if it has
none. NEXT is what the next round would find: `due`, a build is made; `nothing new`, all versions were built before;
`by command only`, because no input has `trigger`; `none satisfies`, no versions went through the jobs in `passed` together;
`over budget N`, the search would need more nodes.

With --json: one line, an array with an object for each job: `name`, `next` (what NEXT is), `has_new_inputs` (whether it is
`due`), `next_build` (its newest build that runs), `finished_build` (its newest build that has ended), `inputs` and `outputs`.
A build that isn't there is null.

Exit statuses: 0 shown; 1 refused, because there is no pipeline; 2 usage; 4 the disk or the memory failed.

Examples:
  ccr_run --db ci.db jobs
  ccr_run --db ci.db jobs --json",
    )
    .arg(json(alloc))?
    .arg(look(alloc))
}

/// Shows which jobs are red.
pub(crate) fn red<'a>(alloc: Global) -> Result<Command<'a>, AllocError>
    ensures { IfOk result (IsCommand (codes "red") (flag_rule (codes "json") ∷ look_rule ∷ [])) }
{
    command(
        alloc,
        "red",
        "Shows the jobs whose newest build that has ended didn't succeed",
        "\
Prints `JOB N STATUS` for each such job, in the order of the pipeline, with that build; nothing if there is none. A
build that is running doesn't count: the job is as the build before left it.

With --json: one line, an array with an object for each of these builds: `job_name`, `name` (the build's number) and `status`.

Exit statuses: 0 no job is red; 1 some job is, or refused, because there is no pipeline; 2 usage;
4 the disk or the memory failed.

Examples:
  ccr_run --db ci.db red --look
  ccr_run --db ci.db red --json",
    )
    .arg(json(alloc))?
    .arg(look(alloc))
}

/// Shows the pipeline as a flowchart.
pub(crate) fn graph<'a>(alloc: Global) -> Result<Command<'a>, AllocError>
    ensures { IfOk result (IsCommand (codes "graph") (look_rule ∷ [])) }
{
    command(
        alloc,
        "graph",
        "Shows the pipeline as a Mermaid flowchart, with the newest builds of its jobs",
        "\
Prints a flowchart that Mermaid, GitHub and GitLab draw. A resource has its number of versions, a job its newest build. An
arrow leads to a job from the resource of an input, or from each job in its `passed`; it is dotted without `trigger`. An arrow
leads from a job to each resource that it puts.

Exit statuses: 0 shown; 1 refused, because there is no pipeline; 2 usage; 4 the disk or the memory failed.

Example:
  ccr_run --db ci.db graph >pipeline.mmd",
    )
    .arg(look(alloc))
}

/// The rest of the help of `page`.
const PAGE: &str = "\
Prints one file of HTML, without a script or another file: a picture of the pipeline, what stands still and why, and for each job
how its newest builds went and what they took. It is made from a look, with --look or without: it takes no lock, waits for nobody
and changes nothing. Where no pipeline is set, the page says so.

With --logs, each build leads to DIR/JOB/N/. DIR is a path, without a scheme such as https:; one that doesn't begin with / starts
where the page lies. With --refresh, a browser that shows the page reads it again by itself: make it anew meanwhile, and put the
new file in the place of the old one by `mv`.

Exit statuses: 0 printed; 2 usage; 4 the disk or the memory failed.

Examples:
  ccr_run --db ci.db page >page.html
  ccr_run --db ci.db page --title shop --refresh 60 --logs logs >page.new && mv page.new page.html";

/// The command `page` without its options.
fn bare_page<'a>(alloc: Global) -> Command<'a>
    ensures { IsCommand (codes "page") [] result }
{
    command(
        alloc,
        "page",
        "Prints one HTML page: the pipeline's picture, what stands still and why, and the newest builds",
        PAGE,
    )
}

/// The command `page` with the options of what stands on it.
fn page_with_links<'a>(alloc: Global) -> Result<Command<'a>, AllocError>
    ensures { IfOk result (IsCommand (codes "page")
        (option_rule (codes "title") ∷ option_rule (codes "logs") ∷ as_seconds (option_rule (codes "refresh")) ∷ [])) }
{
    let title = option(
        alloc,
        "title",
        "TEXT",
        "The page's heading; without it, `Pipeline`",
    );
    let logs = option(
        alloc,
        "logs",
        "DIR",
        "The directory of the builds' logs, as the reader of the page sees it",
    );
    let refresh = option(
        alloc,
        "refresh",
        "SECONDS",
        "After how many seconds a browser reads the page again, from 1 to 86400",
    );
    bare_page(alloc)
        .arg(title)?
        .arg(logs)?
        .arg(as_seconds(refresh))
}

/// Prints a page that shows how all stands.
pub(crate) fn page<'a>(alloc: Global) -> Result<Command<'a>, AllocError>
    ensures { IfOk result (IsCommand (codes "page")
        (option_rule (codes "title") ∷ option_rule (codes "logs") ∷ as_seconds (option_rule (codes "refresh"))
        ∷ option_rule (codes "made") ∷ option_rule (codes "now") ∷ look_rule ∷ [])) }
{
    let made = option(
        alloc,
        "made",
        "TEXT",
        "When the page is made, in words; without it, the clock's time",
    );
    let now = option(alloc, "now", "TEXT", "What runs right now, in words");
    page_with_links(alloc)?
        .arg(made)?
        .arg(now)?
        .arg(look(alloc))
}

/// Shows a build.
pub(crate) fn build<'a>(alloc: Global) -> Result<Command<'a>, AllocError>
    ensures { IfOk result
        (IsCommand (codes "build")
        (value_rule (codes "JOB") ∷ as_number (value_rule (codes "N")) ∷ flag_rule (codes "json") ∷ look_rule ∷ [])) }
{
    let job = value(alloc, "JOB", "The job's name");
    let number = value(alloc, "N", "The build's number, from 1 to 1000000");
    command(
        alloc,
        "build",
        "Shows what a build took and moved",
        "\
Prints `JOB N STATUS`, and `took INPUT PLACE KEY` for each version that the build took. Then, for each job that its inputs
name in `passed` today, `together JOB N`: the newest build made before it that moved together what it took, or
`no build of JOB moved them together`. Then `moved RESOURCE PLACE KEY` for each version that it moved.

With --json: one line, an object with `job_name`, `name` (the number), `status`, `inputs` (what it took), `together` and
`moved`.

Exit statuses: 0 shown; 1 refused, because there is no such build; 2 usage; 4 the disk or the memory failed.

Example:
  ccr_run --db ci.db build deploy 42",
    )
    .arg(job)?
    .arg(as_number(number))?
    .arg(json(alloc))?
    .arg(look(alloc))
}

/// Shows what is live.
pub(crate) fn live<'a>(alloc: Global) -> Result<Command<'a>, AllocError>
    ensures { IfOk result
        (IsCommand (codes "live") (value_rule (codes "JOB") ∷ flag_rule (codes "json") ∷ look_rule ∷ [])) }
{
    let job = value(alloc, "JOB", "The job's name");
    command(
        alloc,
        "live",
        "Shows the newest build of a job that succeeded, with what it took",
        "\
Prints `JOB N`, and behind it `, INPUT KEY` for each version that the build took, names ascending. Of a job that deploys, that
is what is live. `no build of JOB has succeeded` if there is none. A job that the pipeline no longer has is still shown, if it
has builds.

With --json: one line, an object with `job_name`, `name` (the build's number) and `inputs`, each with its `name`, `resource`,
`place` and `version`; `null` if there is none.

Exit statuses: 0 shown; 1 no build has succeeded, or refused, because the pipeline has no such job and the job has no
builds; 2 usage; 4 the disk or the memory failed.

Examples:
  ccr_run --db ci.db live deploy
  ccr_run --db ci.db live deploy --look --json",
    )
    .arg(job)?
    .arg(json(alloc))?
    .arg(look(alloc))
}

/// Shows where a version went.
pub(crate) fn trace<'a>(alloc: Global) -> Result<Command<'a>, AllocError>
    ensures { IfOk result
        (IsCommand (codes "trace")
        (value_rule (codes "NAME") ∷ value_rule (codes "JSON") ∷ flag_rule (codes "json") ∷ look_rule ∷ [])) }
{
    let name = value(alloc, "NAME", "The resource's name");
    let pin = value(alloc, "JSON", "A JSON object whose fields are all strings");
    command(
        alloc,
        "trace",
        "Shows which builds a version went through",
        "\
Prints `JOB N STATUS` for each build that took or moved a version with these fields, in the order in which they were made.
` took` follows if it took one; ` passed` if it moved one and succeeded, ` moved` if it moved one and didn't succeed.

With --json: one line, an array with an object for each of these builds: `job_name`, `name` (the number), `status`, and whether
it `took` one, `moved` one, and `passed` its job with it.

Exit statuses: 0 shown; 1 refused, because there is no pipeline or no such resource, or the text isn't an object of
strings; 2 usage; 4 the disk or the memory failed.

Example:
  ccr_run --db ci.db trace repo '{\"ref\":\"61cbef\"}'",
    )
    .arg(name)?
    .arg(pin)?
    .arg(json(alloc))?
    .arg(look(alloc))
}

/// Shows the choice for a job in one text, or what a build of it took, for the checker.
pub(crate) fn certify<'a>(alloc: Global) -> Result<Command<'a>, AllocError>
    ensures { IfOk result
        (IsCommand (codes "certify") (value_rule (codes "JOB") ∷ as_number (extra_rule (codes "N")) ∷ look_rule ∷ [])) }
{
    let job = value(alloc, "JOB", "The job's name");
    let number = extra(
        alloc,
        "N",
        "The number of a build that was made, from 1 to 1000000",
    );
    command(
        alloc,
        "certify",
        "Shows the choice for a job in one text, or what a build took, for ccr_verify",
        "\
Without N: prints what `problem` prints, and behind it what `resolve` prints, both from one opening of the database.
`ccr_verify` reads it on standard input, and prints `accepted` with the choice. No build is made.

With N: prints the problem of today's plan with the builds made before build N, and behind it what build N took, with the
newest of these builds that moved it together. `ccr_verify` prints `satisfies` with it: these versions went together through
builds that were made before and have succeeded. It doesn't say that they had succeeded when build N was made, or that there
were no better versions. Pins and disabled versions count for nothing here.

With N, one line on standard output and status 1 instead: `refused: plan changed` if the job's inputs are no longer those of
the build; `refused: no build of JOB moved them together` for the first job in `passed` without such a build.

Exit statuses: 0 shown; 1 refused, as said or because there is no pipeline, no such job or no such build; 2 usage; 3 the
proof would go over the budget; 4 the disk or the memory failed.

Examples:
  ccr_run --db ci.db certify deploy | ccr_verify
  ccr_run --db ci.db certify deploy 42 | ccr_verify",
    )
    .arg(job)?
    .arg(as_number(number))?
    .arg(look(alloc))
}

/// Shows what the next build of a job would take, and why.
pub(crate) fn explain<'a>(alloc: Global) -> Result<Command<'a>, AllocError>
    ensures { IfOk result
        (IsCommand (codes "explain") (value_rule (codes "JOB") ∷ flag_rule (codes "json") ∷ look_rule ∷ [])) }
{
    let job = value(alloc, "JOB", "The job's name");
    command(
        alloc,
        "explain",
        "Shows what a job's next build would take, and why nothing newer",
        "\
Prints `JOB: ` and what a schedule would say: `due`, `nothing new`, `by command only`, `none satisfies` or
`over budget N`. Behind `nothing new` stands the build that took these versions already, and how it ended. Then a line
for each input: its version, and the builds through which it passed the jobs in `passed`. Below it stand those of the
three newest versions that are newer, each with the reason why it isn't taken. No build is made.

  disabled                            the version is disabled
  pinned by pin-resource              the pin by command leaves it out
  pinned by the resource              the `version` of its resource in the pipeline leaves it out
  pinned by the get                   the `version` of the get leaves it out
  JOB N failed, not built by JOB      it hasn't passed a job that the input names, and stopped here on the way
  others come first                   the input takes every version, and others are before it
  not passed JOB together with A, B   it passed the job, but in no build with what these inputs may take
  clash: A, B                         an earlier input would get worse: these demands exclude each other

Where none satisfies, a pin follows that no version has, or the demands that exclude each other. If any one of them is
left out, a choice satisfies the rest.

With --json: one line, an object: `job_name`, `next` (what a schedule would say), `has_new_inputs`, `inputs`, `last`
(the build that took these versions already, where there is nothing new, or null) and `reason` (why none satisfies, or
null). An input has its `name`, `resource`, `place` and `version`, in `passed` the builds through which it passed the
jobs that it names, and in `newer` each newer version with its `place` and the `reason`.

Exit statuses: 0 shown; 1 refused, because there is no pipeline or no such job; 2 usage; 3 the search would go over the
budget; 4 the disk or the memory failed.

Example:
  ccr_run --db ci.db explain deploy",
    )
    .arg(job)?
    .arg(json(alloc))?
    .arg(look(alloc))
}
