//! The commands for single versions, with their help.
ghost use Rattle.std.specs.Prelude.{◌∷◌, [], IfOk, codes};
ghost use Rattle.ccr_command.specs.Usage.{value_rule, as_place, IsCommand};

use crate::argument::{as_place, value};
use crate::commands::command;
use clap::Command;
use std::alloc::{AllocError, Global};

/// Disables a version.
pub(crate) fn disable_resource_version<'a>(alloc: Global) -> Result<Command<'a>, AllocError>
    ensures { IfOk result (IsCommand (codes "disable-resource-version")
        (value_rule (codes "NAME") ∷ as_place (value_rule (codes "PLACE")) ∷ [])) }
{
    let name = value(alloc, "NAME", "The resource's name");
    let place = value(
        alloc,
        "PLACE",
        "The number that resource-versions NAME shows before the version",
    );
    command(
        alloc,
        "disable-resource-version",
        "Disables a version of a resource",
        "\
No later build of any job takes the version, until it is enabled again. Builds that have it go on, and what it passed
stays. Prints `disabled NAME PLACE`, even if the version was disabled.

Exit statuses: 0 disabled; 1 refused, because there is no pipeline, no such resource or no such version; 2 usage;
4 the disk or the memory failed.

Example:
  ccr_run --db ci.db disable-resource-version repo 7",
    )
    .arg(name)?
    .arg(as_place(place))
}

/// Enables a version again.
pub(crate) fn enable_resource_version<'a>(alloc: Global) -> Result<Command<'a>, AllocError>
    ensures { IfOk result (IsCommand (codes "enable-resource-version")
        (value_rule (codes "NAME") ∷ as_place (value_rule (codes "PLACE")) ∷ [])) }
{
    let name = value(alloc, "NAME", "The resource's name");
    let place = value(
        alloc,
        "PLACE",
        "The number that resource-versions NAME shows before the version",
    );
    command(
        alloc,
        "enable-resource-version",
        "Enables a version of a resource that was disabled",
        "\
Later builds may take the version again. Prints `enabled NAME PLACE`, even if the version wasn't disabled.

Exit statuses: 0 enabled; 1 refused, because there is no pipeline, no such resource or no such version; 2 usage;
4 the disk or the memory failed.

Example:
  ccr_run --db ci.db enable-resource-version repo 7",
    )
    .arg(name)?
    .arg(as_place(place))
}
