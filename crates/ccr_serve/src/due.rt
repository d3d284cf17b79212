//! Whose turn it is.
ghost use Rattle.std.specs.Prelude.{◌≡◌, map, nat_lt, find, option_map, is_some, IfOk};
ghost use Rattle.ccr_core.specs.Cores.{core_data};
ghost use Rattle.ccr_core.specs.Holding.{name_data};
ghost use Rattle.ccr_serve.specs.Due.{next_name, IsDue};
ghost use Rattle.ccr_serve.specs.Turns.{rank_of};
ghost use Rattle.ccr_serve.specs.Views.{is_running};

use ccr_core::Core;
use std::alloc::{AllocError, Global};

/// The build whose turn it is.
#[derive(Drop)]
pub(crate) struct Due {
    pub(crate) job: String,
    pub(crate) number: u32,
    // In order of making, from 1.
    pub(crate) rank: u64,
}

/// The rank of the job's build of this number in order of making, from 1; one past the last where there is none.
fn rank_at(core: &Core, job: &str, number: u32) -> u64
    ensures { result ≡ rank_of job.now number (core_data core.now).history.builds }
{
    let history = core.history();
    history.rules();
    match core.made_at(job, number) {
        Some(position) => u64::from(position) + 1,
        None => history.build_count() as u64 + 1,
    }
}

/// The first of these builds that was made after the one of this rank.
fn first_after<'c>(core: &Core, names: &'c [(String, u32)], last: u64) -> Option<&'c (String, u32)>
    ensures { option_map (λ n. name_data n.now) result
        ≡ find (λ n. nat_lt last (rank_of n.0 n.1 (core_data core.now).history.builds)) (map name_data names.now) }
{
    for name in names {
        if last < rank_at(core, name.0.as_str(), name.1) {
            return Some(name);
        }
    }
    None
}

/// The one of these builds, in order of making, whose turn it is after the one of this rank.
fn next_of<'c>(core: &Core, names: &'c [(String, u32)], last: u64) -> Option<&'c (String, u32)>
    ensures { option_map (λ n. name_data n.now) result
        ≡ next_name (core_data core.now).history last (map name_data names.now) }
{
    if let Some(name) = first_after(core, names, last) {
        return Some(name);
    }
    names.first()
}

/// The build whose turn it is after the one of this rank; None where no build runs.
pub(crate) fn due_build(alloc: Global, core: &Core, last: u64) -> Result<Option<Due>, AllocError>
    ensures due { IfOk result (IsDue (core_data core.now) last) }
    ensures some { IfOk result (λ due. is_some due ≡ is_running (core_data core.now)) }
{
    core.history().rules();
    let Some(name) = next_of(core, core.running(), last) else {
        return Ok(None);
    };
    let rank = rank_at(core, name.0.as_str(), name.1);
    let job = String::from_str(alloc, name.0.as_str())?;
    Ok(Some(Due {
        job,
        number: name.1,
        rank,
    }))
}
