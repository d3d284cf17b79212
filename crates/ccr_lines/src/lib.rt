//! Lines: what is printed of events and by commands, and where it goes.
//!
//! What an event prints follows from the event, its reply and the history after it (`specs/Lines.antt`): a function
//! writes each kind of line into a sink. The sink is a [`Lines`]: room for a line is made before the event, so that a
//! whole line always follows. A vector is one, and [`Printed`] prints what it is handed.
//!
//! What a command shows that changes nothing is a `Shown` of the core: a [`Show`] writes its lines from what the core
//! holds (`specs/Shown.antt`), some in either form: as lines, or as JSON. The program takes [`AsText`]: for each kind
//! of `Shown` a function gives the status and the bytes.
#![tactic(auto)]

mod asked;
mod build_certificate;
mod builds;
mod calls;
mod cause;
mod certificate;
mod channel;
mod edge;
mod explain;
mod explain_json;
mod explain_lines;
mod explained;
mod graph;
mod held;
mod jobs_json;
mod joint;
mod json;
mod label;
mod lines;
mod live;
mod log;
mod newest;
mod next_build;
mod object;
mod outlook;
mod past;
mod print;
mod printed;
mod problem;
mod reason;
mod red;
mod release;
mod release_json;
mod resources_json;
mod show;
mod shown;
mod shows;
mod standing;
mod stop;
mod subject;
mod taken;
mod texts;
mod trace;
mod trace_json;
mod unmet;
mod versions;
mod witness;
mod words;

pub use asked::Asked;
pub use cause::Cause;
pub use edge::puts;
pub use explain::explained_in;
pub use explained::{Explained, Passed, Refusal, Taken};
pub use held::{job_held, pin_of, pipeline_held, pipeline_with_job, resource_held};
pub use lines::Lines;
pub use newest::{Sought, newest_of};
pub use outlook::{Outlook, push_outlook};
pub use print::{
    pipeline_room, print_cause, print_disabled, print_enabled, print_end, print_full, print_job,
    print_new, print_pinned, print_pipeline, print_refused_job, print_unpinned, word_of,
};
pub use printed::Printed;
pub use reason::{PinnedBy, Reason};
pub use release::{Together, all_together, key_at, used_at};
pub use show::Show;
pub use shown::ShowFault;
pub use shows::AsText;
pub use stop::{Stop, push_stop, stop_of};
pub use subject::Subject;
pub use taken::history_number;
pub use versions::{Listed, versions_listed};
