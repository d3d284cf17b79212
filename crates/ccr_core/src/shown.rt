//! What a command shows that changes nothing.

use crate::form::Form;

/// What is shown. A name is that of a resource or a job, as it was typed; a form says how it is shown, where there are two.
#[derive(Drop)]
pub enum Shown {
    /// How the builds of the job of this name stand, or of all jobs, in order of making; the newest ones, so many, or all.
    Builds(Option<String>, Option<u32>, Form),
    /// The versions of the resource of this name, each with its place.
    Versions(String, Form),
    /// The problem of the next build of the job of this name.
    Problem(String),
    /// The proof of the choice for the next build of the job of this name, or that there is none.
    Proof(String),
    /// Both in one text, which the checker accepts.
    Certificate(String),
    /// What the next build of the job of this name would take, and why nothing newer, or why there is none.
    Explanation(String, Form),
    /// The text of the pipeline, as it was set.
    Pipeline,
    /// The resources of the pipeline, with their versions counted and their pins.
    Resources(Form),
    /// The jobs of the pipeline, with their newest builds, and what their next builds would be.
    Jobs(Form),
    /// The jobs of the pipeline whose newest build that has ended didn't succeed, each with that build.
    Red(Form),
    /// The newest build that succeeded of the job of this name, with what it took.
    Live(String, Form),
    /// The pipeline as a Mermaid flowchart, with the newest builds of its jobs.
    Graph,
    /// The job's build of this number: what it took and moved, and through which builds that went together before.
    Build(String, u32, Form),
    /// The builds that took or moved a version of the resource of this name that meets this JSON text.
    Trace(String, String, Form),
    /// What the job's build of this number took, in one text, of which the checker says that it satisfies: by today's
    /// plan, it went together through builds that were made before and have succeeded.
    BuildCertificate(String, u32),
}
