//! What follows from the definitions.
ghost use Rattle.ccr_overview.specs.Drawn.{AreEdges};
ghost use Rattle.ccr_overview.specs.SaidSame.{AreExplained};

/// Where a page's sentence says that a version stopped, in a build or before a job, `explain` says that it stopped there, word
/// for word. Nothing runs.
pub fn reasons_are_explained()
    ensures { AreExplained }
{}

/// The arrows of a page, written as `graph` writes an edge, are the edges that `graph` writes, each once and in its order.
/// Nothing runs.
pub fn arrows_are_edges()
    ensures { AreEdges }
{}
