//! What is drawn: boxes, and the lines between them.

ghost use Rattle.std.specs.Prelude.{◌≡◌, ℕ, ◌+◌, ◌*◌, ◌/◌, ◌<◌, ◌≤◌, false, length, min, MatchBool, slice_index_or, is_some};
ghost use Rattle.ccr_layout.specs.Ends.{tab_in};
ghost use Rattle.ccr_layout.specs.Nodes.{IsJob, IsResource};
ghost use Rattle.ccr_layout.specs.Passed.{kind_in};

/// What a node stands for.
#[derive(Clone, Copy, Drop)]
pub enum Kind {
    Resource,
    Job,
}

/// A box to be drawn.
#[derive(Drop)]
pub struct Node {
    pub kind: Kind,
    /// In pixels; no box is drawn wider than 1000.
    pub width: u32,
    /// For each port from the top the width of its tab in pixels, or none. A resource has no ports, and a job at most 32.
    pub tabs: Vec<Option<u32>>,
}

/// A line to be drawn. Nodes and ports go by their positions.
#[derive(Clone, Copy, Drop)]
pub struct Edge {
    pub source: usize,
    pub target: usize,
    /// The port of the target, 0 where the target is a resource.
    pub port: usize,
    /// Whether a new version makes a build.
    pub trigger: bool,
}

/// The most nodes of a graph: 200 resources and 200 jobs.
pub const MOST_NODES: usize = 400;

/// The most ports of a job.
pub const MOST_PORTS: usize = 32;

/// The last column in which a node can stand.
pub(crate) const MOST_COLUMN: usize = MOST_NODES + 2;

/// How wide a box or a tab is drawn at most, in pixels.
pub const MOST_WIDTH: u32 = 1000;

/// How far apart two ports of a box are, in pixels.
const PORT: u32 = 22;

impl Node {
    ghost use Rattle.ccr_layout.specs.Nodes.{IsJob, IsResource, port_count, height_of, first_port_of};

    /// Whether it's a job.
    pub(crate) fn is_job(&self) -> bool
        ensures { MatchBool result (IsJob self.now.kind) (IsResource self.now.kind) }
    {
        match self.kind {
            Kind::Job => true,
            Kind::Resource => false,
        }
    }

    /// How many ports it has.
    fn ports(&self) -> u32
        ensures value { result ≡ port_count self.now.tabs.items }
        ensures few { result ≤ 32 }
    {
        self.tabs.len().min(MOST_PORTS) as u32
    }

    /// How high its box is, in pixels.
    pub(crate) fn height(&self) -> u32
        ensures value { result ≡ height_of self.now.kind self.now.tabs.items }
        ensures high { 40 ≤ result }
        ensures low { result ≤ 710 }
    {
        match self.kind {
            Kind::Resource => 40,
            Kind::Job => (PORT * self.ports() + 6).max(46),
        }
    }

    /// How far below the top of its box a line to its first port ends, in pixels.
    pub(crate) fn first_port(&self) -> u32
        ensures value { result ≡ first_port_of self.now.kind self.now.tabs.items }
        ensures low { result ≤ 40 }
    {
        match self.kind {
            Kind::Resource => 20,
            Kind::Job => {
                let ports = PORT * self.ports();
                ((ports + 6).max(46) - ports) / 2 + PORT / 2
            }
        }
    }

    /// The width of the widest tab, 0 where there is none.
    pub(crate) fn widest_tab(&self) -> u32
        ensures low { result ≤ 1000 }
        ensures widest { (p w : ℕ) → slice_index_or self.now.tabs.items p None ≡ Some w → min w 1000 ≤ result }
    {
        let mut widest = 0;
        for tab in &self.tabs {
            widest = tab.unwrap_or(0).min(MOST_WIDTH).max(widest);
        }
        widest
    }

    /// Whether this port has a tab.
    pub(crate) fn has_tab(&self, port: usize) -> bool
        ensures { result ≡ is_some (slice_index_or self.now.tabs.items port None) }
    {
        self.tabs.get(port).copied().unwrap_or(None).is_some()
    }
}

/// Whether this node is a job.
pub(crate) fn is_job(nodes: &[Node], node: usize) -> bool
    ensures { MatchBool result (IsJob (kind_in nodes.now node)) (IsResource (kind_in nodes.now node)) }
{
    match nodes.get(node) {
        Some(node) => node.is_job(),
        None => false,
    }
}

/// How far below its first port a port is, in pixels.
pub(crate) fn port_below(port: usize) -> u32
    ensures value { result ≡ 22 * min port 32 }
    ensures low { result ≤ 704 }
{
    PORT * (port.min(MOST_PORTS) as u32)
}

/// Whether a port of a node has a tab.
pub(crate) fn has_tab(nodes: &[Node], node: usize, port: usize) -> bool
    ensures { result ≡ is_some (tab_in nodes.now node port) }
{
    match nodes.get(node) {
        Some(node) => node.has_tab(port),
        None => false,
    }
}

/// How many ports of a node may have tabs.
pub(crate) fn tab_count(nodes: &[Node], node: usize) -> usize
    ensures { (p : ℕ) → result ≤ p → is_some (tab_in nodes.now node p) ≡ false }
{
    match nodes.get(node) {
        Some(node) => node.tabs.len(),
        None => 0,
    }
}
