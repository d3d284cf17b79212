//! The picture's graph: what is written in the boxes, and how wide they are.

ghost use Rattle.std.specs.Prelude.{◌≡◌, ◌++◌, ◌≤◌, map, length, decimal, IfOk, OnOk};
ghost use Rattle.ccr_page.specs.Pieces.{Adds};
ghost use Rattle.ccr_page.specs.Shapes.{below_resource, resource_units, below_job, job_units, node_data, box_width, tab_width, resource_node, job_node, nodes_of, edge_of};

use crate::cut::units;
use crate::data::{Arrow, Job, Page, Port, Resource, Version};
use crate::piece::Piece::{Cut, Markup, Number, Standing};
use crate::piece::push;
use crate::status::Status;
use ccr_layout::{Edge, Kind, Node};
use itoa::Buffer;
use std::alloc::{AllocError, Global};

// ---- the second line of a box

/// Adds what is written below a resource's name.
pub(crate) fn push_below_resource<'a>(
    out: &mut Vec<u8>,
    pin: &'a Option<String>,
    newest: &'a Option<Version>,
) -> Result<(), AllocError>
    ensures { OnOk result (Adds out.old.items out.new.items (below_resource pin.now newest.now)) }
{
    match pin {
        Some(pin) => push(out, &[Markup("pinned "), Cut(pin, 15)]),
        None => match newest {
            Some(version) => push(out, &[Cut(&version.short, 18)]),
            None => push(out, &[Markup("no versions")]),
        },
    }
}

/// How many units wide that is.
fn resource_units(pin: &Option<String>, newest: &Option<Version>) -> usize
    ensures value { result ≡ resource_units pin.now newest.now }
    ensures few { result ≤ 100 }
{
    match pin {
        Some(pin) => 7 + units(pin.as_bytes()).min(16),
        None => match newest {
            Some(version) => units(version.short.as_bytes()).min(19),
            None => 11,
        },
    }
}

/// Adds what is written below a job's name.
pub(crate) fn push_below_job(
    out: &mut Vec<u8>,
    status: Status,
    number: u32,
) -> Result<(), AllocError>
    ensures { OnOk result (Adds out.old.items out.new.items (below_job status number)) }
{
    if Status::Missing.is(status) {
        push(out, &[Markup("no builds")])
    } else {
        push(out, &[Number(number as u64), Markup(" "), Standing(status)])
    }
}

/// How many digits a number has.
fn digits(number: u32) -> usize
    ensures value { result ≡ length (decimal number) }
    ensures few { result ≤ 10 }
{
    let mut buffer = Buffer::new();
    buffer.format(number).len()
}

/// How many units wide that is.
fn job_units(status: Status, number: u32) -> usize
    ensures value { result ≡ job_units status number }
    ensures few { result ≤ 100 }
{
    if Status::Missing.is(status) {
        9
    } else {
        digits(number) + 1 + status.word().len()
    }
}

// ---- the graph

/// How wide a box is, in pixels, by the units of its name and of what is below it.
fn box_width(name: usize, below: usize) -> u32
    requires { below ≤ 100 }
    ensures { result ≡ box_width name below }
{
    let widest = name.min(21).max(below - below / 6).max(8);
    8 * widest as u32 + 20
}

/// How wide the tab of a port is, in pixels, if it has one.
fn tab_width(port: &Port) -> Option<u32>
    ensures { result ≡ tab_width port.now }
{
    if port.is_passed {
        Some(7 * units(port.resource.as_bytes()).min(14) as u32 + 12)
    } else {
        None
    }
}

/// The tabs of a job.
fn tabs_of(alloc: Global, ports: &[Port]) -> Result<Vec<Option<u32>>, AllocError>
    ensures { IfOk result (λ tabs. tabs.items ≡ map tab_width ports.now) }
{
    let mut tabs = Vec::new(alloc);
    for port in ports {
        tabs.push(tab_width(port))?;
    }
    Ok(tabs)
}

/// The box of a resource.
fn resource_node(alloc: Global, resource: &Resource) -> Node
    ensures { node_data result ≡ resource_node resource.now }
{
    let below = resource_units(&resource.pin, &resource.newest);
    Node {
        kind: Kind::Resource,
        width: box_width(units(resource.name.as_bytes()), below),
        tabs: Vec::new(alloc),
    }
}

/// The box of a job.
fn job_node(alloc: Global, job: &Job) -> Result<Node, AllocError>
    ensures { IfOk result (λ node. node_data node ≡ job_node job.now) }
{
    let below = job_units(job.status, job.number);
    let width = box_width(units(job.name.as_bytes()), below);
    let tabs = tabs_of(alloc, &job.ports)?;
    Ok(Node {
        kind: Kind::Job,
        width,
        tabs,
    })
}

/// Adds the boxes of these resources.
fn push_resource_nodes(
    alloc: Global,
    nodes: &mut Vec<Node>,
    resources: &[Resource],
) -> Result<(), AllocError>
    ensures { OnOk result (map node_data nodes.new.items ≡ map node_data nodes.old.items ++ map resource_node resources.now) }
{
    for resource in resources {
        nodes.push(resource_node(alloc, resource))?;
    }
    Ok(())
}

/// Adds the boxes of these jobs.
fn push_job_nodes(alloc: Global, nodes: &mut Vec<Node>, jobs: &[Job]) -> Result<(), AllocError>
    ensures { OnOk result (map node_data nodes.new.items ≡ map node_data nodes.old.items ++ map job_node jobs.now) }
{
    for job in jobs {
        nodes.push(job_node(alloc, job)?)?;
    }
    Ok(())
}

/// The boxes of a page: resources, then jobs.
pub(crate) fn nodes_of(alloc: Global, page: &Page) -> Result<Vec<Node>, AllocError>
    ensures { IfOk result (λ nodes. map node_data nodes.items ≡ nodes_of page.entry.now) }
{
    let mut nodes = Vec::new(alloc);
    push_resource_nodes(alloc, &mut nodes, &page.resources)?;
    push_job_nodes(alloc, &mut nodes, &page.jobs)?;
    Ok(nodes)
}

/// The lines of a page.
pub(crate) fn edges_of(alloc: Global, arrows: &[Arrow]) -> Result<Vec<Edge>, AllocError>
    ensures { IfOk result (λ edges. edges.items ≡ map edge_of arrows.now) }
{
    let mut edges = Vec::new(alloc);
    for arrow in arrows {
        edges.push(Edge {
            source: arrow.source,
            target: arrow.target,
            port: arrow.port,
            trigger: arrow.trigger,
        })?;
    }
    Ok(edges)
}
