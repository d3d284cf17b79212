//! From a node's column to the last column to which a line of it leads.

ghost use Rattle.std.specs.Prelude.{◌≡◌, ◌≢◌, ◌++◌, ◌∷◌, [], ◌+◌, ◌<◌, ◌≤◌, ◌↔◌, ℕ, length, map, All, Contains, IfOk, OnOk, IsTrue, unwrap_or, slice_index, slice_index_or, slice_set, max, min};
ghost use Rattle.ccr_layout.specs.Columns.{AreGotten, ArePut};
ghost use Rattle.ccr_layout.specs.Layers.{named_in};
ghost use Rattle.ccr_layout.specs.Nodes.{IsJob, IsResource, job_count};
ghost use Rattle.ccr_layout.specs.Passed.{kind_in, LeadOn, AreNamed};
ghost use Rattle.ccr_layout.specs.Reaches.{AreReaches};
ghost use Rattle.ccr_layout.specs.Spans.{Passes, IsIn, height_in, span_in, IsSpanOf, AreSpans};

use crate::at::column_at;
use crate::graph::{Edge, MOST_COLUMN, Node, is_job};
use crate::layer::layers_of;
use std::alloc::{AllocError, Global};

/// The columns of a node: that of its box, and those that its lines pass through.
#[derive(Clone, Copy, Drop)]
pub(crate) struct Span {
    /// The column of the box.
    pub(crate) column: usize,
    /// The last column to which a line leads. Lines pass through those between.
    pub(crate) reach: usize,
    /// The height of the box, in pixels.
    pub(crate) height: u32,
    /// How far below its top the first port is, in pixels.
    pub(crate) first_port: u32,
}

impl Span {
    const NONE: Span = Span {
        column: 0,
        reach: 0,
        height: 0,
        first_port: 0,
    };
}

/// Whether a node's lines pass through this column, in a slot.
pub(crate) fn passes(span: Span, column: usize) -> bool
    ensures { IsTrue result ↔ Passes span column }
{
    span.column < column && column < span.reach
}

/// Whether a node has its box or a slot in this column.
pub(crate) fn is_in(span: Span, column: usize) -> bool
    ensures { IsTrue result ↔ IsIn span column }
{
    span.column == column || passes(span, column)
}

/// How high a node is in this column, in pixels: 0 where it has no box.
pub(crate) fn height_in(span: Span, column: usize) -> u32
    ensures { result ≡ height_in span column }
{
    if span.column == column {
        span.height
    } else {
        0
    }
}

/// The span of a node.
pub(crate) fn span_at(spans: &[Span], node: usize) -> Span
    ensures { result ≡ span_in spans.now node }
{
    spans.get(node).copied().unwrap_or(Span::NONE)
}

/// A list for each node.
fn lists(alloc: Global, nodes: usize) -> Result<Vec<Vec<usize>>, AllocError>
    ensures long { IfOk result (λ lists. length lists.items ≡ nodes) }
    ensures empty { IfOk result (λ lists. (t : ℕ) → named_in lists.items t ≡ []) }
{
    let mut lists = Vec::new(alloc);
    for node in 0..nodes {
        lists.push(Vec::new(alloc))?;
    }
    Ok(lists)
}

/// Notes that one node names another.
fn push_named(named: &mut Vec<Vec<usize>>, edge: Edge) -> Result<(), AllocError>
    ensures long { length named.new.items ≡ length named.old.items }
    ensures pushed { OnOk result (edge.target < length named.old.items → named_in named.new.items edge.target
        ≡ named_in named.old.items edge.target ++ edge.source ∷ []) }
    ensures others { (t : ℕ) → t ≢ edge.target → named_in named.new.items t ≡ named_in named.old.items t }
    ensures past { length named.old.items ≤ edge.target → named_in named.new.items edge.target
        ≡ named_in named.old.items edge.target }
{
    if edge.target < named.len() {
        named[edge.target].push(edge.source)?;
    }
    Ok(())
}

/// For each node the jobs that it names in `passed`: the sources of edges between jobs.
fn named_jobs(alloc: Global, nodes: &[Node], edges: &[Edge]) -> Result<Vec<Vec<usize>>, AllocError>
    ensures { IfOk result (λ named. AreNamed nodes.now edges.now (length edges.now) named.items) }
{
    let mut named = lists(alloc, nodes.len())?;
    for edge in edges {
        if is_job(nodes, edge.source) && is_job(nodes, edge.target) {
            push_named(&mut named, *edge)?;
        }
    }
    Ok(named)
}

/// The least of the numbers that are noted for a node.
fn note_least(least: &mut Vec<Option<usize>>, node: usize, number: usize)
    ensures { least.new.items
        ≡ slice_set least.old.items node (Some (min (unwrap_or (slice_index_or least.old.items node None) number) number)) }
{
    if node < least.len() {
        least[node] = Some(least[node].unwrap_or(number).min(number));
    }
}

/// The greatest of the numbers that are noted for a node.
fn note_greatest(greatest: &mut Vec<usize>, node: usize, number: usize)
    ensures { greatest.new.items ≡ slice_set greatest.old.items node (max (slice_index greatest.old.items node) number) }
{
    if node < greatest.len() {
        greatest[node] = greatest[node].max(number);
    }
}

/// For each resource the column left of the first job that gets it, if a job gets it.
fn gotten(
    alloc: Global,
    nodes: &[Node],
    edges: &[Edge],
    layers: &[usize],
) -> Result<Vec<Option<usize>>, AllocError>
    ensures { IfOk result (λ gotten. AreGotten nodes.now edges.now layers.now (length edges.now) gotten.items) }
{
    let mut columns = vec![in alloc; None; nodes.len()]?;
    for edge in edges {
        if is_job(nodes, edge.target) {
            note_least(&mut columns, edge.source, column_at(layers, edge.target));
        }
    }
    Ok(columns)
}

/// For each resource the column right of the last job that puts it, 0 where none does.
fn put(
    alloc: Global,
    nodes: &[Node],
    edges: &[Edge],
    layers: &[usize],
) -> Result<Vec<usize>, AllocError>
    requires { All (λ l. l ≤ 400) layers.now }
    ensures { IfOk result (λ put. ArePut nodes.now edges.now layers.now (length edges.now) put.items) }
{
    let mut columns = vec![in alloc; 0; nodes.len()]?;
    for edge in edges {
        if !is_job(nodes, edge.target) {
            let column = column_at(layers, edge.source) + 2;
            note_greatest(&mut columns, edge.target, column);
        }
    }
    Ok(columns)
}

/// The column of a node, by the layers of jobs and where resources are gotten and put.
fn column_of(
    nodes: &[Node],
    layers: &[usize],
    gotten: &[Option<usize>],
    put: &[usize],
    node: usize,
) -> usize
    requires layers { All (λ l. l ≤ 400) layers.now }
    requires put { All (λ c. c ≤ 402) put.now }
    ensures low { result ≤ 402 }
    ensures few { (n : ℕ) → All (λ l. l ≤ n) layers.now → All (λ c. c ≤ n + 2) put.now
        → ((c : ℕ) → slice_index_or gotten.now node None ≡ Some c → c ≤ n) → result ≤ n + 2 }
    ensures job { IsJob (kind_in nodes.now node) → result ≡ slice_index layers.now node + 1 }
    ensures gets { IsResource (kind_in nodes.now node) → (c : ℕ)
        → slice_index_or gotten.now node None ≡ Some c → result ≤ c }
    ensures puts { IsResource (kind_in nodes.now node) → slice_index_or gotten.now node None ≡ None
        → result ≡ slice_index put.now node }
{
    let first = gotten.get(node).copied().unwrap_or(None);
    let last = column_at(put, node);
    if is_job(nodes, node) {
        column_at(layers, node) + 1
    } else {
        first.unwrap_or(last).min(MOST_COLUMN)
    }
}

/// The column of each node.
fn columns_of(alloc: Global, nodes: &[Node], edges: &[Edge]) -> Result<Vec<usize>, AllocError>
    requires { length nodes.now ≤ 400 }
    ensures long { IfOk result (λ columns. length columns.items ≡ length nodes.now) }
    ensures low { IfOk result (λ columns. All (λ c. c ≤ 402) columns.items) }
    ensures few { IfOk result (λ columns. All (λ c. c ≤ job_count nodes.now + 2) columns.items) }
    ensures lead { IfOk result (λ columns. LeadOn nodes.now edges.now (slice_index columns.items)) }
{
    let named = named_jobs(alloc, nodes, edges)?;
    let named = named.as_slice();
    let layers = layers_of(alloc, named)?;
    let layers = layers.as_slice();
    let gotten = gotten(alloc, nodes, edges, layers)?;
    let gotten = gotten.as_slice();
    let put = put(alloc, nodes, edges, layers)?;
    let put = put.as_slice();
    let mut columns = Vec::new(alloc);
    for node in 0..nodes.len() {
        let column = column_of(nodes, layers, gotten, put, node);
        columns.push(column)?;
    }
    Ok(columns)
}

/// For each node the last column to which an edge leads from it, 0 where none does.
fn reaches(alloc: Global, edges: &[Edge], columns: &[usize]) -> Result<Vec<usize>, AllocError>
    ensures { IfOk result (λ reaches. AreReaches columns.now edges.now (length edges.now) reaches.items) }
{
    let mut reaches = vec![in alloc; 0; columns.len()]?;
    for edge in edges {
        note_greatest(&mut reaches, edge.source, column_at(columns, edge.target));
    }
    Ok(reaches)
}

/// The span of a node, from its column to the last that its lines reach.
fn span_of(node: &Node, column: usize, reach: usize) -> Span
    ensures span { IsSpanOf node.now result }
    ensures column { result.column ≡ column }
    ensures reach { result.reach ≡ reach }
    ensures low { result.height ≤ 710 }
    ensures port { result.first_port ≤ 40 }
{
    Span {
        column,
        reach,
        height: node.height(),
        first_port: node.first_port(),
    }
}

/// The span of each node.
pub(crate) fn spans_of(
    alloc: Global,
    nodes: &[Node],
    edges: &[Edge],
) -> Result<Vec<Span>, AllocError>
    requires { length nodes.now ≤ 400 }
    ensures { IfOk result (λ spans. AreSpans nodes.now edges.now spans.items) }
{
    let columns = columns_of(alloc, nodes, edges)?;
    let columns = columns.as_slice();
    let reaches = reaches(alloc, edges, columns)?;
    let reaches = reaches.as_slice();
    let mut spans = Vec::new(alloc);
    for node in 0..nodes.len() {
        let column = column_at(columns, node);
        let reach = column_at(reaches, node);
        let span = span_of(&nodes[node], column, reach);
        spans.push(span)?;
    }
    Ok(spans)
}

/// The last column of a box.
fn last_column(spans: &[Span]) -> usize
    requires { All (λ s. s.column ≤ 402) spans.now }
    ensures past { (k : ℕ) → k < length spans.now → (span_in spans.now k).column ≤ result }
    ensures low { result ≤ 402 }
{
    let mut last = 0;
    for node in 0..spans.len() {
        last = spans[node].column.max(last);
    }
    last
}

/// How many columns there are.
pub(crate) fn column_count(spans: &[Span]) -> usize
    requires { All (λ s. s.column ≤ 402) spans.now }
    ensures past { (k : ℕ) → k < length spans.now → (span_in spans.now k).column < result }
    ensures low { result ≤ 403 }
{
    if spans.is_empty() {
        0
    } else {
        last_column(spans) + 1
    }
}

/// For each node how high it is in this column, in pixels.
pub(crate) fn heights_in(
    alloc: Global,
    spans: &[Span],
    column: usize,
) -> Result<Vec<u32>, AllocError>
    ensures { IfOk result (λ heights. heights.items ≡ map (λ s. height_in s column) spans.now) }
{
    spans
        .iter()
        .map(|span| height_in(*span, column))
        .collect(alloc)
}

/// The nodes that have a box or a slot in this column.
pub(crate) fn members(
    alloc: Global,
    spans: &[Span],
    column: usize,
) -> Result<Vec<usize>, AllocError>
    ensures all { IfOk result (λ order. (k : ℕ) → k < length spans.now → IsIn (span_in spans.now k) column
        → Contains order.items k) }
    ensures few { IfOk result (λ order. length order.items ≤ length spans.now) }
{
    let mut members = Vec::new(alloc);
    for node in 0..spans.len() {
        if is_in(spans[node], column) {
            members.push(node)?;
        }
    }
    Ok(members)
}

/// The nodes that have a box or a slot in this column, by their keys.
pub(crate) fn order_by(
    alloc: Global,
    spans: &[Span],
    column: usize,
    keys: &[u32],
) -> Result<Vec<usize>, AllocError>
    ensures all { IfOk result (λ order. (k : ℕ) → k < length spans.now → IsIn (span_in spans.now k) column
        → Contains order.items k) }
    ensures few { IfOk result (λ order. length order.items ≤ length spans.now) }
{
    let mut order = members(alloc, spans, column)?;
    order.sort_by_key(|node| (keys.get(*node).copied(), *node))?;
    Ok(order)
}
