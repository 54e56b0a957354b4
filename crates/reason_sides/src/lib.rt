// 22: a curve for an edge that turns the ring on a side of it inside out, or changes what such a ring encloses.
#![tactic(auto)]

ghost use Rattle.std.specs.Prelude.{◌≡◌, ◌||◌, ◌+◌, ◌*◌, ◌<◌, ◌≤◌, nat_abs, ◌-ℤ◌, length};
ghost use Rattle.lists.specs.Tests.{same};
ghost use Rattle.lists.specs.Scans.{any_of};
ghost use Rattle.plane.specs.Points.{InRange};
ghost use Rattle.curves.specs.Curves.{Run, curve_of};
ghost use Rattle.curves.specs.Measures.{curve_area};
ghost use Rattle.map.specs.Limits.{max_edges};
ghost use Rattle.map.specs.Rows.{map_of};
ghost use Rattle.map.specs.Darts.{ring, among, arcs, piece_of};
ghost use Rattle.map.specs.Faces.{ring_area};
ghost use Rattle.map.specs.Reasons.{isolated_points, sides_change};
ghost use Rattle.map.specs.Loans.{lent_now};
ghost use Rattle.map_rows.specs.Rows.{EdgeRow, edge_map, edge_at, edges_of};
ghost use Rattle.lent_rows.specs.Lent.{placed, drawn};
ghost use Rattle.darts.specs.Positions.{dart_at};
ghost use Rattle.outcomes.specs.Outcomes.{Formed};
ghost use Rattle.piece_labels.specs.Labels.{Ended, Labelled};
ghost use Rattle.reason_sides.specs.Passing.{sign_changes, passes_over, start_passed, ring_passed};

use lent_rows::{Edges, Nodes};
use map::{Head, Map};
use plane::Point;

// ---- areas

// Whether the doubled area of the ring of p changes between positive and not positive where it loses so much.
fn area_changes(edges: Edges<'_>, p: usize, lost: i64) -> bool
    requires { (edges.count ≤ max_edges) × (p < edges.count * 2) }
    ensures { result ≡ sign_changes (ring_area (drawn edges.entry)
        (ring (drawn edges.entry) (dart_at edges.entry.rows.now p))) lost }
{
    let area = rings::ring_area(edges, p);
    (0 < area) != (lost < area)
}

// By how much the doubled area of edge row i's curve exceeds that of c.
fn area_lost(edges: &[i64], i: usize, c: &[i64]) -> i64
    requires { EdgeRow edges.now i × Run c.now }
    ensures { result ≡ curve_area (edge_at edges.now i).curve -ℤ curve_area (curve_of c.now) }
{
    curves::area_of(map_rows::curve_of(edges, i)) - curves::area_of(c)
}

// Whether the area of the ring on either side of edge row i changes so where the row gets the curve c; right only
// where these are two rings.
fn areas_change(edges: Edges<'_>, i: usize, c: &[i64]) -> bool
    requires { (edges.count ≤ max_edges) × (i < edges.count) × Run c.now }
    ensures { result ≡ sign_changes (ring_area (drawn edges.entry)
        (ring (drawn edges.entry) (dart_at edges.entry.rows.now (i * 2))))
        (curve_area (edge_at edges.entry.rows.now i).curve -ℤ curve_area (curve_of c.now))
        || sign_changes (ring_area (drawn edges.entry)
        (ring (drawn edges.entry) (dart_at edges.entry.rows.now (i * 2 + 1))))
        (curve_area (curve_of c.now) -ℤ curve_area (edge_at edges.entry.rows.now i).curve) }
{
    let lost = area_lost(edges.rows, i, c);
    area_changes(edges, i * 2, lost) | area_changes(edges, i * 2 + 1, -lost)
}

// ---- points

// Whether the curve a, as it becomes b, passes over a point.
fn passes_over(a: &[i64], b: &[i64], q: Point) -> bool
    requires { Run a.now × Run b.now × InRange q }
    ensures { result ≡ passes_over (curve_of a.now) (curve_of b.now) q }
{
    curves::odd_below(a, q) != curves::odd_below(b, q)
}

// Whether it passes over an isolated node.
fn node_passed(nodes: Nodes<'_>, a: &[i64], b: &[i64]) -> bool
    requires { Run a.now × Run b.now }
    ensures { result ≡ any_of (passes_over (curve_of a.now) (curve_of b.now))
        (isolated_points (placed nodes.entry)) }
{
    for k in 0..nodes.count {
        if map_rows::is_isolated(nodes.rows, k)
            && passes_over(a, b, map_rows::node_point(nodes.rows, k))
        {
            return true;
        }
    }
    false
}

// Whether the curve of edge row i, as it becomes c, passes over the point where edge row j starts.
fn passes_start(edges: &[i64], i: usize, c: &[i64], j: usize) -> bool
    requires { EdgeRow edges.now i × EdgeRow edges.now j × Run c.now }
    ensures { result ≡ passes_over (edge_at edges.now i).curve (curve_of c.now)
        (edge_at edges.now j).curve.first }
{
    let q = curves::point_at(map_rows::curve_of(edges, j), 0);
    passes_over(map_rows::curve_of(edges, i), c, q)
}

// Whether edge row j starts at a node where edge row i starts or ends.
fn starts_at_end(edges: &[i64], i: usize, j: usize) -> bool
    requires { EdgeRow edges.now i × EdgeRow edges.now j }
    ensures { result ≡ same (edge_at edges.now j).start (edge_at edges.now i).start
        || same (edge_at edges.now j).start (edge_at edges.now i).end }
{
    let start = edges[j * map::EDGE_WIDTH + map::START];
    (start == edges[i * map::EDGE_WIDTH + map::START])
        | (start == edges[i * map::EDGE_WIDTH + map::END])
}

// Whether it passes over the start of an edge that starts at no node of edge row i.
fn any_start_passed(edges: Edges<'_>, i: usize, c: &[i64]) -> bool
    requires { (i < edges.count) × Run c.now }
    ensures { result ≡ any_of (start_passed (edge_at edges.entry.rows.now i) (curve_of c.now))
        (edges_of edges.entry.rows.now edges.entry.count) }
{
    for j in 0..edges.count {
        if !starts_at_end(edges.rows, i, j) & passes_start(edges.rows, i, c, j) {
            return true;
        }
    }
    false
}

// Whether edge rows i and j start on one piece.
fn same_piece(nodes: Nodes<'_>, edges: Edges<'_>, labels: &[u16], i: usize, j: usize) -> bool
    requires { Ended nodes.rows.now nodes.count edges.rows.now edges.count × (i < edges.count) × (j < edges.count)
        × Labelled (arcs (drawn edges)) nodes.rows.now nodes.count labels.now }
    ensures { result ≡ same (piece_of (drawn edges.entry) (edge_at edges.entry.rows.now j).start)
        (piece_of (drawn edges.entry) (edge_at edges.entry.rows.now i).start) }
{
    let start = edges.rows[j * map::EDGE_WIDTH + map::START];
    let own = edges.rows[i * map::EDGE_WIDTH + map::START];
    piece_labels::label_of(nodes.rows, nodes.count, labels, start)
        == piece_labels::label_of(nodes.rows, nodes.count, labels, own)
}

// Whether it passes over the start of edge row j, the lowest of a ring on another piece.
fn ring_passed(
    nodes: Nodes<'_>,
    edges: Edges<'_>,
    labels: &[u16],
    i: usize,
    c: &[i64],
    j: usize,
) -> bool
    requires { Ended nodes.rows.now nodes.count edges.rows.now edges.count × (i < edges.count)
        × (j < edges.count) × Run c.now
        × Labelled (arcs (drawn edges)) nodes.rows.now nodes.count labels.now }
    ensures { result ≡ ring_passed (drawn edges.entry) (edge_at edges.entry.rows.now i)
        (curve_of c.now) (edge_at edges.entry.rows.now j) }
{
    passes_start(edges.rows, i, c, j)
        && !same_piece(nodes, edges, labels, i, j)
        && (rings::is_lowest(edges, j * 2) | rings::is_lowest(edges, j * 2 + 1))
}

// Whether it passes over the start of some such edge.
fn any_ring_passed(nodes: Nodes<'_>, edges: Edges<'_>, labels: &[u16], i: usize, c: &[i64]) -> bool
    requires { Ended nodes.rows.now nodes.count edges.rows.now edges.count × (i < edges.count) × Run c.now
        × Labelled (arcs (drawn edges)) nodes.rows.now nodes.count labels.now }
    ensures { result ≡ any_of (ring_passed (drawn edges.entry) (edge_at edges.entry.rows.now i)
        (curve_of c.now)) (edges_of edges.entry.rows.now edges.entry.count) }
{
    for j in 0..edges.count {
        if ring_passed(nodes, edges, labels, i, c, j) {
            return true;
        }
    }
    false
}

// The same, with room for the labels.
fn any_passed_with(
    nodes: Nodes<'_>,
    edges: Edges<'_>,
    labels: &mut [u16],
    i: usize,
    c: &[i64],
) -> bool
    requires { Ended nodes.rows.now nodes.count edges.rows.now edges.count × (i < edges.count) × Run c.now
        × (length labels.old ≡ nodes.count) }
    ensures { result ≡ any_of (ring_passed (drawn edges.entry) (edge_at edges.entry.rows.now i)
        (curve_of c.now)) (edges_of edges.entry.rows.now edges.entry.count) }
{
    piece_labels::label_rows(nodes.rows, nodes.count, edges.rows, edges.count, labels);
    any_ring_passed(nodes, edges, labels, i, c)
}

// The same, with a look at all starts first: on most maps none is passed over, and no piece need be known.
fn other_piece_passed(nodes: Nodes<'_>, edges: Edges<'_>, i: usize, c: &[i64]) -> bool
    requires { Ended nodes.rows.now nodes.count edges.rows.now edges.count × (i < edges.count) × Run c.now }
    ensures { result ≡ any_of (ring_passed (drawn edges.entry) (edge_at edges.entry.rows.now i)
        (curve_of c.now)) (edges_of edges.entry.rows.now edges.entry.count) }
{
    if !any_start_passed(edges, i, c) {
        return false;
    }
    let mut labels = [0u16; Map::NODES];
    any_passed_with(nodes, edges, &mut labels[..nodes.count], i, c)
}

// ---- both sides

// Whether one face lies on both sides of edge row i.
fn one_face(edges: &[i64], i: usize) -> bool
    requires { EdgeRow edges.now i }
    ensures { result ≡ same (edge_at edges.now i).left (edge_at edges.now i).right }
{
    edges[i * map::EDGE_WIDTH + map::LEFT] == edges[i * map::EDGE_WIDTH + map::RIGHT]
}

// Whether e and -e of edge row i lie on one ring. A ring bears one face, so that most often none is walked.
fn on_one_ring(nodes: &[i64], edges: &[i64], faces: &[i64], h: Head, i: usize) -> bool
    requires { Formed nodes.now edges.now faces.now h × (i < nat_abs h.edges) }
    ensures { result
        ≡ among (ring (edge_map edges.now (nat_abs h.edges)) (dart_at edges.now (i * 2)))
        (dart_at edges.now (i * 2 + 1)) }
{
    let drawn = Edges {
        rows: edges,
        count: head::to_usize(h.edges),
    };
    one_face(edges, i) && rings::on_ring(drawn, i * 2, i * 2 + 1)
}

// Whether the curve c for edge row i changes the ring on a side of it: its area between positive and not positive, or
// what it encloses of the isolated nodes and of the rings on other pieces. Where e and -e share a ring nothing changes.
pub fn sides_change(
    nodes: &[i64],
    edges: &[i64],
    faces: &[i64],
    h: Head,
    i: usize,
    c: &[i64],
) -> bool
    requires { Formed nodes.now edges.now faces.now h × (i < nat_abs h.edges) × Run c.now }
    ensures { result ≡ sides_change (map_of (lent_now nodes.now edges.now faces.now h))
        (edge_at edges.now i).number (curve_of c.now) }
{
    let n = head::to_usize(h.nodes);
    let e = head::to_usize(h.edges);
    let placed = Nodes {
        rows: nodes,
        count: n,
    };
    let drawn = Edges {
        rows: edges,
        count: e,
    };
    !on_one_ring(nodes, edges, faces, h, i)
        && (areas_change(drawn, i, c)
            || node_passed(placed, map_rows::curve_of(edges, i), c)
            || other_piece_passed(placed, drawn, i, c))
}
