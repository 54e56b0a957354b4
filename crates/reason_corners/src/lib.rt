// Corner faces of a new departure, and whether a new edge splits a face: before anything is written, the ring of the
// new edge is walked on the links as they would be.
#![tactic(auto)]

ghost use Rattle.std.specs.Prelude.{◌≡◌, true, false, not, cond, ℕ, suc, ◌+◌, ◌*◌, ◌≤◌, ◌<◌};
ghost use Rattle.lists.specs.Tests.{same};
ghost use Rattle.planar_maps.specs.Map.{fwd, bwd};
ghost use Rattle.tables.specs.Tables.{same_z};
ghost use Rattle.plane.specs.Points.{InRange};
ghost use Rattle.plane.specs.Directions.{way_to};
ghost use Rattle.curves.specs.Curves.{Run, curve_of, start_way};
ghost use Rattle.curves.specs.Edits.{course};
ghost use Rattle.map.specs.Limits.{max_edges, last_number};
ghost use Rattle.map.specs.Rows.{Map};
ghost use Rattle.map.specs.Darts.{next, ring, among};
ghost use Rattle.map.specs.Edits.{splits_face};
ghost use Rattle.map_rows.specs.Rows.{NodeRow, node_at};
ghost use Rattle.darts.specs.Positions.{way_with};
ghost use Rattle.links.specs.Linking.{first_met};
ghost use Rattle.reason_corners.specs.CornerFaces.{corner_cell};
ghost use Rattle.reason_corners.specs.Drawing.{drawn_dart, edges_numbered, departing, end_corner, first_of, Linkable};
ghost use Rattle.reason_corners.specs.Drawing.{Joined};

use darts::Step;
use lent_rows::Edges;

// The corner face of v: left of the first existing departure met turning clockwise from it; at an isolated node, the
// containing face.
pub fn corner_face(nodes: &[i64], i: usize, edges: Edges<'_>, v: Step) -> i64
    requires { NodeRow nodes.now i × (InRange v.from) × (InRange v.to) }
    ensures { result ≡ corner_cell nodes.now i edges.entry.rows.now edges.entry.count (way_to v.from v.to) }
{
    let none = edges.count * 2;
    match links::first_clockwise(
        edges,
        edges.count,
        &edges.rows[0..0],
        nodes[i * map::NODE_WIDTH],
        v,
        none,
        none,
    ) {
        Some(p) => darts::dart_cell(edges.rows, p, map::LEFT),
        None => nodes[i * map::NODE_WIDTH + map::NODE_FACE],
    }
}

// Whether the corner faces of the two ends of a curve from node row u to node row v differ.
pub fn corners_differ(nodes: &[i64], u: usize, v: usize, edges: Edges<'_>, c: &[i64]) -> bool
    requires { NodeRow nodes.now u × NodeRow nodes.now v × Run c.now }
    ensures { result ≡ not (same_z
        (corner_cell nodes.now u edges.entry.rows.now edges.entry.count
        (start_way (course false (curve_of c.now))))
        (corner_cell nodes.now v edges.entry.rows.now edges.entry.count
        (start_way (course true (curve_of c.now))))) }
{
    let start = corner_face(nodes, u, edges, darts::first_step(c, false));
    let end = corner_face(nodes, v, edges, darts::first_step(c, true));
    start != end
}

// Where a new edge would be linked in: the departures met clockwise from its two ends, by position. Its own are 2 e and
// 2 e + 1 for the row e. In 16 bits, as the walk holds them.
#[derive(Clone, Copy)]
struct Corners {
    start: u16,
    end: u16,
}

// The first departure from the node met clockwise from the curve, or from its reverse.
fn corner(edges: Edges<'_>, c: &[i64], back: bool, node: i64) -> Option<usize>
    requires { (edges.count ≤ max_edges) × Run c.now }
    ensures { result ≡ first_met (way_with edges.entry.rows.now edges.entry.count c.now)
        (start_way (course back (curve_of c.now)))
        (departing edges.entry.rows.now edges.entry.count node) }
{
    let none = edges.count * 2;
    links::first_clockwise(
        edges,
        edges.count,
        c,
        node,
        darts::first_step(c, back),
        none,
        none,
    )
}

// The first one met clockwise from the new edge's end where q is the first of the others and the new edge itself starts
// there.
fn end_of_loop(edges: Edges<'_>, q: usize, c: &[i64]) -> usize
    requires { (edges.count ≤ max_edges) × (q < edges.count * 2) × Run c.now }
    ensures { result ≡ first_of (way_with edges.entry.rows.now edges.entry.count c.now)
        (start_way (course true (curve_of c.now))) q (edges.entry.count * 2) }
{
    let v = darts::first_step(c, true);
    let own = darts::first_step(c, false);
    let there = darts::step_at(edges.rows, q);
    let first = darts::before(own, v);
    let under = darts::before(there, v);
    let late = darts::before(there, own);
    if (first & !under) | (late & (first | !under)) {
        edges.count * 2
    } else {
        q
    }
}

// Where the end is linked in, once the start is.
fn end_corner(edges: Edges<'_>, c: &[i64], from: i64, to: i64) -> usize
    requires { (edges.count ≤ max_edges) × Run c.now }
    ensures { result ≡ end_corner edges.entry.rows.now edges.entry.count c.now from to }
{
    let found = corner(edges, c, true, to);
    if from != to {
        return found.unwrap_or(edges.count * 2 + 1);
    }
    match found {
        Some(q) => end_of_loop(edges, q, c),
        None => edges.count * 2,
    }
}

// The position q, and `new` for `old`.
fn instead(q: u16, old: u16, new: u16) -> u16
    ensures { result ≡ cond (same q old) new q }
{
    if q == old { new } else { q }
}

// What would follow the directed edge at p with the new edge linked in.
fn drawn_next(edges: Edges<'_>, k: Corners, p: u16) -> u16
    requires { Linkable edges.rows.now edges.count k × (p < edges.count * 2 + 2) }
    ensures { (result < edges.entry.count * 2 + 2)
        × ((new : ℕ) (m : Map)
        → Joined edges.entry.rows.now edges.entry.count k.start k.end new m
        → drawn_dart edges.entry.rows.now edges.entry.count new result
        ≡ next m (drawn_dart edges.entry.rows.now edges.entry.count new p)) }
{
    let own = (edges.count * 2) as u16;
    if p == own {
        return k.end;
    }
    if p == own + 1 {
        return instead(k.start, k.end, own + 1);
    }
    let q = instead(
        darts::next_position(edges.rows, edges.count, p),
        k.start,
        own,
    );
    instead(q, k.end, own + 1)
}

// Whether the new edge and its reverse would lie on different rings, linked in at these corners.
fn rings_differ(edges: Edges<'_>, k: Corners) -> bool
    requires { Linkable edges.rows.now edges.count k }
    ensures { (new : ℕ) (m : Map)
        → Joined edges.entry.rows.now edges.entry.count k.start k.end new m
        → result ≡ not (among (ring m (fwd new)) (bwd new)) }
{
    let own = (edges.count * 2) as u16;
    let mut p = own;
    for n in 0..edges.count * 2 + 2 {
        if p == own + 1 {
            return false;
        }
        p = drawn_next(edges, k, p);
        if p == own {
            return true;
        }
    }
    true
}

// Whether a new edge with the curve c from node row u to node row v would lie on another ring than its reverse. Its
// number makes no difference: here it is one past the last.
pub fn splits_face(nodes: &[i64], edges: Edges<'_>, u: usize, v: usize, c: &[i64]) -> bool
    requires { NodeRow nodes.now u × NodeRow nodes.now v × (edges.count ≤ max_edges) × Run c.now }
    ensures { result ≡ splits_face (node_at nodes.now u).number (node_at nodes.now v).number
        (curve_of c.now)
        (edges_numbered edges.entry.rows.now edges.entry.count (suc last_number)) }
{
    let from = nodes[u * map::NODE_WIDTH];
    let to = nodes[v * map::NODE_WIDTH];
    let start = corner(edges, c, false, from).unwrap_or(edges.count * 2) as u16;
    let end = end_corner(edges, c, from, to) as u16;
    rings_differ(edges, Corners { start, end })
}
