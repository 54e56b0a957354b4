// The tests behind the reasons that look at points and curves alone: 5 to 8, 10, 14, 23, 15 and 24.
#![tactic(auto)]

ghost use Rattle.std.specs.Prelude.{◌≡◌, true, not, ◌&&◌, ◌≤◌, IfOk};
ghost use Rattle.lists.specs.Tests.{same};
ghost use Rattle.lists.specs.Scans.{any_of};
ghost use Rattle.lists.specs.Tables.{table};
ghost use Rattle.plane.specs.Points.{InRange, same_point};
ghost use Rattle.curves.specs.Curves.{Run, coordinate, curve_of, last_point, point, points, max_points};
ghost use Rattle.curve_edits.specs.Lines.{line_of};
ghost use Rattle.curves.specs.Tests.{on_curve, graver, meeting};
ghost use Rattle.bounding_boxes.specs.Extents.{extent_of};
ghost use Rattle.map.specs.Reasons.{first_reason, edge_through, is_end, node_inside, edge_meeting, contact_reason};
ghost use Rattle.map.specs.Reasons.{meeting_reasons, sent_reasons, curve_in};
ghost use Rattle.map.specs.Refusals.{refusal_of};
ghost use Rattle.map_rows.specs.Rows.{NodeRow, EdgeRow, node_at, edge_at};
ghost use Rattle.lent_rows.specs.Lent.{placed, drawn};
ghost use Rattle.reason_curves.specs.Sent.{curve_reasons_at, edges_but};

use bounding_boxes::Extent;
use curve_edits::Line;
use lent_rows::{Edges, Nodes};
use map::{Map, Refusal};
use plane::{Contact, Point};

// ---- 5: coordinate out of range

// Whether both coordinates are in range.
pub fn in_range(x: i64, y: i64) -> bool
    ensures { result ≡ (coordinate x && coordinate y) }
{
    (0..=Map::COORDINATE).contains(&x) && (0..=Map::COORDINATE).contains(&y)
}

// A point of coordinates in range.
pub fn point_of(x: i64, y: i64) -> Point
    requires { (coordinate x && coordinate y) ≡ true }
    ensures { (result ≡ point x y) × InRange result }
{
    Point {
        x: x as u64,
        y: y as u64,
    }
}

// The first point of a curve.
fn first_point(c: &[i64]) -> Point
    requires { Run c.now }
    ensures { (result ≡ (curve_of c.now).first) × InRange result }
{
    curves::point_at(c, 0)
}

// The last point of a curve.
fn last_point(c: &[i64]) -> Point
    requires { Run c.now }
    ensures { (result ≡ last_point (curve_of c.now)) × InRange result }
{
    curves::point_at(c, curves::point_count(c) - 1)
}

// ---- 5 and 6: the points sent

// Reads the curve of a ticket, without surplus points: 5, for at most so many points, and 6 go by the points sent, all
// that comes after by the points left.
pub fn read_curve(sent: &[i64], most: usize) -> Result<Line, Refusal>
    requires { most ≤ max_points }
    ensures refused { refusal_of result ≡ first_reason (sent_reasons most sent.now) }
    ensures read { IfOk result (λ l. l ≡ line_of (points (curve_in sent.now))) }
{
    if !curves::is_run(sent, most) {
        return Err(Refusal::OutOfRange);
    }
    if !curves::neighbours_differ(sent) {
        return Err(Refusal::EqualNeighbours);
    }
    Ok(curve_edits::without_surplus(sent))
}

// ---- 7 and 8: a curve from node row u to node row v

// Whether the curve runs from the point of node row u to that of node row v.
fn ends_on(nodes: &[i64], u: usize, v: usize, c: &[i64]) -> bool
    requires { NodeRow nodes.now u × NodeRow nodes.now v × Run c.now }
    ensures { result ≡ (same_point (curve_of c.now).first (node_at nodes.now u).at
        && same_point (last_point (curve_of c.now)) (node_at nodes.now v).at) }
{
    first_point(c) == map_rows::node_point(nodes, u)
        && last_point(c) == map_rows::node_point(nodes, v)
}

// 7 and 8, against a curve from node row u to node row v.
pub fn check_curve(nodes: &[i64], u: usize, v: usize, c: &[i64]) -> Result<(), Refusal>
    requires { NodeRow nodes.now u × NodeRow nodes.now v × Run c.now }
    ensures { refusal_of result ≡ first_reason (curve_reasons_at (curve_of c.now)
        (node_at nodes.now u).at (node_at nodes.now v).at) }
{
    if !curves::is_simple(c) {
        return Err(Refusal::NotSimple);
    }
    if !ends_on(nodes, u, v, c) {
        return Err(Refusal::EndsDiffer);
    }
    Ok(())
}

// ---- 10: another node at the point, or an edge through it

// Whether a node but that of row `own` lies on the point.
pub fn node_at(nodes: Nodes<'_>, own: usize, p: Point) -> bool
    requires { InRange p }
    ensures { result ≡ any_of (λ i. not (same i own) && same_point (node_at nodes.entry.rows.now i).at p)
        (table (λ i. i) 0 nodes.entry.count) }
{
    for i in 0..nodes.count {
        if i != own && map_rows::node_point(nodes.rows, i) == p {
            return true;
        }
    }
    false
}

// Whether the curve passes through the point.
pub fn on_curve(c: &[i64], p: Point) -> bool
    requires { Run c.now × InRange p }
    ensures { result ≡ on_curve (curve_of c.now) p }
{
    curves::first_place(c, p).is_some()
}

// Whether an edge passes through the point.
pub fn edge_through(edges: Edges<'_>, p: Point) -> bool
    requires { InRange p }
    ensures { result ≡ edge_through (drawn edges.entry) p }
{
    for i in 0..edges.count {
        if on_curve(map_rows::curve_of(edges.rows, i), p) {
            return true;
        }
    }
    false
}

// ---- 14: a node inside the curve. 23, 15, 24: the curve meets another edge but in common ends

// Whether the point is an end of the curve.
fn is_end(c: &[i64], p: Point) -> bool
    requires { Run c.now × InRange p }
    ensures { result ≡ is_end (curve_of c.now) p }
{
    p == first_point(c) || p == last_point(c)
}

// Whether a node lies on the curve and is no end of it.
fn node_inside(nodes: Nodes<'_>, c: &[i64]) -> bool
    requires { Run c.now }
    ensures { result ≡ node_inside (placed nodes.entry) (curve_of c.now) }
{
    for i in 0..nodes.count {
        let p = map_rows::node_point(nodes.rows, i);
        if on_curve(c, p) && !is_end(c, p) {
            return true;
        }
    }
    false
}

// The graver of what was found so far and of how the curve c, of extent e, meets that of edge row i; extents that lie
// apart show that it does not.
fn row_meeting(found: Contact, edges: &[i64], i: usize, e: Extent, c: &[i64]) -> Contact
    requires { EdgeRow edges.now i × Run c.now × (e ≡ extent_of (curve_of c.now)) }
    ensures { result ≡ graver found (meeting (curve_of c.now) (edge_at edges.now i).curve) }
{
    let d = map_rows::curve_of(edges, i);
    if e.lies_apart(bounding_boxes::extent_of(d)) {
        return found;
    }
    found.max(curves::curves_meeting(c, d))
}

// The gravest that the curve does with an edge but that of row `own`.
fn edge_meeting(edges: Edges<'_>, own: usize, c: &[i64]) -> Contact
    requires { Run c.now }
    ensures { result ≡ edge_meeting (edges_but edges.entry.rows.now edges.entry.count own) (curve_of c.now) }
{
    let e = bounding_boxes::extent_of(c);
    let mut found = Contact::None;
    for i in 0..edges.count {
        if i != own {
            found = row_meeting(found, edges.rows, i, e, c);
        }
    }
    found
}

// What was found as a refusal.
fn check_contact(k: Contact) -> Result<(), Refusal>
    ensures { refusal_of result ≡ contact_reason k }
{
    match k {
        Contact::None => Ok(()),
        Contact::Touch => Err(Refusal::Touches),
        Contact::Crossing => Err(Refusal::Crosses),
        Contact::Stretch => Err(Refusal::Overlaps),
    }
}

// 14, and the one of 23, 15 and 24 that is found, against a curve of edge row `own`.
pub fn check_meeting(
    nodes: Nodes<'_>,
    edges: Edges<'_>,
    own: usize,
    c: &[i64],
) -> Result<(), Refusal>
    requires { Run c.now }
    ensures { refusal_of result ≡ first_reason (meeting_reasons (placed nodes.entry)
        (edges_but edges.entry.rows.now edges.entry.count own) (curve_of c.now)) }
{
    if node_inside(nodes, c) {
        return Err(Refusal::NodeInside);
    }
    check_contact(edge_meeting(edges, own, c))
}
