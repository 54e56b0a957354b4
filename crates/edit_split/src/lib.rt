// Kinds 7 and 8: an edge split.
#![tactic(auto)]

ghost use Rattle.std.specs.Prelude.{◌≡◌, true, ◌++◌, ◌+◌, ◌*◌, ◌≤◌, ◌<◌, pos, nat_abs, length};
ghost use Rattle.std.specs.Int.Signed.{non_neg};
ghost use Rattle.plane.specs.Points.{InRange};
ghost use Rattle.curves.specs.Curves.{points, point, max_points};
ghost use Rattle.curves.specs.Tests.{on_curve};
ghost use Rattle.curves.specs.Edits.{front, back};
ghost use Rattle.curve_edits.specs.Lines.{line_of};
ghost use Rattle.map.specs.Limits.{max_edges, edge_width};
ghost use Rattle.map.specs.Rows.{counts};
ghost use Rattle.map.specs.Reasons.{first_reason};
ghost use Rattle.map.specs.Refusals.{refusal_of};
ghost use Rattle.map.specs.Loans.{lent_now};
ghost use Rattle.map_rows.specs.Rows.{EdgeRow, edge_at};
ghost use Rattle.map_rows.specs.Cells.{cells_of};
ghost use Rattle.head.specs.Heads.{Counted, changed_head, sizes_in, room_at};
ghost use Rattle.outcomes.specs.Outcomes.{Formed, edited, done_of, outcome_now};
ghost use Rattle.outcomes.specs.Variants.{split_ticket, own_or_next};
ghost use Rattle.edit_split.specs.Cuts.{led_to_halves, start_incidence, end_incidence, start_half_written, cut_row};
ghost use Rattle.edit_split.specs.Cuts.{CuttableEdge, CuttableRow, point_reasons, split_numbers, end_number};

use curve_edits::Line;
use lent_rows::Nodes;
use map::{Counts, Head, Refusal, Variant};
use map_rows::Incidence;
use outcomes::Carried;
use plane::Point;

// ---- an edge row cut in two

// Edge row i up to p, and from p on.
fn start_line(edges: &[i64], i: usize, p: Point) -> Line
    requires { EdgeRow edges.now i × InRange p }
    ensures { result ≡ line_of (points (front p (edge_at edges.now i).curve)) }
{
    curve_edits::front_of(map_rows::curve_of(edges, i), p)
}

fn end_line(edges: &[i64], i: usize, p: Point) -> Line
    requires { EdgeRow edges.now i × InRange p }
    ensures { result ≡ line_of (points (back p (edge_at edges.now i).curve)) }
{
    curve_edits::back_of(map_rows::curve_of(edges, i), p)
}

// What led to row i leads to the half a, and what led to its reverse to the reverse of b.
fn lead_to_halves(edges: &mut [i64], e: usize, i: usize, a: i64, b: i64)
    requires { EdgeRow edges.old i × (e * edge_width ≤ length edges.old) × (i ≤ max_edges)
        × (non_neg b ≡ true) }
    ensures { edges.new ≡ led_to_halves edges.old e i a b }
{
    let d = darts::dart_at(edges, i * 2);
    let back = darts::dart_at(edges, i * 2 + 1);
    links::redirect(edges, e, d, a);
    links::redirect(edges, e, back, links::negated(b));
}

// The numbers of the half a from the start of row i to the new node, and of the half b from there to its end.
fn start_half(edges: &[i64], i: usize, node: i64, a: i64, b: i64) -> Incidence
    requires { i * edge_width + edge_width ≤ length edges.now }
    ensures { result ≡ start_incidence edges.now i node a b }
{
    let start = edges[i * map::EDGE_WIDTH + map::START];
    let next_right = edges[i * map::EDGE_WIDTH + map::NEXT_RIGHT];
    let left = edges[i * map::EDGE_WIDTH + map::LEFT];
    let right = edges[i * map::EDGE_WIDTH + map::RIGHT];
    Incidence {
        number: a,
        start,
        end: node,
        next_left: b,
        next_right,
        left,
        right,
    }
}

fn end_half(edges: &[i64], i: usize, node: i64, a: i64, b: i64) -> Incidence
    requires { (i * edge_width + edge_width ≤ length edges.now) × (non_neg a ≡ true) }
    ensures { result ≡ end_incidence edges.now i node a b }
{
    let end = edges[i * map::EDGE_WIDTH + map::END];
    let next_left = edges[i * map::EDGE_WIDTH + map::NEXT_LEFT];
    let left = edges[i * map::EDGE_WIDTH + map::LEFT];
    let right = edges[i * map::EDGE_WIDTH + map::RIGHT];
    Incidence {
        number: b,
        start: node,
        end,
        next_left,
        next_right: links::negated(a),
        left,
        right,
    }
}

// The half at the start in the place of row i or, where that number goes, last.
fn write_start_half(edges: &mut [i64], e: usize, i: usize, how: Variant, s: Incidence, l: Line)
    requires { (i < e) × (e * edge_width ≤ length edges.old) × (l.count ≤ max_points) }
    ensures { edges.new ≡ start_half_written how edges.old e i (cells_of s l) }
{
    match how {
        Variant::Mod => map_rows::write_edge(edges, i, s, l),
        Variant::New => {
            tables::remove_row(edges, map::EDGE_WIDTH, e, i);
            map_rows::write_edge(edges, e - 1, s, l);
        }
    }
}

// The two halves a and b of edge row i, with the links that led to it, at the new node; b's row goes last.
fn cut_row(edges: &mut [i64], e: usize, i: usize, node: i64, p: Point, how: Variant, a: i64, b: i64)
    requires { CuttableRow edges.old e i p a b }
    ensures { edges.new ≡ cut_row edges.old e i node p how a b }
{
    let front = start_line(edges, i, p);
    let back = end_line(edges, i, p);
    lead_to_halves(edges, e, i, a, b);
    let first = start_half(edges, i, node, a, b);
    let second = end_half(edges, i, node, a, b);
    write_start_half(edges, e, i, how, first, front);
    map_rows::write_edge(edges, e, second, back);
}

// ---- reasons

// The point lies on the curve of edge row i.
fn lies_on(edges: &[i64], i: usize, p: Point) -> bool
    requires { EdgeRow edges.now i × InRange p }
    ensures { result ≡ on_curve (edge_at edges.now i).curve p }
{
    reason_curves::on_curve(map_rows::curve_of(edges, i), p)
}

// 5, 10 and 13, against the point, of edge row i.
fn check_point(nodes: Nodes<'_>, edges: &[i64], i: usize, x: i64, y: i64) -> Result<(), Refusal>
    requires { EdgeRow edges.now i }
    ensures { refusal_of result ≡ first_reason (point_reasons nodes.entry.rows.now nodes.entry.count
        edges.now i x y) }
{
    if !reason_curves::in_range(x, y) {
        return Err(Refusal::OutOfRange);
    }
    let p = reason_curves::point_of(x, y);
    if reason_curves::node_at(nodes, nodes.count, p) {
        return Err(Refusal::PointTaken);
    }
    if !lies_on(edges, i, p) {
        return Err(Refusal::NotOnCurve);
    }
    Ok(())
}

// The numbers that are given: a node's, and one edge's or two.
fn split_numbers(how: Variant) -> Counts
    ensures { result ≡ split_numbers how }
{
    match how {
        Variant::New => Counts {
            nodes: 1,
            edges: 2,
            faces: 0,
        },
        Variant::Mod => head::NODE_AND_EDGE,
    }
}

// From 5 on, against a split of edge row i.
fn check_split(
    nodes: &[i64],
    edges: &[i64],
    faces: &[i64],
    h: Head,
    how: Variant,
    i: usize,
    x: i64,
    y: i64,
) -> Result<(), Refusal>
    requires { Formed nodes.now edges.now faces.now h × (i < nat_abs h.edges) }
    ensures { refusal_of result ≡ first_reason (point_reasons nodes.now (nat_abs h.nodes) edges.now i x y
        ++ room_at (sizes_in nodes.now edges.now faces.now) h (counts 1 1 0)
        (split_numbers how)) }
{
    let placed = Nodes {
        rows: nodes,
        count: head::to_usize(h.nodes),
    };
    check_point(placed, edges, i, x, y)?;
    head::check_room(
        head::sizes_of(nodes, edges, faces),
        h,
        head::NODE_AND_EDGE,
        split_numbers(how),
    )
}

// ---- the split

// The number of the half at the end; that of the half at the start is the own one or the next.
fn end_number(h: Head, how: Variant) -> i64
    requires { Counted h }
    ensures { result ≡ pos (end_number h how) }
{
    let next = h.next_edge;
    match how {
        Variant::New => next + 1,
        Variant::Mod => next,
    }
}

// The head with a node and an edge more, and their numbers given.
fn after_split(h: Head, how: Variant) -> Head
    requires { Counted h }
    ensures { result ≡ changed_head h (counts 1 1 0) (counts 0 0 0) (split_numbers how) }
{
    head::changed(h, head::NODE_AND_EDGE, head::NONE, split_numbers(how))
}

// The edge of row i cut at the point, where the new node stands.
fn cut_edge(edges: &mut [i64], h: Head, how: Variant, i: usize, x: i64, y: i64)
    requires { CuttableEdge edges.old h i x y }
    ensures { edges.new ≡ cut_row edges.old (nat_abs h.edges) i h.next_node
        (point x y) how (pos (own_or_next h how (edge_at edges.old i).number)) (pos (end_number h how)) }
{
    let node = h.next_node;
    let e = head::to_usize(h.edges);
    let p = reason_curves::point_of(x, y);
    let a = outcomes::own_or_next(edges, h, how, i);
    let b = end_number(h, how);
    cut_row(edges, e, i, node, p, how, a, b);
}

// Kinds 7 and 8 on the edge of row i.
fn split_at_row(
    nodes: &mut [i64],
    edges: &mut [i64],
    faces: &[i64],
    h: Head,
    how: Variant,
    i: usize,
    x: i64,
    y: i64,
) -> Result<Carried, Refusal>
    requires { Formed nodes.old edges.old faces.now h × (i < nat_abs h.edges) }
    ensures { outcome_now nodes.new edges.new faces.now (done_of h result)
        ≡ edited (lent_now nodes.old edges.old faces.now h)
        (split_ticket how (pos (edge_at edges.old i).number) x y) }
{
    check_split(nodes, edges, faces, h, how, i, x, y)?;
    let node = h.next_node;
    cut_edge(edges, h, how, i, x, y);
    map_rows::write_node(nodes, head::to_usize(h.nodes), node, x, y, -1);
    Ok(Carried {
        head: after_split(h, how),
        value: node,
    })
}

// Cuts an edge in two at a point of its curve, where a new node stands, or answers the first reason against it.
pub fn split_edge(
    nodes: &mut [i64],
    edges: &mut [i64],
    faces: &[i64],
    h: Head,
    how: Variant,
    edge: i64,
    x: i64,
    y: i64,
) -> Result<Carried, Refusal>
    requires { Formed nodes.old edges.old faces.now h }
    ensures { outcome_now nodes.new edges.new faces.now (done_of h result)
        ≡ edited (lent_now nodes.old edges.old faces.now h)
        (split_ticket how edge x y) }
{
    let e = head::to_usize(h.edges);
    let Some(i) = tables::find_row(edges, map::EDGE_WIDTH, e, edge) else {
        return Err(Refusal::NoSuchRow);
    };
    split_at_row(nodes, edges, faces, h, how, i, x, y)
}
