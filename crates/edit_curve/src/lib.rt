// Kind 6: another curve for an edge.
#![tactic(auto)]

ghost use Rattle.std.specs.Prelude.{◌≡◌, true, ◌*◌, ◌≤◌, ◌<◌, pos, nat_abs};
ghost use Rattle.std.proofs.Math.Seq.{paste};
ghost use Rattle.std.specs.Int.Signed.{non_neg};
ghost use Rattle.lists.specs.Tables.{place};
ghost use Rattle.tables.specs.Tables.{same_z, column};
ghost use Rattle.curves.specs.Curves.{Run, curve_of};
ghost use Rattle.map.specs.Rows.{map_of, edge_cells, has_node};
ghost use Rattle.map.specs.Edits.{with_curve};
ghost use Rattle.map.specs.Reasons.{first_reason, change_geom_reasons};
ghost use Rattle.map.specs.Refusals.{refusal_of};
ghost use Rattle.map.specs.Tickets.{ChangeEdgeGeom};
ghost use Rattle.map.specs.Loans.{lent_now};
ghost use Rattle.map_rows.specs.Rows.{edge_at, EdgeRow};
ghost use Rattle.lent_rows.specs.Lent.{placed};
ghost use Rattle.outcomes.specs.Outcomes.{Formed, edited, done_of, outcome_now};
ghost use Rattle.edge_rows.specs.Holds.{NodeEdgeTables};
ghost use Rattle.edit_curve.specs.Change.{taken_at, turn_reasons, change_reasons, changed_along, EndsAt};

use lent_rows::{Edges, Nodes};
use map::{Head, Refusal};
use map_rows::Incidence;
use outcomes::Carried;

// ---- the nodes of an edge row

// The node where an edge row starts.
fn start_of(edges: &[i64], i: usize) -> i64
    requires { EdgeRow edges.now i }
    ensures { result ≡ pos (edge_at edges.now i).start }
{
    edges[i * map::EDGE_WIDTH + map::START]
}

// The node where an edge row ends.
fn end_of(edges: &[i64], i: usize) -> i64
    requires { EdgeRow edges.now i }
    ensures { result ≡ pos (edge_at edges.now i).end }
{
    edges[i * map::EDGE_WIDTH + map::END]
}

// ---- the reasons

// A curve for the edge of row i leaves a node in the direction of another edge.
fn direction_is_taken(edges: Edges<'_>, i: usize, c: &[i64]) -> bool
    requires { (i < edges.count) × Run c.now }
    ensures { result ≡ taken_at edges.entry.rows.now edges.entry.count i c.now }
{
    let u = start_of(edges.rows, i);
    let v = end_of(edges.rows, i);
    reason_departures::direction_taken(edges, i, u, v, c)
}

// 11, 14, 23, 15, 24 and 19, against a curve for the edge of row i.
fn check_turns(nodes: Nodes<'_>, edges: Edges<'_>, i: usize, c: &[i64]) -> Result<(), Refusal>
    requires { (edges.count ≤ 2000) × (i < edges.count) × Run c.now }
    ensures { refusal_of result ≡ first_reason (turn_reasons nodes.entry.rows.now nodes.entry.count
        edges.entry.rows.now edges.entry.count i c.now) }
{
    if direction_is_taken(edges, i, c) {
        return Err(Refusal::DirectionTaken);
    }
    reason_curves::check_meeting(nodes, edges, i, c)?;
    if reason_departures::order_changes(edges, i, c) {
        return Err(Refusal::OrderChanges);
    }
    Ok(())
}

// From 7 on, but for 22, against a curve for the edge of row i, between node rows u and v.
fn check_change(
    nodes: &[i64],
    edges: &[i64],
    h: Head,
    i: usize,
    u: usize,
    v: usize,
    c: &[i64],
) -> Result<(), Refusal>
    requires { NodeEdgeTables nodes.now edges.now h × (i < nat_abs h.edges)
        × (u < nat_abs h.nodes) × (v < nat_abs h.nodes) × Run c.now }
    ensures { refusal_of result ≡ first_reason (change_reasons nodes.now edges.now h i u v
        c.now) }
{
    reason_curves::check_curve(nodes, u, v, c)?;
    let n = head::to_usize(h.nodes);
    let e = head::to_usize(h.edges);
    let placed = Nodes {
        rows: nodes,
        count: n,
    };
    let drawn = Edges {
        rows: edges,
        count: e,
    };
    check_turns(placed, drawn, i, c)
}

// From 7 on, against a curve for the edge of row i, between the nodes of rows u and v.
fn check_redraw(
    nodes: &[i64],
    edges: &[i64],
    faces: &[i64],
    h: Head,
    i: usize,
    u: usize,
    v: usize,
    c: &[i64],
) -> Result<(), Refusal>
    requires { Formed nodes.now edges.now faces.now h × (i < nat_abs h.edges)
        × EndsAt nodes.now edges.now h i u v × Run c.now }
    ensures { refusal_of result ≡ first_reason (change_geom_reasons
        (map_of (lent_now nodes.now edges.now faces.now h))
        (edge_at edges.now i).number (curve_of c.now)) }
{
    check_change(nodes, edges, h, i, u, v, c)?;
    if reason_sides::sides_change(nodes, edges, faces, h, i, c) {
        return Err(Refusal::SidesChange);
    }
    Ok(())
}

// ---- the curve written

// Edge row i with another curve.
fn write_curve(edges: &mut [i64], i: usize, c: &[i64])
    requires { EdgeRow edges.old i × Run c.now }
    ensures { edges.new ≡ paste edges.old (i * 32)
        (edge_cells (with_curve (curve_of c.now) (edge_at edges.old i))) 32 }
{
    let number = edges[i * map::EDGE_WIDTH];
    let start = edges[i * map::EDGE_WIDTH + map::START];
    let end = edges[i * map::EDGE_WIDTH + map::END];
    let next_left = edges[i * map::EDGE_WIDTH + map::NEXT_LEFT];
    let next_right = edges[i * map::EDGE_WIDTH + map::NEXT_RIGHT];
    let left = edges[i * map::EDGE_WIDTH + map::LEFT];
    let right = edges[i * map::EDGE_WIDTH + map::RIGHT];
    let row = Incidence {
        number,
        start,
        end,
        next_left,
        next_right,
        left,
        right,
    };
    map_rows::write_edge(edges, i, row, curve_edits::whole_of(c));
}

// Kind 6 along the curve on the edge of row i, between the nodes of rows u and v.
fn change_along(
    nodes: &[i64],
    edges: &mut [i64],
    faces: &[i64],
    h: Head,
    i: usize,
    u: usize,
    v: usize,
    c: &[i64],
) -> Result<Carried, Refusal>
    requires { Formed nodes.now edges.old faces.now h × (i < nat_abs h.edges)
        × EndsAt nodes.now edges.old h i u v × Run c.now }
    ensures { outcome_now nodes.now edges.new faces.now (done_of h result)
        ≡ changed_along (lent_now nodes.now edges.old faces.now h)
        (edge_at edges.old i).number (curve_of c.now) }
{
    check_redraw(nodes, edges, faces, h, i, u, v, c)?;
    write_curve(edges, i, c);
    Ok(Carried { head: h, value: 0 })
}

// Kind 6 on the edge of row i, between the nodes of rows u and v, by the points sent.
fn change_between(
    nodes: &[i64],
    edges: &mut [i64],
    faces: &[i64],
    h: Head,
    i: usize,
    u: usize,
    v: usize,
    sent: &[i64],
) -> Result<Carried, Refusal>
    requires { Formed nodes.now edges.old faces.now h × (i < nat_abs h.edges)
        × EndsAt nodes.now edges.old h i u v }
    ensures { outcome_now nodes.now edges.new faces.now (done_of h result)
        ≡ edited (lent_now nodes.now edges.old faces.now h)
        (ChangeEdgeGeom (pos (edge_at edges.old i).number) sent.now) }
{
    let line = reason_curves::read_curve(sent, head::most_points(h))?;
    let cells = line.cells;
    let n = line.count * 2;
    change_along(nodes, edges, faces, h, i, u, v, &cells[0..n])
}

// ---- rows looked up

// The row of a node that is there.
fn row_of(nodes: Nodes<'_>, node: i64) -> usize
    requires { (non_neg node ≡ true) × (has_node (placed nodes) (nat_abs node) ≡ true) }
    ensures { place (same_z node) 0 (column 4 nodes.entry.rows.now nodes.entry.count) ≡ Some result }
{
    tables::find_row(nodes.rows, map::NODE_WIDTH, nodes.count, node).unwrap_or(0)
}

// Kind 6 on the edge of row i.
fn change_at_row(
    nodes: &[i64],
    edges: &mut [i64],
    faces: &[i64],
    h: Head,
    i: usize,
    sent: &[i64],
) -> Result<Carried, Refusal>
    requires { Formed nodes.now edges.old faces.now h × (i < nat_abs h.edges) }
    ensures { outcome_now nodes.now edges.new faces.now (done_of h result)
        ≡ edited (lent_now nodes.now edges.old faces.now h)
        (ChangeEdgeGeom (pos (edge_at edges.old i).number) sent.now) }
{
    let n = head::to_usize(h.nodes);
    let placed = Nodes {
        rows: nodes,
        count: n,
    };
    let u = row_of(placed, start_of(edges, i));
    let v = row_of(placed, end_of(edges, i));
    change_between(nodes, edges, faces, h, i, u, v, sent)
}

// Gives an edge another curve, or answers the first reason against it.
pub fn change_curve(
    nodes: &[i64],
    edges: &mut [i64],
    faces: &[i64],
    h: Head,
    edge: i64,
    sent: &[i64],
) -> Result<Carried, Refusal>
    requires { Formed nodes.now edges.old faces.now h }
    ensures { outcome_now nodes.now edges.new faces.now (done_of h result)
        ≡ edited (lent_now nodes.now edges.old faces.now h)
        (ChangeEdgeGeom edge sent.now) }
{
    let e = head::to_usize(h.edges);
    let Some(i) = tables::find_row(edges, map::EDGE_WIDTH, e, edge) else {
        return Err(Refusal::NoSuchRow);
    };
    change_at_row(nodes, edges, faces, h, i, sent)
}
