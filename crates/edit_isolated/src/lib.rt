// Kinds 4 and 5: an edge added between two isolated nodes, and an isolated edge removed.
#![tactic(auto)]

ghost use Rattle.std.specs.Prelude.{◌≡◌, true, not, ◌&&◌, ◌||◌, ◌<◌, pos, nat_abs};
ghost use Rattle.std.proofs.Math.Option.{get_or};
ghost use Rattle.lists.specs.Tests.{same};
ghost use Rattle.lists.specs.Scans.{is_some};
ghost use Rattle.curves.specs.Curves.{Run, curve_of};
ghost use Rattle.map.specs.Reasons.{first_reason};
ghost use Rattle.map.specs.Refusals.{refusal_of};
ghost use Rattle.map.specs.Tickets.{AddIsoEdge, RemoveIsoEdge};
ghost use Rattle.map.specs.Loans.{lent_now};
ghost use Rattle.map_rows.specs.Rows.{node_at, edge_at, NodeRow, EdgeRow};
ghost use Rattle.outcomes.specs.Outcomes.{Formed, edited, done_of, outcome_now};
ghost use Rattle.edge_rows.specs.Holds.{NodeEdgeTables};
ghost use Rattle.edit_isolated.specs.Isolated.{meeting_or_room_reasons, isolated_reasons, isolated_along};

use lent_rows::{Edges, Nodes};
use map::{Head, Refusal};
use outcomes::Carried;

// ---- kind 4

// Rows u and v are one, or an edge ends at one of their nodes.
fn not_both_isolated(nodes: &[i64], u: usize, v: usize) -> bool
    requires { NodeRow nodes.now u × NodeRow nodes.now v }
    ensures { result ≡ (same u v || not
        (is_some (node_at nodes.now u).face && is_some (node_at nodes.now v).face)) }
{
    u == v || !(map_rows::is_isolated(nodes, u) && map_rows::is_isolated(nodes, v))
}

// The containing face of the node of row i.
fn face_of(nodes: &[i64], i: usize) -> i64
    requires { NodeRow nodes.now i × (is_some (node_at nodes.now i).face ≡ true) }
    ensures { result ≡ pos (get_or (node_at nodes.now i).face 0) }
{
    nodes[i * map::NODE_WIDTH + map::NODE_FACE]
}

// The nodes of rows u and v lie in different faces.
fn faces_differ(nodes: &[i64], u: usize, v: usize) -> bool
    requires { NodeRow nodes.now u × NodeRow nodes.now v × (is_some (node_at nodes.now u).face ≡ true)
        × (is_some (node_at nodes.now v).face ≡ true) }
    ensures { result ≡ not (same (get_or (node_at nodes.now u).face 0)
        (get_or (node_at nodes.now v).face 0)) }
{
    face_of(nodes, u) != face_of(nodes, v)
}

// 14, 23, 15, 24, 20 and 21, against a curve between isolated nodes.
fn check_meeting_or_room(
    nodes: &[i64],
    edges: &[i64],
    faces: &[i64],
    h: Head,
    c: &[i64],
) -> Result<(), Refusal>
    requires { NodeEdgeTables nodes.now edges.now h × Run c.now }
    ensures { refusal_of result ≡ first_reason
        (meeting_or_room_reasons nodes.now edges.now faces.now h c.now) }
{
    let placed = Nodes {
        rows: nodes,
        count: head::to_usize(h.nodes),
    };
    let drawn = Edges {
        rows: edges,
        count: head::to_usize(h.edges),
    };
    reason_curves::check_meeting(placed, drawn, drawn.count, c)?;
    head::check_room(
        head::sizes_of(nodes, edges, faces),
        h,
        head::EDGE,
        head::EDGE,
    )
}

// From 7 on, against an edge along the curve between the nodes of rows u and v.
fn check_isolated(
    nodes: &[i64],
    edges: &[i64],
    faces: &[i64],
    h: Head,
    u: usize,
    v: usize,
    c: &[i64],
) -> Result<(), Refusal>
    requires { NodeEdgeTables nodes.now edges.now h × (u < nat_abs h.nodes) × (v < nat_abs h.nodes)
        × Run c.now }
    ensures { refusal_of result ≡ first_reason
        (isolated_reasons nodes.now edges.now faces.now h u v c.now) }
{
    reason_curves::check_curve(nodes, u, v, c)?;
    if not_both_isolated(nodes, u, v) {
        return Err(Refusal::NotIsolated);
    }
    if faces_differ(nodes, u, v) {
        return Err(Refusal::FacesDiffer);
    }
    check_meeting_or_room(nodes, edges, faces, h, c)
}

// Kind 4 along the curve between the nodes of rows u and v.
fn add_along(
    nodes: &mut [i64],
    edges: &mut [i64],
    faces: &[i64],
    h: Head,
    u: usize,
    v: usize,
    c: &[i64],
) -> Result<Carried, Refusal>
    requires { Formed nodes.old edges.old faces.now h × (u < nat_abs h.nodes) × (v < nat_abs h.nodes)
        × Run c.now }
    ensures { outcome_now nodes.new edges.new faces.now (done_of h result)
        ≡ isolated_along (lent_now nodes.old edges.old faces.now h)
        (node_at nodes.old u).number (node_at nodes.old v).number (curve_of c.now) }
{
    check_isolated(nodes, edges, faces, h, u, v, c)?;
    let value = h.next_edge;
    let face = face_of(nodes, u);
    let head = edge_rows::draw(nodes, edges, h, u, v, c, face);
    Ok(Carried { head, value })
}

// Kind 4 between the nodes of rows u and v, by the points sent.
fn add_at_rows(
    nodes: &mut [i64],
    edges: &mut [i64],
    faces: &[i64],
    h: Head,
    u: usize,
    v: usize,
    sent: &[i64],
) -> Result<Carried, Refusal>
    requires { Formed nodes.old edges.old faces.now h × (u < nat_abs h.nodes) × (v < nat_abs h.nodes) }
    ensures { outcome_now nodes.new edges.new faces.now (done_of h result)
        ≡ edited (lent_now nodes.old edges.old faces.now h)
        (AddIsoEdge (pos (node_at nodes.old u).number) (pos (node_at nodes.old v).number)
        sent.now) }
{
    let line = reason_curves::read_curve(sent, head::most_points(h))?;
    let cells = line.cells;
    let n = line.count * 2;
    add_along(nodes, edges, faces, h, u, v, &cells[0..n])
}

// Adds an edge between two isolated nodes, or answers the first reason against it.
pub fn add_isolated_edge(
    nodes: &mut [i64],
    edges: &mut [i64],
    faces: &[i64],
    h: Head,
    start: i64,
    end: i64,
    sent: &[i64],
) -> Result<Carried, Refusal>
    requires { Formed nodes.old edges.old faces.now h }
    ensures { outcome_now nodes.new edges.new faces.now (done_of h result)
        ≡ edited (lent_now nodes.old edges.old faces.now h)
        (AddIsoEdge start end sent.now) }
{
    let Some((u, v)) = outcomes::find_ends(nodes, edges, faces, h, start, end) else {
        return Err(Refusal::NoSuchRow);
    };
    add_at_rows(nodes, edges, faces, h, u, v, sent)
}

// ---- kind 5

// The face on the left of an edge row.
fn left_face(edges: &[i64], i: usize) -> i64
    requires { EdgeRow edges.now i }
    ensures { result ≡ pos (edge_at edges.now i).left }
{
    edges[i * map::EDGE_WIDTH + map::LEFT]
}

// Kind 5 on the edge of row i.
fn remove_at_row(
    nodes: &mut [i64],
    edges: &mut [i64],
    faces: &[i64],
    h: Head,
    i: usize,
) -> Result<Carried, Refusal>
    requires { Formed nodes.old edges.old faces.now h × (i < nat_abs h.edges) }
    ensures { outcome_now nodes.new edges.new faces.now (done_of h result)
        ≡ edited (lent_now nodes.old edges.old faces.now h)
        (RemoveIsoEdge (pos (edge_at edges.old i).number)) }
{
    let drawn = Edges {
        rows: edges,
        count: head::to_usize(h.edges),
    };
    if !reason_departures::edge_isolated(drawn, i) {
        return Err(Refusal::NotIsolated);
    }
    let face = left_face(edges, i);
    let head = edge_rows::undraw(nodes, edges, h, i, face);
    Ok(Carried { head, value: 0 })
}

// Removes an isolated edge, or answers the first reason against it; its nodes are isolated in the face it lay in.
pub fn remove_isolated_edge(
    nodes: &mut [i64],
    edges: &mut [i64],
    faces: &[i64],
    h: Head,
    edge: i64,
) -> Result<Carried, Refusal>
    requires { Formed nodes.old edges.old faces.now h }
    ensures { outcome_now nodes.new edges.new faces.now (done_of h result)
        ≡ edited (lent_now nodes.old edges.old faces.now h) (RemoveIsoEdge edge) }
{
    let e = head::to_usize(h.edges);
    let Some(i) = tables::find_row(edges, map::EDGE_WIDTH, e, edge) else {
        return Err(Refusal::NoSuchRow);
    };
    remove_at_row(nodes, edges, faces, h, i)
}
