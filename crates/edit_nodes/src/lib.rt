// Kinds 1 to 3: isolated nodes. Each looks at its reasons in order, and writes only where none holds.
#![tactic(auto)]

ghost use Rattle.std.specs.Prelude.{◌≡◌, true, not, ◌&&◌, ◌||◌, [], ◌∷◌, ◌+◌, ◌*◌, ◌≤◌, ◌<◌, pos, nat_abs, length};
ghost use Rattle.std.proofs.Math.Seq.{paste};
ghost use Rattle.std.specs.Int.Signed.{non_neg};
ghost use Rattle.lists.specs.Tests.{same};
ghost use Rattle.plane.specs.Points.{InRange};
ghost use Rattle.map.specs.Limits.{node_width};
ghost use Rattle.map.specs.Rows.{map_of, counts};
ghost use Rattle.map.specs.Tickets.{AddIsoNode, MoveIsoNode, RemoveIsoNode};
ghost use Rattle.map.specs.Reasons.{first_reason, minus_one};
ghost use Rattle.map.specs.Refusals.{refusal_of};
ghost use Rattle.map.specs.Loans.{lent_now};
ghost use Rattle.map_rows.specs.Rows.{node_at};
ghost use Rattle.head.specs.Heads.{Counted, changed_head};
ghost use Rattle.outcomes.specs.Outcomes.{Formed, decided, done_of, outcome_now};
ghost use Rattle.edit_nodes.specs.Parts.{point_taken, point_reasons, add_early, move_reasons};

use lent_rows::{Edges, Nodes};
use map::{Head, Refusal};
use outcomes::Carried;
use plane::Point;

// ---- leaves

// No face is given.
fn is_none(face: i64) -> bool
    ensures { result ≡ minus_one face }
{
    face == -1
}

// A face is given that is not the one around the point.
fn other_face(face: i64, around: i64) -> bool
    requires { ((minus_one face || non_neg face) ≡ true) × (non_neg around ≡ true) }
    ensures { result ≡ (not (minus_one face) && not (same (nat_abs face) (nat_abs around))) }
{
    !is_none(face) & (face != around)
}

// A node but that of row `own` lies on the point, or an edge passes through it.
fn point_is_taken(nodes: Nodes<'_>, edges: Edges<'_>, own: usize, p: Point) -> bool
    requires { InRange p }
    ensures { result ≡ point_taken nodes.entry.rows.now nodes.entry.count edges.entry.rows.now
        edges.entry.count own p }
{
    reason_curves::node_at(nodes, own, p) || reason_curves::edge_through(edges, p)
}

// ---- reasons

// Kind 1, of its point: 5 and 10.
fn check_point(
    nodes: &[i64],
    edges: &[i64],
    faces: &[i64],
    h: Head,
    x: i64,
    y: i64,
) -> Result<(), Refusal>
    requires { Formed nodes.now edges.now faces.now h }
    ensures { refusal_of result ≡ first_reason (point_reasons
        (map_of (lent_now nodes.now edges.now faces.now h)) x y) }
{
    if !reason_curves::in_range(x, y) {
        return Err(Refusal::OutOfRange);
    }
    let n = head::to_usize(h.nodes);
    let placed = Nodes {
        rows: nodes,
        count: n,
    };
    let drawn = Edges {
        rows: edges,
        count: head::to_usize(h.edges),
    };
    if point_is_taken(placed, drawn, n, reason_curves::point_of(x, y)) {
        return Err(Refusal::PointTaken);
    }
    Ok(())
}

// Kind 1: 4, 5 and 10.
fn check_add(
    nodes: &[i64],
    edges: &[i64],
    faces: &[i64],
    h: Head,
    face: i64,
    x: i64,
    y: i64,
) -> Result<(), Refusal>
    requires { Formed nodes.now edges.now faces.now h }
    ensures { refusal_of result ≡ first_reason (add_early
        (map_of (lent_now nodes.now edges.now faces.now h)) face x y) }
{
    if is_none(face) {
        return check_point(nodes, edges, faces, h, x, y);
    }
    let n = head::to_usize(h.faces);
    let Some(_) = tables::find_row(faces, map::FACE_WIDTH, n, face) else {
        return Err(Refusal::NoSuchRow);
    };
    check_point(nodes, edges, faces, h, x, y)
}

// Kind 2, of node row i: 5, 9 and 10.
fn check_move(
    nodes: &[i64],
    edges: &[i64],
    faces: &[i64],
    h: Head,
    i: usize,
    x: i64,
    y: i64,
) -> Result<(), Refusal>
    requires { Formed nodes.now edges.now faces.now h × (i < nat_abs h.nodes) }
    ensures { refusal_of result ≡ first_reason (move_reasons nodes.now edges.now h i x y) }
{
    if !reason_curves::in_range(x, y) {
        return Err(Refusal::OutOfRange);
    }
    if !map_rows::is_isolated(nodes, i) {
        return Err(Refusal::NotIsolated);
    }
    let placed = Nodes {
        rows: nodes,
        count: head::to_usize(h.nodes),
    };
    let drawn = Edges {
        rows: edges,
        count: head::to_usize(h.edges),
    };
    if point_is_taken(placed, drawn, i, reason_curves::point_of(x, y)) {
        return Err(Refusal::PointTaken);
    }
    Ok(())
}

// ---- kinds 1 to 3

// A node more: the row after the last, and the head.
fn push_node(nodes: &mut [i64], h: Head, x: i64, y: i64, around: i64) -> Carried
    requires { Counted h × (nat_abs h.nodes * node_width + node_width ≤ length nodes.old) }
    ensures { (nodes.new ≡ paste nodes.old (nat_abs h.nodes * node_width)
        (h.next_node ∷ x ∷ y ∷ around ∷ []) node_width)
        × (result ≡ record {
          head = changed_head h (counts 1 0 0) (counts 0 0 0) (counts 1 0 0);
          value = h.next_node;
        }) }
{
    let number = h.next_node;
    map_rows::write_node(nodes, head::to_usize(h.nodes), number, x, y, around);
    Carried {
        head: head::changed(h, head::NODE, head::NONE, head::NODE),
        value: number,
    }
}

// Adds an isolated node in the face around its point, or answers the first reason against it.
pub fn add_node(
    nodes: &mut [i64],
    edges: &[i64],
    faces: &[i64],
    h: Head,
    face: i64,
    x: i64,
    y: i64,
) -> Result<Carried, Refusal>
    requires { Formed nodes.old edges.now faces.now h }
    ensures { outcome_now nodes.new edges.now faces.now (done_of h result)
        ≡ decided (lent_now nodes.old edges.now faces.now h) (AddIsoNode face x y) }
{
    check_add(nodes, edges, faces, h, face, x, y)?;
    let drawn = Edges {
        rows: edges,
        count: head::to_usize(h.edges),
    };
    let around = point_location::face_of_point(drawn, reason_curves::point_of(x, y));
    if other_face(face, around) {
        return Err(Refusal::FacesDiffer);
    }
    let sizes = head::sizes_of(nodes, edges, faces);
    head::check_room(sizes, h, head::NODE, head::NODE)?;
    Ok(push_node(nodes, h, x, y, around))
}

// Kind 2 on the node of row i.
fn move_at_row(
    nodes: &mut [i64],
    edges: &[i64],
    faces: &[i64],
    h: Head,
    i: usize,
    x: i64,
    y: i64,
) -> Result<Carried, Refusal>
    requires { Formed nodes.old edges.now faces.now h × (i < nat_abs h.nodes) }
    ensures { outcome_now nodes.new edges.now faces.now (done_of h result)
        ≡ decided (lent_now nodes.old edges.now faces.now h)
        (MoveIsoNode (pos (node_at nodes.old i).number) x y) }
{
    check_move(nodes, edges, faces, h, i, x, y)?;
    let number = nodes[i * map::NODE_WIDTH];
    let drawn = Edges {
        rows: edges,
        count: head::to_usize(h.edges),
    };
    let around = point_location::face_of_point(drawn, reason_curves::point_of(x, y));
    map_rows::write_node(nodes, i, number, x, y, around);
    Ok(Carried { head: h, value: 0 })
}

// Moves an isolated node into the face around its new point, or answers the first reason against it.
pub fn move_node(
    nodes: &mut [i64],
    edges: &[i64],
    faces: &[i64],
    h: Head,
    node: i64,
    x: i64,
    y: i64,
) -> Result<Carried, Refusal>
    requires { Formed nodes.old edges.now faces.now h }
    ensures { outcome_now nodes.new edges.now faces.now (done_of h result)
        ≡ decided (lent_now nodes.old edges.now faces.now h) (MoveIsoNode node x y) }
{
    let n = head::to_usize(h.nodes);
    let Some(i) = tables::find_row(nodes, map::NODE_WIDTH, n, node) else {
        return Err(Refusal::NoSuchRow);
    };
    move_at_row(nodes, edges, faces, h, i, x, y)
}

// Kind 3 on the node of row i.
fn remove_at_row(
    nodes: &mut [i64],
    edges: &[i64],
    faces: &[i64],
    h: Head,
    i: usize,
) -> Result<Carried, Refusal>
    requires { Formed nodes.old edges.now faces.now h × (i < nat_abs h.nodes) }
    ensures { outcome_now nodes.new edges.now faces.now (done_of h result)
        ≡ decided (lent_now nodes.old edges.now faces.now h)
        (RemoveIsoNode (pos (node_at nodes.old i).number)) }
{
    if !map_rows::is_isolated(nodes, i) {
        return Err(Refusal::NotIsolated);
    }
    tables::remove_row(nodes, map::NODE_WIDTH, head::to_usize(h.nodes), i);
    Ok(Carried {
        head: head::changed(h, head::NONE, head::NODE, head::NONE),
        value: 0,
    })
}

// Removes an isolated node, or answers the first reason against it.
pub fn remove_node(
    nodes: &mut [i64],
    edges: &[i64],
    faces: &[i64],
    h: Head,
    node: i64,
) -> Result<Carried, Refusal>
    requires { Formed nodes.old edges.now faces.now h }
    ensures { outcome_now nodes.new edges.now faces.now (done_of h result)
        ≡ decided (lent_now nodes.old edges.now faces.now h) (RemoveIsoNode node) }
{
    let n = head::to_usize(h.nodes);
    let Some(i) = tables::find_row(nodes, map::NODE_WIDTH, n, node) else {
        return Err(Refusal::NoSuchRow);
    };
    remove_at_row(nodes, edges, faces, h, i)
}
