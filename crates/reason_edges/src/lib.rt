// The reasons against kinds 11 and 12 from 7 on and against 13 and 14, in order, and what is known where none holds.
#![tactic(auto)]

ghost use Rattle.std.specs.Prelude.{◌≡◌, true, ◌+◌, ◌<◌, nat_abs, Some, IfOk};
ghost use Rattle.std.specs.Int.Signed.{non_neg};
ghost use Rattle.lists.specs.Tests.{bit};
ghost use Rattle.lists.specs.Tables.{place};
ghost use Rattle.tables.specs.Tables.{same_z, column};
ghost use Rattle.curves.specs.Curves.{Run, curve_of};
ghost use Rattle.map.specs.Limits.{edge_width};
ghost use Rattle.map.specs.Rows.{map_of, sizes_of, counts};
ghost use Rattle.map.specs.Edits.{makes_face};
ghost use Rattle.map.specs.Reasons.{first_reason, add_edge_reasons, reasons};
ghost use Rattle.map.specs.Refusals.{refusal_of};
ghost use Rattle.map.specs.Loans.{lent_now};
ghost use Rattle.map_rows.specs.Rows.{EdgeRow, node_at, edge_at};
ghost use Rattle.head.specs.Heads.{Counted, sizes_in, room_at};
ghost use Rattle.outcomes.specs.Outcomes.{Formed};
ghost use Rattle.outcomes.specs.Variants.{remove_ticket};
ghost use Rattle.reason_edges.specs.Parts.{drawing_reasons, makes_second, makes_of, face_reasons};
ghost use Rattle.reason_edges.specs.Judging.{judged_add};

use lent_rows::{Edges, Nodes};
use map::{Counts, Head, Refusal, Variant};

// Of a new edge that nothing is against: its corner face, and whether that is split.
#[derive(Clone, Copy)]
pub struct Judged {
    pub face: i64,
    pub splits: bool,
}

// Of an edge whose removal nothing is against: its row, and whether a new face is made.
#[derive(Clone, Copy)]
pub struct Removal {
    pub row: usize,
    pub makes: bool,
}

// ---- leaves

// The old face goes, and a second new one is made.
fn makes_second(splits: bool, how: Variant, face: i64) -> bool
    requires { non_neg face ≡ true }
    ensures { result ≡ makes_second splits how (nat_abs face) }
{
    splits & (how == Variant::New) & (face != 0)
}

// ---- kinds 11 and 12

// The reasons from 7 on and before 20, of an edge along the curve from node row u to node row v.
fn check_drawing(
    nodes: &[i64],
    edges: &[i64],
    faces: &[i64],
    h: Head,
    u: usize,
    v: usize,
    c: &[i64],
) -> Result<(), Refusal>
    requires { Formed nodes.now edges.now faces.now h × (u < nat_abs h.nodes) × (v < nat_abs h.nodes)
        × Run c.now }
    ensures { refusal_of result ≡ first_reason (drawing_reasons
        (map_of (lent_now nodes.now edges.now faces.now h))
        (node_at nodes.now u).number (node_at nodes.now v).number
        (curve_of c.now)) }
{
    let placed = Nodes {
        rows: nodes,
        count: head::to_usize(h.nodes),
    };
    let drawn = Edges {
        rows: edges,
        count: head::to_usize(h.edges),
    };
    reason_curves::check_curve(nodes, u, v, c)?;
    if reason_departures::direction_taken(
        drawn,
        drawn.count,
        nodes[u * map::NODE_WIDTH],
        nodes[v * map::NODE_WIDTH],
        c,
    ) {
        return Err(Refusal::DirectionTaken);
    }
    if reason_corners::corners_differ(nodes, u, v, drawn, c) {
        return Err(Refusal::FacesDiffer);
    }
    reason_curves::check_meeting(placed, drawn, drawn.count, c)
}

// 20 and 21, of an edge more, and where it splits a face, a face more, and a second new one where the old face goes.
fn check_room(
    nodes: &[i64],
    edges: &[i64],
    faces: &[i64],
    h: Head,
    splits: bool,
    second: bool,
) -> Result<(), Refusal>
    requires { Counted h }
    ensures { refusal_of result ≡ first_reason (room_at (sizes_in nodes.now edges.now faces.now) h
        (counts 0 1 (bit splits)) (counts 0 1 (bit splits + bit second))) }
{
    let rows = Counts {
        nodes: 0,
        edges: 1,
        faces: splits as usize,
    };
    let given = Counts {
        nodes: 0,
        edges: 1,
        faces: splits as usize + second as usize,
    };
    head::check_room(head::sizes_of(nodes, edges, faces), h, rows, given)
}

// Judges kinds 11 and 12 along the curve from node row u to node row v: the reasons from 7 on, and what the edit needs
// to know where there is none.
pub fn judge_add(
    nodes: &[i64],
    edges: &[i64],
    faces: &[i64],
    h: Head,
    how: Variant,
    u: usize,
    v: usize,
    c: &[i64],
) -> Result<Judged, Refusal>
    requires { Formed nodes.now edges.now faces.now h × (u < nat_abs h.nodes) × (v < nat_abs h.nodes)
        × Run c.now }
    ensures refused { refusal_of result ≡ first_reason (add_edge_reasons how
        (sizes_of (lent_now nodes.now edges.now faces.now h))
        (map_of (lent_now nodes.now edges.now faces.now h))
        (node_at nodes.now u).number (node_at nodes.now v).number
        (curve_of c.now)) }
    ensures judged { IfOk result (λ j. j ≡ judged_add
        (map_of (lent_now nodes.now edges.now faces.now h))
        (node_at nodes.now u).number (node_at nodes.now v).number
        (curve_of c.now)) }
{
    check_drawing(nodes, edges, faces, h, u, v, c)?;
    let drawn = Edges {
        rows: edges,
        count: head::to_usize(h.edges),
    };
    let face = reason_corners::corner_face(nodes, u, drawn, darts::first_step(c, false));
    let splits = reason_corners::splits_face(nodes, drawn, u, v, c);
    let second = makes_second(splits, how, face);
    check_room(nodes, edges, faces, h, splits, second)?;
    Ok(Judged { face, splits })
}

// ---- kinds 13 and 14

// Whether a new face is made where edge row i goes.
fn makes_face(edges: &[i64], i: usize, how: Variant) -> bool
    requires { EdgeRow edges.now i }
    ensures { result ≡ makes_of how (edge_at edges.now i) }
{
    let left = edges[i * map::EDGE_WIDTH + map::LEFT];
    let right = edges[i * map::EDGE_WIDTH + map::RIGHT];
    (how == Variant::New) & (left != right) & (left != 0) & (right != 0)
}

// 21, of the number of a new face, where one is made.
fn check_face(h: Head, makes: bool) -> Result<(), Refusal>
    requires { Counted h }
    ensures { refusal_of result ≡ first_reason (face_reasons h (bit makes)) }
{
    let given = Counts {
        nodes: 0,
        edges: 0,
        faces: makes as usize,
    };
    if head::is_spent(h, given) {
        return Err(Refusal::NumbersSpent);
    }
    Ok(())
}

// Judges kinds 13 and 14: the reasons against them, and what the edit needs to know where there is none.
pub fn judge_removal(
    nodes: &[i64],
    edges: &[i64],
    faces: &[i64],
    h: Head,
    how: Variant,
    edge: i64,
) -> Result<Removal, Refusal>
    requires { Formed nodes.now edges.now faces.now h }
    ensures refused { refusal_of result ≡ first_reason (reasons
        (sizes_of (lent_now nodes.now edges.now faces.now h))
        (map_of (lent_now nodes.now edges.now faces.now h))
        (remove_ticket how edge)) }
    ensures judged { IfOk result (λ r.
        (place (same_z edge) 0 (column edge_width edges.now (nat_abs h.edges)) ≡ Some r.row)
        × (r.makes ≡ makes_face how (nat_abs edge) (map_of (lent_now nodes.now edges.now faces.now h)))) }
{
    let e = head::to_usize(h.edges);
    let Some(row) = tables::find_row(edges, map::EDGE_WIDTH, e, edge) else {
        return Err(Refusal::NoSuchRow);
    };
    let makes = makes_face(edges, row, how);
    check_face(h, makes)?;
    Ok(Removal { row, makes })
}
