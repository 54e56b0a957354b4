// Kinds 11 and 12: an edge drawn, and where it splits a face, the face shared out.
#![tactic(auto)]

ghost use Rattle.std.specs.Prelude.{◌≡◌, ◌<◌, pos, nat_abs};
ghost use Rattle.curves.specs.Curves.{curve_of};
ghost use Rattle.map.specs.Loans.{lent_now};
ghost use Rattle.map_rows.specs.Rows.{node_at};
ghost use Rattle.outcomes.specs.Outcomes.{Formed, done_of, edited, outcome_now};
ghost use Rattle.outcomes.specs.Variants.{add_ticket};
ghost use Rattle.reason_curves.specs.Sent.{PointsLeft};
ghost use Rattle.edit_add.specs.Along.{added_along};

use map::{Head, Refusal, Variant};
use outcomes::Carried;

// Kinds 11 and 12 along the curve between the nodes of rows u and v.
fn add_along(
    nodes: &mut [i64],
    edges: &mut [i64],
    faces: &mut [i64],
    h: Head,
    how: Variant,
    u: usize,
    v: usize,
    c: &[i64],
) -> Result<Carried, Refusal>
    requires { Formed nodes.old edges.old faces.old h × (u < nat_abs h.nodes) × (v < nat_abs h.nodes)
        × PointsLeft c.now }
    ensures { outcome_now nodes.new edges.new faces.new (done_of h result)
        ≡ added_along how (lent_now nodes.old edges.old faces.old h)
        (node_at nodes.old u).number (node_at nodes.old v).number (curve_of c.now) }
{
    let judged = reason_edges::judge_add(nodes, edges, faces, h, how, u, v, c)?;
    let mut head = edge_rows::draw(nodes, edges, h, u, v, c, judged.face);
    if judged.splits {
        head = face_rows::split_face(nodes, edges, faces, head, how, judged.face);
    }
    Ok(Carried {
        head,
        value: h.next_edge,
    })
}

// Kinds 11 and 12 between the nodes of rows u and v, by the points sent.
fn add_at_rows(
    nodes: &mut [i64],
    edges: &mut [i64],
    faces: &mut [i64],
    h: Head,
    how: Variant,
    u: usize,
    v: usize,
    sent: &[i64],
) -> Result<Carried, Refusal>
    requires { Formed nodes.old edges.old faces.old h × (u < nat_abs h.nodes) × (v < nat_abs h.nodes) }
    ensures { outcome_now nodes.new edges.new faces.new (done_of h result)
        ≡ edited (lent_now nodes.old edges.old faces.old h)
        (add_ticket how (pos (node_at nodes.old u).number) (pos (node_at nodes.old v).number)
        sent.now) }
{
    let line = reason_curves::read_curve(sent, head::most_points(h))?;
    let cells = line.cells;
    let n = line.count * 2;
    add_along(nodes, edges, faces, h, how, u, v, &cells[0..n])
}

// Adds an edge between two nodes, or is turned down by the first reason against it (kinds 11 and 12); where it splits a
// face, the rows that named the face are shared out.
pub fn add_edge(
    nodes: &mut [i64],
    edges: &mut [i64],
    faces: &mut [i64],
    h: Head,
    how: Variant,
    start: i64,
    end: i64,
    sent: &[i64],
) -> Result<Carried, Refusal>
    requires { Formed nodes.old edges.old faces.old h }
    ensures { outcome_now nodes.new edges.new faces.new (done_of h result)
        ≡ edited (lent_now nodes.old edges.old faces.old h)
        (add_ticket how start end sent.now) }
{
    let Some((u, v)) = outcomes::find_ends(nodes, edges, faces, h, start, end) else {
        return Err(Refusal::NoSuchRow);
    };
    add_at_rows(nodes, edges, faces, h, how, u, v, sent)
}
