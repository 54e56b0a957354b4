// Kinds 13 and 14: the faces on an edge's two sides healed, and the edge undrawn.
#![tactic(auto)]

ghost use Rattle.std.specs.Prelude.{◌≡◌, cond, pos};
ghost use Rattle.map.specs.Edits.{is_new};
ghost use Rattle.map.specs.Loans.{lent_now};
ghost use Rattle.outcomes.specs.Outcomes.{Formed, done_of, edited, outcome_now};
ghost use Rattle.outcomes.specs.Variants.{remove_ticket};
ghost use Rattle.edit_remove.specs.RemovedEdges.{RemovableEdge, EdgeRemoved};

use map::{Head, Refusal, Variant};
use outcomes::Carried;

// The value of a removal: the face that is left, or 0 for kind 14.
fn value_of(how: Variant, face: i64) -> i64
    ensures { result ≡ cond (is_new how) face (pos 0) }
{
    match how {
        Variant::New => face,
        Variant::Mod => 0,
    }
}

// Edge row i goes, and the faces on its sides become one: its number is the value, or -1 where they were one before.
fn remove_and_heal(
    nodes: &mut [i64],
    edges: &mut [i64],
    faces: &mut [i64],
    h: Head,
    i: usize,
    makes: bool,
) -> Carried
    requires { RemovableEdge nodes.old edges.old faces.old h i makes }
    ensures { EdgeRemoved nodes.old edges.old faces.old h i makes
        nodes.new edges.new faces.new result }
{
    let left = edges[i * map::EDGE_WIDTH + map::LEFT];
    let right = edges[i * map::EDGE_WIDTH + map::RIGHT];
    if left == right {
        let head = edge_rows::undraw(nodes, edges, h, i, left);
        return Carried { head, value: -1 };
    }
    let healed = face_rows::heal_faces(nodes, edges, faces, h, left, right, makes);
    let head = edge_rows::undraw(nodes, edges, healed.head, i, healed.value);
    Carried {
        head,
        value: healed.value,
    }
}

// Removes an edge, or is turned down by the first reason against it (kinds 13 and 14); where its two faces differ, they
// become one.
pub fn remove_edge(
    nodes: &mut [i64],
    edges: &mut [i64],
    faces: &mut [i64],
    h: Head,
    how: Variant,
    edge: i64,
) -> Result<Carried, Refusal>
    requires { Formed nodes.old edges.old faces.old h }
    ensures { outcome_now nodes.new edges.new faces.new (done_of h result)
        ≡ edited (lent_now nodes.old edges.old faces.old h) (remove_ticket how edge) }
{
    let judged = reason_edges::judge_removal(nodes, edges, faces, h, how, edge)?;
    let removed = remove_and_heal(nodes, edges, faces, h, judged.row, judged.makes);
    Ok(Carried {
        head: removed.head,
        value: value_of(how, removed.value),
    })
}
