// The engine: the empty map, one ticket, the edges of a face.
#![tactic(auto)]

ghost use Rattle.std.specs.Prelude.{◌≡◌};
ghost use Rattle.map.specs.Reasons.{first_reason};
ghost use Rattle.map.specs.Refusals.{refusal_of};
ghost use Rattle.map.specs.Ticket.{ticket, create_reasons, emptied, edges_of_face};
ghost use Rattle.map.specs.Loans.{lent_now};
ghost use Rattle.outcomes.specs.Outcomes.{done_of, outcome_now};

use map::{Answer, Head, Refusal};
use outcomes::{Carried, Done};

// ---- the empty map

// The reasons against creation: 1 where the tables are not whole, 2 for a number of points that is no record.
pub fn check_create(nodes: &[i64], edges: &[i64], faces: &[i64], points: i64) -> Result<(), Refusal>
    ensures { (h : _) → refusal_of result
        ≡ first_reason (create_reasons (lent_now nodes.now edges.now faces.now h) points) }
{
    if !form_ranges::is_whole(nodes, edges, faces) {
        return Err(Refusal::NotWhole);
    }
    if !head::is_record(points) {
        return Err(Refusal::NotInForm);
    }
    Ok(())
}

// Creates the empty map, or answers the first reason against it.
fn create(
    nodes: &mut [i64],
    edges: &mut [i64],
    faces: &mut [i64],
    points: i64,
) -> Result<Carried, Refusal>
    ensures { (h : _) → outcome_now nodes.new edges.new faces.new (done_of h result)
        ≡ emptied (lent_now nodes.old edges.old faces.old h) points }
{
    check_create(nodes, edges, faces, points)?;
    nodes.fill(0);
    edges.fill(0);
    faces.fill(0);
    Ok(Carried {
        head: head::empty(points),
        value: 0,
    })
}

// The empty map for curves of at most so many points, 6 or 12, whatever the tables and the head held; 1 where the
// tables are not whole, 2 for any other number of points.
pub fn empty_map(
    nodes: &mut [i64],
    edges: &mut [i64],
    faces: &mut [i64],
    h: Head,
    points: i64,
) -> Done
    ensures { outcome_now nodes.new edges.new faces.new result
        ≡ emptied (lent_now nodes.old edges.old faces.old h) points }
{
    outcomes::done_after(h, create(nodes, edges, faces, points))
}

// ---- one ticket

// Carries out a ticket, or answers the first reason against it.
fn carry_out(
    nodes: &mut [i64],
    edges: &mut [i64],
    faces: &mut [i64],
    h: Head,
    t: &[i64],
) -> Result<Carried, Refusal>
    ensures { outcome_now nodes.new edges.new faces.new (done_of h result)
        ≡ ticket (lent_now nodes.old edges.old faces.old h) t.now }
{
    form::check_lent(nodes, edges, faces, h)?;
    edit_dispatch::edit(nodes, edges, faces, h, t)
}

// One ticket, on any tables and any run of numbers.
pub fn ticket(nodes: &mut [i64], edges: &mut [i64], faces: &mut [i64], h: Head, t: &[i64]) -> Done
    ensures { outcome_now nodes.new edges.new faces.new result
        ≡ ticket (lent_now nodes.old edges.old faces.old h) t.now }
{
    outcomes::done_after(h, carry_out(nodes, edges, faces, h, t))
}

// ---- the edges of a face

// Each ring of the face as its length and then its directed edges. The value is the count of numbers written.
pub fn edges_of_face(
    nodes: &[i64],
    edges: &[i64],
    faces: &[i64],
    h: Head,
    face: i64,
    list: &mut [i64],
) -> Answer
    ensures { record { list = list.new; answer = result }
        ≡ edges_of_face (lent_now nodes.now edges.now faces.now h) face
        list.old }
{
    Answer::from(face_edges::edges_of_face(nodes, edges, faces, h, face, list))
}
