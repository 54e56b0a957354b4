// The edges of a face: each ring as its length and then its directed edges, rings by first member.
#![tactic(auto)]

ghost use Rattle.std.specs.Prelude.{◌≡◌, ◌++◌, ◌+◌, ◌*◌, ◌≤◌, ◌<◌, length, drop};
ghost use Rattle.map.specs.Limits.{last_number};
ghost use Rattle.map.specs.Refusals.{answer_of};
ghost use Rattle.map.specs.Ticket.{face_edges, edges_of_face};
ghost use Rattle.map.specs.Loans.{lent_now};
ghost use Rattle.lent_rows.specs.Lent.{drawn};
ghost use Rattle.face_edges.specs.Listing.{Rings, Marked, Size, list_rings};

use lent_rows::Edges;
use map::{Head, Refusal};

// How many numbers the ring of p takes, where p is the first member of a ring of the face, and 0 elsewhere; the ring is
// marked.
fn ring_size(edges: Edges<'_>, face: usize, p: usize, marks: &mut [u16]) -> usize
    requires { Rings edges.rows.now edges.count × (face ≤ last_number) × (p < edges.count * 2)
        × Marked edges.rows.now edges.count face p marks.old }
    ensures { Marked edges.entry.rows.now edges.entry.count face (p + 1) marks.new
        × Size edges.entry.rows.now edges.entry.count face p result }
{
    if (darts::dart_cell(edges.rows, p, map::LEFT) == face as i64) & (marks[p] == 0) {
        return rings::mark_ring(edges, p, 1, marks) + 1;
    }
    0
}

// How many numbers the rings of the face take.
fn rings_size(edges: Edges<'_>, face: usize) -> usize
    requires { Rings edges.rows.now edges.count × (face ≤ last_number) }
    ensures { (result ≡ length (face_edges (drawn edges.entry) face)) × (result ≤ 20000000) }
{
    let mut marks = [0u16; map::DARTS];
    let mut size: usize = 0;
    for p in 0..edges.count * 2 {
        size += ring_size(edges, face, p, &mut marks);
    }
    size
}

// Writes the rings of the face from the front of the list.
fn write_rings(edges: Edges<'_>, face: usize, list: &mut [i64])
    requires { Rings edges.rows.now edges.count × (face ≤ last_number)
        × (length (face_edges (drawn edges) face) ≤ length list.old) }
    ensures { list.new
        ≡ face_edges (drawn edges.entry) face
        ++ drop (length (face_edges (drawn edges.entry) face)) list.old }
{
    let mut marks = [0u16; map::DARTS];
    let mut at: usize = 0;
    for p in 0..edges.count * 2 {
        let n = ring_size(edges, face, p, &mut marks);
        if 0 < n {
            list[at] = (n - 1) as i64;
            rings::write_ring(edges, p, n - 1, list, at + 1);
            at += n;
        }
    }
}

// Lists the rings of the face from the front of the list, where there is room for them.
fn list_rings(edges: Edges<'_>, face: usize, list: &mut [i64]) -> Result<i64, Refusal>
    requires { Rings edges.rows.now edges.count × (face ≤ last_number) }
    ensures { record { list = list.new; answer = answer_of result }
        ≡ list_rings edges.entry.rows.now edges.entry.count face list.old }
{
    let size = rings_size(edges, face);
    if list.len() < size {
        return Err(Refusal::NoRoom);
    }
    write_rings(edges, face, list);
    Ok(size as i64)
}

// Lists the edges of a face from the front of the list; the value is the count of numbers written. The list's remainder
// is untouched, and all of it where the call is turned down.
pub fn edges_of_face(
    nodes: &[i64],
    edges: &[i64],
    faces: &[i64],
    h: Head,
    face: i64,
    list: &mut [i64],
) -> Result<i64, Refusal>
    ensures { record { list = list.new; answer = answer_of result }
        ≡ edges_of_face (lent_now nodes.now edges.now faces.now h) face
        list.old }
{
    form::check_lent(nodes, edges, faces, h)?;
    let c = head::counts_of(h);
    let Some(_) = tables::find_row(faces, map::FACE_WIDTH, c.faces, face) else {
        return Err(Refusal::NoSuchRow);
    };
    let drawn = Edges {
        rows: edges,
        count: c.edges,
    };
    list_rings(drawn, face as usize, list)
}
