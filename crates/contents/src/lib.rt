// The contents of a sheet: a face lists the pieces in it, and a piece lists the other faces it bounds.
#![tactic(auto)]

ghost use Rattle.std.specs.Prelude.{◌≡◌, ◌+◌, ◌*◌, ◌/◌, ◌%◌, ◌≤◌, pos, length, get_or, drop};
ghost use mathlib.Core.List.{◌++◌, map, flat_map};
ghost use Rattle.std.proofs.lemmas.List.Edits.{sets};
ghost use Rattle.map.specs.Loans.{lent_now};
ghost use Rattle.map.specs.Refusals.{answer_of};
ghost use Rattle.outcomes.specs.Outcomes.{Formed};
ghost use Rattle.lists.specs.Tests.{same};
ghost use Rattle.nesting.specs.Contents.{line_cells, contents_of};
ghost use Rattle.map_piece_faces.specs.InFaces.{number_of};
ghost use Rattle.outline_rows.specs.Listing.{line_at, noted_lines};
ghost use Rattle.contents.specs.Lines.{numbered, RowThere, LinesThere};

use map::{Answer, Head, Refusal};

// A line is three numbers: depth, 0 for a face or 1 for a piece, and the face number or lowest node number.
const LINE: usize = 3;

// The number of vertex v: of a face, or of the lowest node of a piece.
fn number_at(nodes: &[i64], faces: &[i64], v: usize) -> i64
    requires { RowThere nodes.now faces.now v }
    ensures { result ≡ pos (number_of nodes.now faces.now (same (v % 2) 1) (v / 2)) }
{
    if v % 2 == 1 {
        nodes[v / 2 * map::NODE_WIDTH]
    } else {
        faces[v / 2 * map::FACE_WIDTH]
    }
}

// Writes the line of note i from `at` on.
fn write_line(nodes: &[i64], faces: &[i64], notes: &[u16], i: usize, list: &mut [i64], at: usize)
    requires { (i * 2 + 2 ≤ length notes.now) × RowThere nodes.now faces.now (get_or notes.now (i * 2 + 1) 0)
        × (at + 3 ≤ length list.old) }
    ensures { list.new ≡ sets list.old at
        (line_cells (numbered nodes.now faces.now (line_at notes.now i))) }
{
    let v = notes[i * 2 + 1] as usize;
    list[at] = notes[i * 2] as i64;
    list[at + 1] = (v % 2) as i64;
    list[at + 2] = number_at(nodes, faces, v);
}

// Writes the lines from the front of the list; the first is noted last.
fn write_lines(nodes: &[i64], faces: &[i64], notes: &[u16], parts: usize, list: &mut [i64])
    requires { LinesThere nodes.now faces.now notes.now parts × (parts * 3 ≤ length list.old) }
    ensures { list.new
        ≡ flat_map line_cells (map (numbered nodes.now faces.now)
        (noted_lines notes.now parts parts))
        ++ drop (parts * 3) list.old }
{
    for j in 0..parts {
        write_line(nodes, faces, notes, parts - (j + 1), list, j * LINE);
    }
}

// Lists the contents of a map in form.
fn list_contents(
    nodes: &[i64],
    edges: &[i64],
    faces: &[i64],
    h: Head,
    list: &mut [i64],
) -> Result<i64, Refusal>
    requires { Formed nodes.now edges.now faces.now h }
    ensures { record { list = list.new; answer = answer_of result }
        ≡ contents_of (lent_now nodes.now edges.now faces.now h) list.old }
{
    let mut graph = [0u64; piece_faces::CELLS];
    let mut notes = [0u16; outline_rows::NOTES];
    let pieces = map_piece_faces::relate_all(nodes, edges, faces, h, &mut graph);
    let parts = head::to_usize(h.faces) + pieces;
    if !outline_rows::list_all(&graph, parts, &mut notes) {
        return Err(Refusal::ListedTwice);
    }
    if list.len() < parts * LINE {
        return Err(Refusal::NoRoom);
    }
    write_lines(nodes, faces, &notes, parts, list);
    Ok((parts * LINE) as i64)
}

// Lists the contents of tables as they are lent.
fn list_lent(
    nodes: &[i64],
    edges: &[i64],
    faces: &[i64],
    h: Head,
    list: &mut [i64],
) -> Result<i64, Refusal>
    ensures { record { list = list.new; answer = answer_of result }
        ≡ contents_of (lent_now nodes.now edges.now faces.now h) list.old }
{
    form::check_lent(nodes, edges, faces, h)?;
    list_contents(nodes, edges, faces, h, list)
}

// Lists the contents of a sheet from the front of the list; the value is the count of numbers written. The list's
// remainder is untouched, and all of it where the call is turned down.
pub fn contents(nodes: &[i64], edges: &[i64], faces: &[i64], h: Head, list: &mut [i64]) -> Answer
    ensures { record { list = list.new; answer = result }
        ≡ contents_of (lent_now nodes.now edges.now faces.now h) list.old }
{
    Answer::from(list_lent(nodes, edges, faces, h, list))
}
