// Faces and pieces as an indented list, by rows: a face lists the pieces in it, a piece the other faces it bounds. A
// line is noted by its depth and its vertex: twice a face row, or one more than twice a piece row.
#![tactic(auto)]

ghost use Rattle.std.specs.Prelude.{◌≡◌, true, false, ◌*◌, ◌-◌, ◌<◌, ◌≤◌, length, set};
ghost use Rattle.outline_rows.specs.Listing.{Room, Lists, AllParts, Outlined};

use map::Map;

// Faces and pieces, at most: no piece is without a node.
const PARTS: usize = Map::FACES + Map::NODES;

// The numbers of the notes: two a line.
pub const NOTES: usize = 2 * PARTS;

// Notes the line of vertex v behind those that are left: the notes fill from the back, so that `left` is all that has
// to be counted.
fn note(notes: &mut [u16], seen: &mut [u8], left: usize, depth: usize, v: usize)
    requires { (1 ≤ left) × (left * 2 ≤ length notes.old) × (depth < 65536) × (v < length seen.old)
        × (v < 65536) }
    ensures { (notes.new ≡ set (set notes.old (left * 2 - 2) depth) (left * 2 - 1) v)
        × (seen.new ≡ set seen.old v 1) }
{
    notes[left * 2 - 2] = depth as u16;
    notes[left * 2 - 1] = v as u16;
    seen[v] = 1;
}

// Lists the pieces in face row f from piece row `from` on, but the one that led to it, each with what is under it.
// Returns how many faces and pieces are left to list, or None where one would be listed twice: where none is left, any
// further one would be.
#[cycle(list_faces_list_pieces)]
fn list_pieces(
    graph: &[u64],
    f: usize,
    from: usize,
    led: usize,
    depth: usize,
    left: usize,
    notes: &mut [u16],
    seen: &mut [u8],
) -> Option<usize>
    requires { Room graph.now f depth left notes.old seen.old }
    ensures { Lists graph.now false f from led depth left notes.old seen.old
        notes.new seen.new result }
{
    let Some(p) = piece_faces::next_related(graph, f * 2, from, led) else {
        return Some(left);
    };
    if (left == 0) | (seen[p * 2 + 1] != 0) {
        return None;
    }
    note(notes, seen, left, depth, p * 2 + 1);
    let k = list_faces(graph, p, 0, f, depth + 1, left - 1, notes, seen)?;
    list_pieces(graph, f, p + 1, led, depth, k, notes, seen)
}

// Lists the faces that piece row p is in from face row `from` on, but the one that led to it, each with what is under
// it.
#[cycle(list_faces_list_pieces)]
fn list_faces(
    graph: &[u64],
    p: usize,
    from: usize,
    led: usize,
    depth: usize,
    left: usize,
    notes: &mut [u16],
    seen: &mut [u8],
) -> Option<usize>
    requires { Room graph.now p depth left notes.old seen.old }
    ensures { Lists graph.now true p from led depth left notes.old seen.old
        notes.new seen.new result }
{
    let Some(f) = piece_faces::next_related(graph, p * 2 + 1, from, led) else {
        return Some(left);
    };
    if (left == 0) | (seen[f * 2] != 0) {
        return None;
    }
    note(notes, seen, left, depth, f * 2);
    let k = list_pieces(graph, f, 0, p, depth + 1, left - 1, notes, seen)?;
    list_faces(graph, p, f + 1, led, depth, k, notes, seen)
}

// Lists all from face row 0 on: whether each of so many faces and pieces is listed, and none twice. Nothing led to face
// row 0: no piece has the row that is left out there.
pub fn list_all(graph: &[u64], parts: usize, notes: &mut [u16]) -> bool
    requires { AllParts graph.now parts × (parts * 2 ≤ length notes.old) }
    ensures { Outlined graph.now parts notes.new result }
{
    let mut seen = [0u8; 2 * piece_faces::SPAN];
    note(notes, &mut seen, parts, 0, 0);
    let left = list_pieces(
        graph,
        0,
        0,
        piece_faces::SPAN,
        1,
        parts - 1,
        notes,
        &mut seen,
    );
    left == Some(0)
}
