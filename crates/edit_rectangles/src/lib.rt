// The faces whose rectangles an edit affects, and their rectangles set.
#![tactic(auto)]

ghost use Rattle.std.specs.Prelude.{◌≡◌, true, ◌+◌, ◌*◌, ◌≤◌, pos, nat_abs, length};
ghost use Rattle.std.specs.Int.Signed.{non_neg};
ghost use Rattle.map.specs.Limits.{face_width};
ghost use Rattle.map.specs.Rows.{rectangle};
ghost use Rattle.map_rows.specs.Rows.{EdgeRow, EdgeRows, EdgesInRange, edge_at, edges_of};
ghost use Rattle.edit_rectangles.specs.FacePairs.{pair_of, pair_named, pair_last, both, affected_before};
ghost use Rattle.edit_rectangles.specs.FacePairs.{affected_after, AreFaces, other_than, set_four};

use map::Head;

// The faces on the sides of an edge; 0 for none.
#[derive(Clone, Copy)]
struct FacePair {
    left: i64,
    right: i64,
}

const NO_PAIR: FacePair = FacePair { left: 0, right: 0 };

// Faces whose rectangles may change; 0 for none.
#[derive(Clone, Copy)]
pub struct Affected {
    pub first: i64,
    pub second: i64,
    pub third: i64,
    pub fourth: i64,
}

// The faces on the sides of edge row i.
fn pair_at(edges: &[i64], i: usize) -> FacePair
    requires { EdgeRow edges.now i }
    ensures { result ≡ pair_of (edge_at edges.now i) }
{
    let left = edges[i * map::EDGE_WIDTH + map::LEFT];
    let right = edges[i * map::EDGE_WIDTH + map::RIGHT];
    FacePair { left, right }
}

// The faces on the sides of an edge.
fn pair_of(edges: &[i64], count: usize, edge: i64) -> FacePair
    requires { EdgeRows edges.now count }
    ensures { result ≡ pair_named edges.now count edge }
{
    let Some(i) = tables::find_row(edges, map::EDGE_WIDTH, count, edge) else {
        return NO_PAIR;
    };
    pair_at(edges, i)
}

// The faces on the sides of the last edge.
fn last_pair(edges: &[i64], count: usize) -> FacePair
    requires { EdgesInRange edges.now count }
    ensures { result ≡ pair_last edges.now count }
{
    if count == 0 {
        return NO_PAIR;
    }
    pair_at(edges, count - 1)
}

fn both(s: FacePair, u: FacePair) -> Affected
    ensures { result ≡ both s u }
{
    let first = s.left;
    let second = s.right;
    let third = u.left;
    let fourth = u.right;
    Affected {
        first,
        second,
        third,
        fourth,
    }
}

// The faces on the sides of the edges that a ticket names: none, or one by its first number, or two.
pub fn affected_before(edges: &[i64], count: usize, named: usize, t: &[i64]) -> Affected
    requires { EdgeRows edges.now count × (named + 1 ≤ length t.now) }
    ensures { result ≡ affected_before named edges.now count t.now }
{
    if named == 0 {
        return both(NO_PAIR, NO_PAIR);
    }
    let s = pair_of(edges, count, t[1]);
    if named == 1 {
        return both(s, NO_PAIR);
    }
    both(s, pair_of(edges, count, t[2]))
}

// The faces that an edit affected: on the sides of the edge that it drew; or the one that it made; or as before it.
pub fn affected_after(edges: &[i64], h: Head, after: Head, draws: bool, a: Affected) -> Affected
    requires { (non_neg after.edges ≡ true) × EdgesInRange edges.now (nat_abs after.edges) }
    ensures { result ≡ affected_after draws edges.now h after a }
{
    if draws {
        let e = head::to_usize(after.edges);
        return both(last_pair(edges, e), NO_PAIR);
    }
    let next = h.next_face;
    let given = after.next_face;
    if given != next {
        return both(
            FacePair {
                left: next,
                right: 0,
            },
            NO_PAIR,
        );
    }
    a
}

// A face, unless it is one of two.
fn other_than(f: i64, a: i64, b: i64) -> i64
    requires { (f ≡ pos (nat_abs f)) × (a ≡ pos (nat_abs a)) × (b ≡ pos (nat_abs b)) }
    ensures { result ≡ pos (other_than (nat_abs a) (nat_abs b) (nat_abs f)) }
{
    if (f == a) | (f == b) { 0 } else { f }
}

// Sets the rectangles of the faces: in one pass over the edges, and a second where the third or fourth is another.
pub fn set_affected(edges: &[i64], faces: &mut [i64], h: Head, a: Affected)
    requires { (non_neg h.edges ≡ true) × (non_neg h.faces ≡ true)
        × EdgesInRange edges.now (nat_abs h.edges)
        × (nat_abs h.faces * face_width ≤ length faces.old) × AreFaces a }
    ensures { faces.new ≡ set_four (nat_abs h.faces)
        (rectangle (edges_of edges.now (nat_abs h.edges))) a faces.old }
{
    let e = head::to_usize(h.edges);
    let n = head::to_usize(h.faces);
    let first = a.first;
    let second = a.second;
    let third = other_than(a.third, first, second);
    let fourth = other_than(a.fourth, first, second);
    rectangles::set_rectangles(edges, e, faces, n, first, second);
    rectangles::set_rectangles(edges, e, faces, n, third, fourth);
}
