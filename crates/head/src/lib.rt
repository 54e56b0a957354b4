// Counts, next numbers and the record of points: one place changes them, and tests whether rows and numbers are left.
#![tactic(auto)]

ghost use Rattle.std.specs.Prelude.{◌≡◌, true, ◌+◌, ◌-◌, ◌≤◌, ltb, pos, nat_abs};
ghost use Rattle.std.specs.Int.Signed.{non_neg};
ghost use Rattle.map.specs.Limits.{most_points, is_record, limit_of};
ghost use Rattle.map.specs.Rows.{empty_map, head_of};
ghost use Rattle.map.specs.Reasons.{first_reason};
ghost use Rattle.map.specs.Refusals.{refusal_of};
ghost use Rattle.head.specs.Heads.{UpTo, Counted, Few, Changes, counts_of, sizes_in, changed_head};
ghost use Rattle.head.specs.Heads.{full_at, spent_at, room_at, head_in, with_counts, with_next};

use map::{Counts, Head, Map, Refusal};

// No row or number; a node's; an edge's; a face's; a node's and an edge's.
pub const NONE: Counts = Counts {
    nodes: 0,
    edges: 0,
    faces: 0,
};

pub const NODE: Counts = Counts {
    nodes: 1,
    edges: 0,
    faces: 0,
};

pub const EDGE: Counts = Counts {
    nodes: 0,
    edges: 1,
    faces: 0,
};

pub const FACE: Counts = Counts {
    nodes: 0,
    edges: 0,
    faces: 1,
};

pub const NODE_AND_EDGE: Counts = Counts {
    nodes: 1,
    edges: 1,
    faces: 0,
};

// The numbers of the head where it is lent as a list, and their places.
pub const WIDTH: usize = 7;

const NODES_AT: usize = 0;

const EDGES_AT: usize = 1;

const FACES_AT: usize = 2;

const NEXT_NODE_AT: usize = 3;

const NEXT_EDGE_AT: usize = 4;

const NEXT_FACE_AT: usize = 5;

const POINTS_AT: usize = 6;

// The two records of points.
pub const SIX_POINTS: i64 = Map::PLOTTER_POINTS as i64;

pub const TWELVE_POINTS: i64 = Map::POINTS as i64;

// ---- counts

// Reads a count or a next number, which is not negative.
pub fn to_usize(z: i64) -> usize
    requires { non_neg z ≡ true }
    ensures { result ≡ nat_abs z }
{
    z as usize
}

// Counts the rows in use.
pub fn counts_of(h: Head) -> Counts
    requires { (non_neg h.nodes ≡ true) × (non_neg h.edges ≡ true) × (non_neg h.faces ≡ true) }
    ensures { result ≡ counts_of h }
{
    Counts {
        nodes: to_usize(h.nodes),
        edges: to_usize(h.edges),
        faces: to_usize(h.faces),
    }
}

// Counts the rows that each table has room for.
pub fn sizes_of(nodes: &[i64], edges: &[i64], faces: &[i64]) -> Counts
    ensures { result ≡ sizes_in nodes.now edges.now faces.now }
{
    Counts {
        nodes: nodes.len() / map::NODE_WIDTH,
        edges: edges.len() / map::EDGE_WIDTH,
        faces: faces.len() / map::FACE_WIDTH,
    }
}

// ---- the record of points

// Whether the number is a record: 6 or 12.
pub fn is_record(points: i64) -> bool
    ensures { result ≡ is_record points }
{
    (points == SIX_POINTS) | (points == TWELVE_POINTS)
}

// The most points of a curve, as the head records them.
pub fn most_points(h: Head) -> usize
    requires { is_record h.points ≡ true }
    ensures { result ≡ most_points (limit_of h.points) }
{
    to_usize(h.points)
}

// Builds the head of the empty map, face 0 alone, for so many points.
pub fn empty(points: i64) -> Head
    requires { is_record points ≡ true }
    ensures { result ≡ head_of (limit_of points) empty_map }
{
    Head {
        nodes: 0,
        edges: 0,
        faces: 1,
        next_node: 1,
        next_edge: 1,
        next_face: 1,
        points,
    }
}

// ---- 20 and 21

// A number and so many more are above `most`.
fn exceeds(most: usize, z: i64, more: usize) -> bool
    requires { UpTo 1000000 z × (more ≤ 1000) }
    ensures { result ≡ ltb most (nat_abs z + more) }
{
    most < to_usize(z) + more
}

// So many rows more do not fit.
fn is_full(sizes: Counts, h: Head, rows: Counts) -> bool
    requires { Counted h × Few rows }
    ensures { result ≡ full_at sizes h rows }
{
    exceeds(sizes.nodes, h.nodes, rows.nodes)
        | exceeds(sizes.edges, h.edges, rows.edges)
        | exceeds(sizes.faces, h.faces, rows.faces)
}

// Tests whether one of so many numbers is above the last.
pub fn is_spent(h: Head, numbers: Counts) -> bool
    requires { Counted h × Few numbers }
    ensures { result ≡ spent_at h numbers }
{
    exceeds(map::NUMBERS, h.next_node, numbers.nodes)
        | exceeds(map::NUMBERS, h.next_edge, numbers.edges)
        | exceeds(map::NUMBERS, h.next_face, numbers.faces)
}

// Tests whether so many rows more fit, and so many numbers are left.
pub fn check_room(sizes: Counts, h: Head, rows: Counts, numbers: Counts) -> Result<(), Refusal>
    requires { Counted h × Few rows × Few numbers }
    ensures { refusal_of result ≡ first_reason (room_at sizes h rows numbers) }
{
    if is_full(sizes, h, rows) {
        return Err(Refusal::NoRoom);
    }
    if is_spent(h, numbers) {
        return Err(Refusal::NumbersSpent);
    }
    Ok(())
}

// ---- the head after an edit

// A number that grows and then falls.
fn shifted(z: i64, more: usize, less: usize) -> i64
    requires { UpTo 1000000 z × (more ≤ 1000) × (less ≤ nat_abs z + more) }
    ensures { result ≡ pos (nat_abs z + more - less) }
{
    (to_usize(z) + more - less) as i64
}

// Changes the head: so many rows more and less, and so many numbers given.
pub fn changed(h: Head, more: Counts, less: Counts, given: Counts) -> Head
    requires { Changes h more less given }
    ensures { result ≡ changed_head h more less given }
{
    Head {
        nodes: shifted(h.nodes, more.nodes, less.nodes),
        edges: shifted(h.edges, more.edges, less.edges),
        faces: shifted(h.faces, more.faces, less.faces),
        next_node: shifted(h.next_node, given.nodes, 0),
        next_edge: shifted(h.next_edge, given.edges, 0),
        next_face: shifted(h.next_face, given.faces, 0),
        points: h.points,
    }
}

// ---- a head with other numbers

// The head with these row counts.
pub fn with_counts(h: Head, nodes: i64, edges: i64, faces: i64) -> Head
    ensures { result ≡ with_counts h nodes edges faces }
{
    Head {
        nodes,
        edges,
        faces,
        next_node: h.next_node,
        next_edge: h.next_edge,
        next_face: h.next_face,
        points: h.points,
    }
}

// The head with these next numbers.
pub fn with_next(h: Head, node: i64, edge: i64, face: i64) -> Head
    ensures { result ≡ with_next h node edge face }
{
    Head {
        nodes: h.nodes,
        edges: h.edges,
        faces: h.faces,
        next_node: node,
        next_edge: edge,
        next_face: face,
        points: h.points,
    }
}

// ---- the head as a list of numbers

// Reads the head from its numbers.
pub fn from_numbers(l: &[i64; WIDTH]) -> Head
    ensures { result ≡ head_in l.now }
{
    Head {
        nodes: l[NODES_AT],
        edges: l[EDGES_AT],
        faces: l[FACES_AT],
        next_node: l[NEXT_NODE_AT],
        next_edge: l[NEXT_EDGE_AT],
        next_face: l[NEXT_FACE_AT],
        points: l[POINTS_AT],
    }
}

// Writes the numbers of the head.
pub fn put_numbers(l: &mut [i64; WIDTH], h: Head)
    ensures { head_in l.new ≡ h }
{
    *l = [
        h.nodes,
        h.edges,
        h.faces,
        h.next_node,
        h.next_edge,
        h.next_face,
        h.points,
    ];
}
