// Which pieces of a map lie in which of its faces: the matrix of `piece_faces`, filled from the rows of the tables.
#![tactic(auto)]

ghost use Rattle.std.specs.Prelude.{◌≡◌, Bool, ◌||◌, ℕ, ◌+◌, ◌*◌, ◌<◌, ◌≤◌, nat_abs, length, replicate};
ghost use Rattle.lists.specs.Scans.{any_of, count_of};
ghost use Rattle.lists.specs.Tables.{table};
ghost use Rattle.tables.specs.Tables.{Rising};
ghost use Rattle.map.specs.Limits.{node_width, face_width, max_nodes, max_edges, max_faces};
ghost use Rattle.map.specs.Rows.{map_of};
ghost use Rattle.map.specs.Loans.{lent_now};
ghost use Rattle.darts.specs.Positions.{RowsNamed};
ghost use Rattle.head.specs.Heads.{counts_of};
ghost use Rattle.outcomes.specs.Outcomes.{Formed};
ghost use Rattle.piece_faces.specs.Bits.{cells, Relates};
ghost use Rattle.map_piece_faces.specs.InFaces.{DartRows, dart_relates, node_relates, is_root, Related, InFaces};

use map::{Counts, Head, Map};

// Relates the piece of each directed edge to the face that it bears.
fn relate_darts(starts: &[u16], bears: &[u16], labels: &[u16], count: usize, graph: &mut [u64])
    requires { DartRows starts.now bears.now labels.now (count * 2) × (length graph.old ≡ cells) }
    ensures { (related : ℕ → ℕ → Bool) → Relates graph.old related
        → Relates graph.new (λ p f. related p f
        || any_of (dart_relates starts.now bears.now labels.now p f)
        (table (λ q. q) 0 (count * 2))) }
{
    for (s, f) in starts[..count * 2].iter().zip(&bears[..count * 2]) {
        piece_faces::relate(graph, labels[*s as usize] as usize, *f as usize);
    }
}

// Relates node row i to its face. A node where an edge ends has face -1, which no row has.
fn relate_node(
    nodes: &[i64],
    i: usize,
    faces: &[i64],
    count: usize,
    index: &[u16],
    graph: &mut [u64],
)
    requires { (i * node_width + node_width ≤ length nodes.now) × (i < max_nodes) × Rising face_width faces.now count
        × (count ≤ max_faces) × (length index.now ≡ 4096) × (length graph.old ≡ cells) }
    ensures { (related : ℕ → ℕ → Bool) → Relates graph.old related
        → Relates graph.new (λ p g. related p g
        || node_relates nodes.now faces.now count p g i) }
{
    let z = nodes[i * map::NODE_WIDTH + map::NODE_FACE];
    if let Some(k) = tables::find_indexed(faces, map::FACE_WIDTH, count, z, index) {
        piece_faces::relate(graph, i, k);
    }
}

// Relates each isolated node to its face.
fn relate_nodes(nodes: &[i64], n: usize, faces: &[i64], count: usize, graph: &mut [u64])
    requires { (n * node_width ≤ length nodes.now) × (n ≤ max_nodes) × Rising face_width faces.now count
        × (count ≤ max_faces) × (length graph.old ≡ cells) }
    ensures { (related : ℕ → ℕ → Bool) → Relates graph.old related
        → Relates graph.new (λ p g. related p g
        || any_of (node_relates nodes.now faces.now count p g) (table (λ i. i) 0 n)) }
{
    let mut index = [0u16; tables::INDEX];
    tables::index_rows(faces, map::FACE_WIDTH, count, &mut index);
    for i in 0..n {
        relate_node(nodes, i, faces, count, &index, graph);
    }
}

// How many rows are labelled with themselves: each is that of the lowest node of a piece.
fn count_roots(labels: &[u16], n: usize) -> usize
    requires { (length labels.now ≡ n) × (n ≤ max_nodes) }
    ensures { result ≡ count_of (is_root labels.now) (table (λ i. i) 0 n) }
{
    let mut roots: usize = 0;
    for i in 0..n {
        roots += (labels[i] as usize == i) as usize;
    }
    roots
}

// Writes for each directed edge the row of the node that it leaves and that of the face that it bears. All are found:
// the map is in form.
fn find_dart_rows(
    nodes: &[i64],
    edges: &[i64],
    faces: &[i64],
    c: Counts,
    starts: &mut [u16],
    bears: &mut [u16],
)
    requires { ((h : _) × Formed nodes.now edges.now faces.now h × (c ≡ counts_of h))
        × (length starts.old ≡ max_edges * 2) × (length bears.old ≡ max_edges * 2) }
    ensures { (length starts.new ≡ max_edges * 2) × (length bears.new ≡ max_edges * 2)
        × RowsNamed node_width nodes.now c.nodes edges.now 1 starts.new (c.edges * 2)
        × RowsNamed face_width faces.now c.faces edges.now 5 bears.new
        (c.edges * 2) }
{
    let mut index = [0u16; tables::INDEX];
    tables::index_rows(nodes, map::NODE_WIDTH, c.nodes, &mut index);
    form_references::find_rows(
        nodes,
        map::NODE_WIDTH,
        c.nodes,
        edges,
        c.edges,
        map::START,
        &index,
        starts,
    );
    tables::index_rows(faces, map::FACE_WIDTH, c.faces, &mut index);
    form_references::find_rows(
        faces,
        map::FACE_WIDTH,
        c.faces,
        edges,
        c.edges,
        map::LEFT,
        &index,
        bears,
    );
}

// Relates all pieces and faces, and counts the pieces; the labels are scratch.
fn relate_labelled(
    nodes: &[i64],
    edges: &[i64],
    faces: &[i64],
    c: Counts,
    labels: &mut [u16],
    graph: &mut [u64],
) -> usize
    requires { ((h : _) × Formed nodes.now edges.now faces.now h × (c ≡ counts_of h))
        × (length labels.old ≡ c.nodes) × (graph.old ≡ replicate cells 0) }
    ensures { Related nodes.now edges.now faces.now c
        graph.new result }
{
    let mut starts = [0u16; map::DARTS];
    let mut bears = [0u16; map::DARTS];
    find_dart_rows(nodes, edges, faces, c, &mut starts, &mut bears);
    piece_labels::label_rows(nodes, c.nodes, edges, c.edges, labels);
    relate_darts(&starts, &bears, labels, c.edges, graph);
    relate_nodes(nodes, c.nodes, faces, c.faces, graph);
    count_roots(labels, c.nodes)
}

// Relates the pieces of a map in form to the faces that they are in, and counts the pieces. The matrix is all zeros
// before.
pub fn relate_all(
    nodes: &[i64],
    edges: &[i64],
    faces: &[i64],
    h: Head,
    graph: &mut [u64; piece_faces::CELLS],
) -> usize
    requires { Formed nodes.now edges.now faces.now h × (graph.old ≡ replicate cells 0) }
    ensures { InFaces (map_of (lent_now nodes.now edges.now faces.now h)) nodes.now
        (nat_abs h.nodes) faces.now (nat_abs h.faces) graph.new result }
{
    let c = head::counts_of(h);
    let n = c.nodes;
    let mut labels = [0u16; Map::NODES];
    relate_labelled(nodes, edges, faces, c, &mut labels[..n], graph)
}
