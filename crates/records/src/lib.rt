// Nodes as rows of records that are lent, and the head as one record lent beside the tables. Each function over such a
// loan is thin: it copies records out, calls a covered function on numbers, and puts the answer back.
#![tactic(auto)]

ghost use Rattle.std.specs.Prelude.{◌≡◌, cond, ◌&&◌, [], ◌∷◌, ◌+◌, ◌*◌, ◌≤◌, ◌<◌, ltb, pos, length, take};
ghost use Rattle.std.proofs.Math.Seq.{paste};
ghost use Rattle.lists.specs.Tables.{table};
ghost use Rattle.tables.specs.Tables.{same_z};
ghost use Rattle.map.specs.Rows.{lent};
ghost use Rattle.map.specs.Ticket.{ticket, emptied, edges_of_face};
ghost use Rattle.map.specs.Loans.{lent_now};
ghost use Rattle.head.specs.Heads.{with_counts, with_next};
ghost use Rattle.outcomes.specs.Outcomes.{outcome, outcome_with, lookup_refusal};
ghost use Rattle.ticket_lists.specs.Runs.{Runs};
ghost use Rattle.records.specs.Records.{record_cells, node_table, row_node, node_row, changed_at};
ghost use Rattle.records.specs.Records.{moved_nodes, moved_answer};

use map::{Answer, Head, Map, Refusal};
use outcomes::Done;

#[derive(Clone, Copy)]
pub struct Node {
    pub number: i64,
    pub x: i64,
    pub y: i64,
    pub face: i64,
}

// Where kind 2 was carried out on a node table: the rows in use, and the node.
#[derive(Clone, Copy)]
struct Moved {
    count: usize,
    node: Node,
}

// Kind 2, MoveIsoNode.
const MOVE: i64 = 2;

// The numbers of a full node table.
const CELLS: usize = Map::NODES * map::NODE_WIDTH;

// ---- nodes

// The answer of a search from row i on: row i if it is one of the first `count` and has the number, or else what the
// rows after it gave.
fn found_from(n: Node, i: usize, count: usize, number: i64, later: Option<usize>) -> Option<usize>
    ensures { result ≡ cond (ltb i count && same_z number n.number) (Some i) later }
{
    if (i < count) & (number == n.number) {
        return Some(i);
    }
    later
}

// The row of a node among the first `count`: found, or missing. Each record, the last first, is copied out and asked.
pub fn find_node(nodes: &[Node], count: usize, number: i64) -> Option<usize>
    ensures { result ≡ node_row nodes.now count number }
{
    let mut found = None;
    for i in (0..nodes.len()).rev() {
        found = found_from(nodes[i], i, count, number, found);
    }
    found
}

// A node is changed where it is found; a missing one is refusal 4.
pub fn change_node(nodes: &mut [Node], count: usize, n: Node) -> Answer
    ensures { (result ≡ record {
      refusal = lookup_refusal (node_row nodes.old count n.number);
      value = pos 0;
    }) × (nodes.new ≡ changed_at nodes.old n (node_row nodes.old count n.number)) }
{
    let Some(i) = find_node(nodes, count, n.number) else {
        return Answer::from(Err(Refusal::NoSuchRow));
    };
    nodes[i] = n;
    Answer::from(Ok(0))
}

// ---- nodes as records and as numbers

// A node's numbers are row i.
fn put_row(flat: &mut [i64], i: usize, n: Node)
    requires { i * 4 + 4 ≤ length flat.old }
    ensures { flat.new ≡ paste flat.old (i * 4) (record_cells n) 4 }
{
    let row = [n.number, n.x, n.y, n.face];
    tables::write(flat, i * map::NODE_WIDTH, &row);
}

// The node of row i.
fn row_at(flat: &[i64], i: usize) -> Node
    requires { i * 4 + 4 ≤ length flat.now }
    ensures { result ≡ row_node flat.now i }
{
    let at = i * map::NODE_WIDTH;
    Node {
        number: flat[at],
        x: flat[at + map::X],
        y: flat[at + map::Y],
        face: flat[at + map::NODE_FACE],
    }
}

// The nodes as the first rows of a node table.
fn pack(nodes: &[Node], flat: &mut [i64])
    requires { length nodes.now * 4 ≤ length flat.old }
    ensures { flat.new ≡ paste flat.old 0 (node_table nodes.now)
        (length nodes.now * 4) }
{
    for (i, n) in nodes.iter().enumerate() {
        put_row(flat, i, *n);
    }
}

// The first rows of a node table as nodes.
fn unpack(flat: &[i64], nodes: &mut [Node])
    requires { length nodes.old * 4 ≤ length flat.now }
    ensures { nodes.new ≡ table (row_node flat.now) 0 (length nodes.old) }
{
    for i in 0..nodes.len() {
        nodes[i] = row_at(flat, i);
    }
}

// ---- the head

// The row counts, through the head's loan.
pub fn set_counts(head: &mut Head, nodes: i64, edges: i64, faces: i64)
    ensures { head.new ≡ with_counts head.old nodes edges faces }
{
    *head = head::with_counts(*head, nodes, edges, faces);
}

// The next numbers, through the head's loan.
pub fn set_next(head: &mut Head, node: i64, edge: i64, face: i64)
    ensures { head.new ≡ with_next head.old node edge face }
{
    *head = head::with_next(*head, node, edge, face);
}

// ---- the head, with nodes as numbers

// One ticket; the head is changed through its loan.
pub fn ticket(
    nodes: &mut [i64],
    edges: &mut [i64],
    faces: &mut [i64],
    head: &mut Head,
    t: &[i64],
) -> Answer
    ensures { outcome_with nodes.new edges.new faces.new head.new result
        ≡ ticket (lent_now nodes.old edges.old faces.old head.old)
        t.now }
{
    let done = engine::ticket(nodes, edges, faces, *head, t);
    *head = done.head;
    done.answer
}

// The empty map for curves of at most so many points, 6 or 12.
pub fn empty_map(
    nodes: &mut [i64],
    edges: &mut [i64],
    faces: &mut [i64],
    head: &mut Head,
    points: i64,
) -> Answer
    ensures { outcome_with nodes.new edges.new faces.new head.new result ≡ emptied
        (lent_now nodes.old edges.old faces.old head.old) points }
{
    let done = engine::empty_map(nodes, edges, faces, *head, points);
    *head = done.head;
    done.answer
}

// The edges of a face.
pub fn edges_of_face(
    nodes: &[i64],
    edges: &[i64],
    faces: &[i64],
    head: &Head,
    face: i64,
    list: &mut [i64],
) -> Answer
    ensures { record { list = list.new; answer = result }
        ≡ edges_of_face (lent_now nodes.now edges.now faces.now head.now) face
        list.old }
{
    engine::edges_of_face(nodes, edges, faces, *head, face, list)
}

// A list of tickets from the empty map on, which is created for curves of at most so many points, 6 or 12.
pub fn run(
    nodes: &mut [i64],
    edges: &mut [i64],
    faces: &mut [i64],
    head: &mut Head,
    points: i64,
    numbers: &[i64],
    lengths: &[usize],
    refusals: &mut [u64],
    values: &mut [i64],
) -> Answer
    ensures { Runs (lent_now nodes.old edges.old faces.old head.old) points
        numbers.now lengths.now refusals.old values.old
        (record {
          lent = lent_now nodes.new edges.new faces.new head.new;
          refusals = refusals.new;
          values = values.new;
          answer = result;
        }) }
{
    let done = ticket_lists::run(
        nodes, edges, faces, *head, points, numbers, lengths, refusals, values,
    );
    *head = done.head;
    done.answer
}

// ---- the head, with nodes as records

// One ticket on the first k numbers.
fn ticket_front(
    flat: &mut [i64],
    k: usize,
    edges: &mut [i64],
    faces: &mut [i64],
    h: Head,
    t: &[i64],
) -> Done
    requires { k ≤ length flat.old }
    ensures { outcome (take k flat.new) edges.new faces.new result
        ≡ ticket (lent (take k flat.old) edges.old faces.old h) t.now }
{
    engine::ticket(&mut flat[..k], edges, faces, h, t)
}

// One ticket by way of a node table.
fn ticket_by(
    nodes: &mut [Node],
    flat: &mut [i64],
    edges: &mut [i64],
    faces: &mut [i64],
    head: &mut Head,
    t: &[i64],
) -> Answer
    requires { length nodes.old * 4 ≤ length flat.old }
    ensures { record {
      lent = lent (node_table nodes.new) edges.new faces.new
          head.new;
      answer = result;
    } ≡ ticket (lent (node_table nodes.old) edges.old faces.old head.old)
        t.now }
{
    pack(nodes, flat);
    let k = nodes.len() * map::NODE_WIDTH;
    let done = ticket_front(flat, k, edges, faces, *head, t);
    unpack(flat, nodes);
    *head = done.head;
    done.answer
}

// One ticket; more nodes than a map may have are refusal 1.
pub fn ticket_on(
    nodes: &mut [Node],
    edges: &mut [i64],
    faces: &mut [i64],
    head: &mut Head,
    t: &[i64],
) -> Answer
    ensures { record {
      lent = lent (node_table nodes.new) edges.new faces.new
          head.new;
      answer = result;
    } ≡ ticket (lent (node_table nodes.old) edges.old faces.old head.old)
        t.now }
{
    if Map::NODES < nodes.len() {
        return Answer::from(Err(Refusal::NotWhole));
    }
    let mut flat = [0; CELLS];
    ticket_by(nodes, &mut flat, edges, faces, head, t)
}

// ---- kind 2, with nodes as records

// Kind 2 on the first k numbers. The node that it moved is read from its row.
fn move_front(
    flat: &mut [i64],
    k: usize,
    edges: &mut [i64],
    faces: &mut [i64],
    h: Head,
    node: i64,
    x: i64,
    y: i64,
) -> Result<Moved, Answer>
    requires { k ≤ length flat.old }
    ensures { (ns : _) → node_table ns ≡ take k flat.old
        → record {
          lent = lent (node_table (moved_nodes ns result)) edges.new faces.new h;
          answer = moved_answer ns result;
        } ≡ ticket (lent (node_table ns) edges.old faces.old h) (pos 2 ∷ node ∷ x ∷ y ∷ []) }
{
    let t = [MOVE, node, x, y];
    let done = ticket_front(flat, k, edges, faces, h, &t);
    let answer = done.answer;
    // the engine answers by number
    if answer.refusal != 0 {
        return Err(answer);
    }
    let count = head::to_usize(h.nodes);
    let Some(i) = tables::find_row(flat, map::NODE_WIDTH, count, node) else {
        return Err(Answer::from(Err(Refusal::NoSuchRow)));
    };
    Ok(Moved {
        count,
        node: row_at(flat, i),
    })
}

// Kind 2 by way of a node table: the one record is changed.
fn move_by(
    nodes: &mut [Node],
    flat: &mut [i64],
    edges: &mut [i64],
    faces: &mut [i64],
    h: Head,
    node: i64,
    x: i64,
    y: i64,
) -> Answer
    requires { length nodes.old * 4 ≤ length flat.old }
    ensures { record {
      lent = lent (node_table nodes.new) edges.new faces.new h;
      answer = result;
    } ≡ ticket (lent (node_table nodes.old) edges.old faces.old h)
        (pos 2 ∷ node ∷ x ∷ y ∷ []) }
{
    pack(nodes, flat);
    let k = nodes.len() * map::NODE_WIDTH;
    match move_front(flat, k, edges, faces, h, node, x, y) {
        Ok(moved) => change_node(nodes, moved.count, moved.node),
        Err(answer) => answer,
    }
}

// Moves an isolated node into the face around its new point; the head stays as it is.
pub fn move_node(
    nodes: &mut [Node],
    edges: &mut [i64],
    faces: &mut [i64],
    head: &Head,
    node: i64,
    x: i64,
    y: i64,
) -> Answer
    ensures { record {
      lent = lent (node_table nodes.new) edges.new faces.new
          head.now;
      answer = result;
    } ≡ ticket (lent (node_table nodes.old) edges.old faces.old head.now)
        (pos 2 ∷ node ∷ x ∷ y ∷ []) }
{
    if Map::NODES < nodes.len() {
        return Answer::from(Err(Refusal::NotWhole));
    }
    let mut flat = [0; CELLS];
    move_by(nodes, &mut flat, edges, faces, *head, node, x, y)
}
