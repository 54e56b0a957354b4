// Runs `records` on nodes that are lent as records, with the head through its loan: a node is added, moved, changed and
// looked up, and counts are set. Writes the answers, the first node and the head, a line each.
#![tactic(auto)]

use map::{Answer, Head};
use records::Node;
use std::io;

// Three face rows.
const FACE_CELLS: usize = 3 * map::FACE_WIDTH;

const NO_NODE: Node = Node {
    number: 0,
    x: 0,
    y: 0,
    face: 0,
};

// The head of the empty map, for curves of at most 6 points.
const EMPTY: Head = Head {
    nodes: 0,
    edges: 0,
    faces: 1,
    next_node: 1,
    next_edge: 1,
    next_face: 1,
    points: 6,
};

// What the first node is changed to.
const CHANGED: Node = Node {
    number: 1,
    x: 6,
    y: 7,
    face: 0,
};

// Writes a number and a blank.
fn put(rt: &impl Print, n: u64) -> io::Result<()> {
    print!(rt; "{n} ")
}

// Writes a number with its sign and a blank.
fn put_signed(rt: &impl Print, z: i64) -> io::Result<()> {
    print!(rt; "{z} ")
}

fn end_line(rt: &impl Print) -> io::Result<()> {
    println!(rt; "")
}

fn put_answer(rt: &impl Print, a: Answer) -> io::Result<()> {
    put(rt, a.refusal)?;
    put_signed(rt, a.value)?;
    end_line(rt)
}

fn put_node(rt: &impl Print, n: Node) -> io::Result<()> {
    put_signed(rt, n.number)?;
    put_signed(rt, n.x)?;
    put_signed(rt, n.y)?;
    put_signed(rt, n.face)?;
    end_line(rt)
}

fn put_head(rt: &impl Print, h: Head) -> io::Result<()> {
    put_signed(rt, h.nodes)?;
    put_signed(rt, h.edges)?;
    put_signed(rt, h.faces)?;
    put_signed(rt, h.next_node)?;
    put_signed(rt, h.next_edge)?;
    put_signed(rt, h.next_face)?;
    put_signed(rt, h.points)?;
    end_line(rt)
}

// Writes a row as an answer; a missing one is refusal 4.
fn put_found(rt: &impl Print, f: Option<usize>) -> io::Result<()> {
    match f {
        Some(i) => {
            put(rt, 0)?;
            put(rt, i as u64)?;
        }
        None => {
            put(rt, 4)?;
            put(rt, 0)?;
        }
    }
    end_line(rt)
}

fn main(rt: HostRuntime) -> io::Result<()> {
    let mut nodes = [NO_NODE; 3];
    let mut edges = [0i64; 64];
    let mut faces = [0i64; FACE_CELLS];
    let mut head = EMPTY;
    let t = [1, -1, 4, 5];
    put_answer(
        &rt,
        records::ticket_on(&mut nodes, &mut edges, &mut faces, &mut head, &t),
    )?;
    put_head(&rt, head)?;
    put_answer(
        &rt,
        records::move_node(&mut nodes, &mut edges, &mut faces, &head, 1, 20, 3),
    )?;
    put_node(&rt, nodes[0])?;
    put_answer(&rt, records::change_node(&mut nodes, 1, CHANGED))?;
    put_node(&rt, nodes[0])?;
    put_found(&rt, records::find_node(&nodes, 1, 1))?;
    records::set_counts(&mut head, 2, 3, 4);
    put_head(&rt, head)
}
