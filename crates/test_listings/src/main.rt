// Runs whole calls for the edges of a face and for the contents on stored tables, grown, distorted and spoiled, and
// writes the answers and the lists, a line a call. Tables are a record of `NUMBERS` numbers, each a sign and seven
// digits, and a line end: the lengths of the node, edge and face table, the seven numbers of the head, the face and the
// length of the list; four that are not used; then the tables, with room for eight nodes, six edges and eight faces.
#![tactic(auto)]

ghost use Rattle.std.specs.Prelude.{◌≤◌, ◌+◌, length};

use map::{Answer, Head};
use std::io;
use std::io::{ErrorKind, Read};

const DIGITS: usize = 7;

// A number: its sign and its digits.
const FIELD: usize = 1 + DIGITS;

// The bytes of a call.
const RECORD: usize = NUMBERS * FIELD + 1;

// The rows and the numbers of the tables.
const NODES: usize = 8;

const EDGES: usize = 6;

const FACES: usize = 8;

const NODE_CELLS: usize = NODES * map::NODE_WIDTH;

const EDGE_CELLS: usize = EDGES * map::EDGE_WIDTH;

const FACE_CELLS: usize = FACES * map::FACE_WIDTH;

// The list has room for so many numbers, and holds this one before each call.
const LIST: usize = 3 * (NODES + FACES);

const FILLER: i64 = 77;

// Where the tables stand among the numbers of a call.
const NODES_AT: usize = 16;

const EDGES_AT: usize = NODES_AT + NODE_CELLS;

const FACES_AT: usize = EDGES_AT + EDGE_CELLS;

const NUMBERS: usize = FACES_AT + FACE_CELLS;

// Where the other numbers stand among its bytes.
const NODES_LENGTH: usize = 0;

const EDGES_LENGTH: usize = FIELD;

const FACES_LENGTH: usize = 2 * FIELD;

const NODE_COUNT: usize = 3 * FIELD;

const EDGE_COUNT: usize = 4 * FIELD;

const FACE_COUNT: usize = 5 * FIELD;

const NEXT_NODE: usize = 6 * FIELD;

const NEXT_EDGE: usize = 7 * FIELD;

const NEXT_FACE: usize = 8 * FIELD;

const POINTS: usize = 9 * FIELD;

const FACE: usize = 10 * FIELD;

const LIST_LENGTH: usize = 11 * FIELD;

const BASE: u64 = 10;

// Digits are read three at a time, and the last by itself.
const GROUP: usize = 3;

const GROUP_BASE: u64 = BASE * BASE * BASE;

const LOW_GROUP: usize = 1 + GROUP;

// Writes a number and a blank.
fn put(rt: &impl Print, n: u64) -> io::Result<()> {
    print!(rt; "{n} ")
}

// Writes a number with its sign and a blank.
fn put_signed(rt: &impl Print, z: i64) -> io::Result<()> {
    print!(rt; "{z} ")
}

// The value of a digit; any other byte counts as 0.
fn digit(b: u8) -> u64
    ensures { result ≤ 9 }
{
    match b {
        b'0'..=b'9' => (b - b'0') as u64,
        _ => 0,
    }
}

// Three digits from place j on.
fn group_at(record: &[u8; RECORD], j: usize) -> u64
    requires { j + 3 ≤ 2241 }
    ensures { result ≤ 999 }
{
    (digit(record[j]) * BASE + digit(record[j + 1])) * BASE + digit(record[j + 2])
}

// The seven digits after the sign at place j.
fn magnitude_at(record: &[u8; RECORD], j: usize) -> u64
    requires { j + 8 ≤ 2241 }
    ensures { result ≤ 9999999 }
{
    let high = group_at(record, j + 1);
    let low = group_at(record, j + LOW_GROUP);
    (high * GROUP_BASE + low) * BASE + digit(record[j + DIGITS])
}

// The number at place j: a sign and seven digits.
fn number_at(record: &[u8; RECORD], j: usize) -> i64
    requires { j + 8 ≤ 2241 }
{
    let m = magnitude_at(record, j);
    let v = m as i64;
    if record[j] == b'-' { -v } else { v }
}

// Fills a table with the numbers from number `from` on.
fn fill(record: &[u8; RECORD], from: usize, table: &mut [i64])
    requires { from + length table.old ≤ 280 }
{
    for (i, z) in table.iter_mut().enumerate() {
        *z = number_at(record, (from + i) * FIELD);
    }
}

// The number at place j as a length of at most `most`; a number below 0 counts as 0.
fn length_at(record: &[u8; RECORD], j: usize, most: usize) -> usize
    requires { j + 8 ≤ 2241 }
    ensures { result ≤ most }
{
    if record[j] == b'-' {
        return 0;
    }
    most.min(magnitude_at(record, j) as usize)
}

// The head of a call.
fn head_of(record: &[u8; RECORD]) -> Head {
    head::from_numbers(&[
        number_at(record, NODE_COUNT),
        number_at(record, EDGE_COUNT),
        number_at(record, FACE_COUNT),
        number_at(record, NEXT_NODE),
        number_at(record, NEXT_EDGE),
        number_at(record, NEXT_FACE),
        number_at(record, POINTS),
    ])
}

// Writes an answer and the numbers of a list, as a line.
fn put_answer(rt: &impl Print, answer: Answer, list: &[i64]) -> io::Result<()> {
    put(rt, answer.refusal)?;
    put_signed(rt, answer.value)?;
    for z in list {
        put_signed(rt, *z)?;
    }
    println!(rt; "")
}

// Lists the edges of a face of these tables.
fn list_edges(
    rt: &impl Print,
    record: &[u8; RECORD],
    nodes: &[i64],
    edges: &[i64],
    faces: &[i64],
    length: usize,
) -> io::Result<()>
    requires { length ≤ 48 }
{
    let mut list = [FILLER; LIST];
    let face = number_at(record, FACE);
    let listed = face_edges::edges_of_face(
        nodes,
        edges,
        faces,
        head_of(record),
        face,
        &mut list[..length],
    );
    put_answer(rt, Answer::from(listed), &list[..length])
}

// Lists the contents of these tables.
fn list_contents(
    rt: &impl Print,
    record: &[u8; RECORD],
    nodes: &[i64],
    edges: &[i64],
    faces: &[i64],
    length: usize,
) -> io::Result<()>
    requires { length ≤ 48 }
{
    let mut list = [FILLER; LIST];
    let answer = contents::contents(nodes, edges, faces, head_of(record), &mut list[..length]);
    put_answer(rt, answer, &list[..length])
}

// Makes both calls on the tables of a record.
fn call(rt: &impl Print, record: &[u8; RECORD]) -> io::Result<()> {
    let mut nodes = [0i64; NODE_CELLS];
    let mut edges = [0i64; EDGE_CELLS];
    let mut faces = [0i64; FACE_CELLS];
    fill(record, NODES_AT, &mut nodes);
    fill(record, EDGES_AT, &mut edges);
    fill(record, FACES_AT, &mut faces);
    let a = length_at(record, NODES_LENGTH, NODE_CELLS);
    let b = length_at(record, EDGES_LENGTH, EDGE_CELLS);
    let c = length_at(record, FACES_LENGTH, FACE_CELLS);
    let d = length_at(record, LIST_LENGTH, LIST);
    list_edges(rt, record, &nodes[..a], &edges[..b], &faces[..c], d)?;
    list_contents(rt, record, &nodes[..a], &edges[..b], &faces[..c], d)
}

// Fills a buffer; false where the input ends before.
fn read_full(input: &mut impl Read, buf: &mut [u8]) -> io::Result<bool> {
    match input.read_exact(buf) {
        Ok(()) => Ok(true),
        Err(e) if e.kind() == ErrorKind::UnexpectedEof => Ok(false),
        Err(e) => Err(e),
    }
}

// Reads a record and answers it; false at the end of the input.
fn next(rt: &impl Print, input: &mut impl Read) -> io::Result<bool> {
    let mut record = [0u8; RECORD];
    if !read_full(input, &mut record)? {
        return Ok(false);
    }
    call(rt, &record)?;
    Ok(true)
}

// The loop has a bound that no run comes to.
fn main(rt: HostRuntime) -> io::Result<()> {
    let mut input = rt.stdin();
    for _ in 0..u64::MAX {
        if !next(&rt, &mut input)? {
            break;
        }
    }
    Ok(())
}
