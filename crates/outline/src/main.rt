// The ticket program with the contents of the sheet printed at the end: a line for each face and each piece, two blanks
// a level. Under a face stand the pieces in it, under a piece the other faces it bounds.
#![tactic(auto)]

ghost use Rattle.std.specs.Prelude.{◌≡◌, ◌+◌, ◌*◌, ◌≤◌, pos, length, replicate};
ghost use Rattle.map.specs.Loans.{lent_now};
ghost use Rattle.nesting.specs.Contents.{contents_of};
ghost use Rattle.console.specs.Texts.{TextPut};
ghost use Rattle.console.specs.Wrote.{Wrote};
ghost use Rattle.outline.specs.Lines.{levels, word_of, line_text, line_at, lines_text, contents_text};

use console::Streams;
use map::{Answer, Head};
use std::io;
use std::io::{Read, Write};

// Faces and pieces, at most; so many lines, and so many levels.
const PARTS: usize = 2 * console::ROWS;

const INDENT: usize = 2 * PARTS;

// The bytes of the longer word.
const WORD: usize = 5;

// The bytes of a line, at most: the indent, a word, a number and a line end.
const LINE: usize = INDENT + WORD + printing::CELL + 1;

// The numbers of a line of the contents, and of all of them.
const WIDTH: usize = 3;

const CELLS: usize = WIDTH * PARTS;

// The word for a face, 0, or a piece.
fn word_of(kind: i64) -> &'static str
    ensures { result.now ≡ word_of kind }
{
    if kind == 0 { "face" } else { "piece" }
}

// Puts the line of a face or a piece.
fn put_line(out: &mut [u8; LINE], depth: i64, kind: i64, number: i64) -> usize
    ensures { TextPut out.old (line_text depth kind number) out.new result }
{
    let n = console::clamp(depth, PARTS) * 2;
    out[..n].fill(b' ');
    let at = printing::put_text(out, n, word_of(kind).as_bytes());
    printing::write_row(out, at, &[number])
}

// Writes line i of the contents.
fn write_line<R: Read, W: Write>(streams: &mut Streams<R, W>, list: &[i64], i: usize)
    requires { i * 3 + 3 ≤ length list.now }
    ensures { Wrote W.contents streams.old streams.new (line_at list.now i) }
{
    let mut out = [0u8; LINE];
    let depth = list[i * WIDTH];
    let kind = list[i * WIDTH + 1];
    let number = list[i * WIDTH + 2];
    let end = put_line(&mut out, depth, kind, number);
    streams.write(&out[..end]);
}

// Writes so many lines of the contents.
fn write_lines<R: Read, W: Write>(streams: &mut Streams<R, W>, list: &[i64], count: usize)
    requires { count * 3 ≤ length list.now }
    ensures { Wrote W.contents streams.old streams.new (lines_text list.now count) }
{
    for i in 0..count {
        write_line(streams, list, i);
    }
}

// Writes the contents of a sheet; the answer to the call for them. It is 0 for every sheet that tickets made.
fn write_contents<R: Read, W: Write>(
    streams: &mut Streams<R, W>,
    nodes: &[i64],
    edges: &[i64],
    faces: &[i64],
    h: Head,
) -> Answer
    ensures answer { result ≡ (contents_of (lent_now nodes.now edges.now faces.now h) (replicate (levels * 3) (pos 0))
        ).answer }
    ensures writes { Wrote W.contents streams.old streams.new
        (contents_text (contents_of (lent_now nodes.now edges.now faces.now h) (replicate (levels * 3) (pos 0)))) }
{
    let mut list = [0i64; CELLS];
    let answer = contents::contents(nodes, edges, faces, h, &mut list);
    write_lines(streams, &list, console::clamp(answer.value, CELLS) / WIDTH);
    answer
}

fn main(rt: HostRuntime) -> io::Result<()> {
    let mut streams = Streams::new(rt.stdin(), rt.stdout());
    let mut nodes = [0i64; console::NODE_CELLS];
    let mut edges = [0i64; console::EDGE_CELLS];
    let mut faces = [0i64; console::FACE_CELLS];
    let h = console::serve_tables(
        &mut streams,
        &mut nodes,
        &mut edges,
        &mut faces,
        head::empty(head::TWELVE_POINTS),
        false,
    );
    write_contents(&mut streams, &nodes, &edges, &faces, h);
    streams.result()
}
