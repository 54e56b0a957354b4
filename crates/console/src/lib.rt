// Tickets as lines of text, answered as they come.
#![tactic(auto)]

ghost use Rattle.std.specs.Prelude.{◌≡◌, ◌/◌, ◌≤◌, pos, length};
ghost use Rattle.lists.specs.Scans.{fold};
ghost use Rattle.curves.specs.Curves.{max_points};
ghost use Rattle.map.specs.Limits.{edge_width};
ghost use Rattle.map.specs.Loans.{lent_now};
ghost use Rattle.map.specs.Ticket.{emptied};
ghost use Rattle.outcomes.specs.Outcomes.{outcome_now};
ghost use Rattle.console.specs.Lines.{line_answered, served, finished};
ghost use Rattle.console.specs.Lines.{Bytes, DeskServed, InputServed, ProgramServed};
ghost use Rattle.console.specs.Desks.{desk_now, SameLoans, next_line, line_printed};
ghost use Rattle.console.specs.Texts.{answer_text, tagged_text, head_numbers, clamp_len, TextPut};
ghost use Rattle.console.specs.Texts.{used_text, sheet_text, done_text};
ghost use Rattle.console.specs.Wrote.{Wrote};
ghost use Rattle.console.specs.Printed.{byte_printed, printed, rest_printed, Took, Ends, Told, ProgramTold};

mod channel;

use arrayvec::ArrayVec;
pub use channel::Streams;
use map::{Answer, Head};
use outcomes::Done;
use std::io::{Read, Write};

// The bytes of a line that are kept: one more than a line may have.
const KEPT: usize = text::LINE + 1;

// The rows of each table.
pub const ROWS: usize = 200;

pub const NODE_CELLS: usize = ROWS * map::NODE_WIDTH;

pub const EDGE_CELLS: usize = ROWS * map::EDGE_WIDTH;

pub const FACE_CELLS: usize = ROWS * map::FACE_WIDTH;

// The bytes of an answer, at most: the refusal, the value and a line end.
const ANSWER: usize = printing::DIGITS + printing::CELL + 1;

// The bytes of a row, at most: a letter, the numbers of an edge and a line end.
const ROW: usize = 1 + map::EDGE_WIDTH * printing::CELL + 1;

// After some bytes of the input: the map after the lines that ended, and what is kept of the line that did not.
#[derive(Drop)]
struct Desk<'a> {
    nodes: &'a mut [i64],
    edges: &'a mut [i64],
    faces: &'a mut [i64],
    head: Head,
    line: ArrayVec<u8, KEPT>,
}

// The answer to one line, which is given without its line end.
pub fn answer_line(
    nodes: &mut [i64],
    edges: &mut [i64],
    faces: &mut [i64],
    h: Head,
    line: &[u8],
) -> Done
    ensures { outcome_now nodes.new edges.new faces.new result
        ≡ line_answered (lent_now nodes.old edges.old faces.old h) line.now }
{
    let mut list = [0i64; text::NUMBERS];
    let n = text::parse(line, &mut list).unwrap_or(0);
    engine::ticket(nodes, edges, faces, h, &list[..n])
}

// ---- what is printed

// Puts refusal and value.
fn put_answer(out: &mut [u8; ANSWER], answer: Answer) -> usize
    ensures { TextPut out.old (answer_text answer.refusal answer.value)
        out.new result }
{
    let at = printing::write_natural(out, 0, answer.refusal);
    printing::write_row(out, at, &[answer.value])
}

// Puts a row, no longer than an edge's, after a letter.
fn put_tagged(out: &mut [u8; ROW], tag: u8, row: &[i64]) -> usize
    requires { length row.now ≤ edge_width }
    ensures { TextPut out.old (tagged_text tag row.now) out.new result }
{
    out[0] = tag;
    printing::write_row(out, 1, row)
}

// The number from 0 to `most` that is nearest to z.
pub fn clamp(z: i64, most: usize) -> usize
    ensures { (result ≡ clamp_len z most) × (result ≤ most) }
{
    usize::try_from(z).unwrap_or(0).min(most)
}

// Writes an answer.
fn write_answer<R: Read, W: Write>(streams: &mut Streams<R, W>, answer: Answer)
    ensures { Wrote W.contents streams.old streams.new (answer_text answer.refusal answer.value) }
{
    let mut out = [0u8; ANSWER];
    let end = put_answer(&mut out, answer);
    streams.write(&out[..end]);
}

// Writes a row, no longer than an edge's, after a letter.
fn write_tagged<R: Read, W: Write>(streams: &mut Streams<R, W>, tag: u8, row: &[i64])
    requires { length row.now ≤ edge_width }
    ensures { Wrote W.contents streams.old streams.new (tagged_text tag row.now) }
{
    let mut out = [0u8; ROW];
    let end = put_tagged(&mut out, tag, row);
    streams.write(&out[..end]);
}

// Writes the head.
fn write_head<R: Read, W: Write>(streams: &mut Streams<R, W>, h: Head)
    ensures { Wrote W.contents streams.old streams.new (tagged_text 72 (head_numbers h)) }
{
    let mut numbers = [0i64; head::WIDTH];
    head::put_numbers(&mut numbers, h);
    write_tagged(streams, b'H', &numbers);
}

// Writes the rows of a table that are in use: as many as the head counts, as far as the table has them.
fn write_rows<R: Read, W: Write>(
    streams: &mut Streams<R, W>,
    tag: u8,
    table: &[i64],
    width: usize,
    count: i64,
)
    requires { (1 ≤ width) × (width ≤ edge_width) }
    ensures { Wrote W.contents streams.old streams.new (used_text tag width table.now count) }
{
    for i in 0..clamp(count, table.len() / width) {
        let at = i * width;
        write_tagged(streams, tag, &table[at..at + width]);
    }
}

// Writes the head and the rows in use.
fn write_sheet<R: Read, W: Write>(
    streams: &mut Streams<R, W>,
    nodes: &[i64],
    edges: &[i64],
    faces: &[i64],
    h: Head,
)
    ensures { Wrote W.contents streams.old streams.new
        (sheet_text (lent_now nodes.now edges.now faces.now h)) }
{
    write_head(streams, h);
    write_rows(streams, b'N', nodes, map::NODE_WIDTH, h.nodes);
    write_rows(streams, b'E', edges, map::EDGE_WIDTH, h.edges);
    write_rows(streams, b'F', faces, map::FACE_WIDTH, h.faces);
}

// Writes an answer, with `rows` the head and the rows in use after it.
fn write_done<R: Read, W: Write>(
    streams: &mut Streams<R, W>,
    nodes: &[i64],
    edges: &[i64],
    faces: &[i64],
    done: Done,
    rows: bool,
)
    ensures { Wrote W.contents streams.old streams.new
        (done_text rows (outcome_now nodes.now edges.now faces.now done)) }
{
    write_answer(streams, done.answer);
    if rows {
        write_sheet(streams, nodes, edges, faces, done.head);
    }
}

// ---- lines as they come

impl Desk<'_> {
    // Answers the line and writes the answer; the next line has no byte yet.
    fn serve_line<R: Read, W: Write>(&mut self, streams: &mut Streams<R, W>, rows: bool)
        ensures loans { SameLoans self.old self.new }
        ensures leaves { desk_now self.new ≡ next_line (desk_now self.old) }
        ensures writes { Wrote W.contents streams.old streams.new (line_printed rows (desk_now self.old)) }
    {
        let nodes = &mut *self.nodes;
        let edges = &mut *self.edges;
        let faces = &mut *self.faces;
        let done = answer_line(nodes, edges, faces, self.head, self.line.as_slice());
        write_done(streams, nodes, edges, faces, done, rows);
        self.head = done.head;
        self.line.clear();
    }

    // Takes one byte of the input: it ends a line, is kept, or is past what is kept.
    fn serve_byte<R: Read, W: Write>(&mut self, streams: &mut Streams<R, W>, b: u8, rows: bool)
        ensures loans { SameLoans self.old self.new }
        ensures leaves { desk_now self.new ≡ served (desk_now self.old) b }
        ensures writes { Wrote W.contents streams.old streams.new (byte_printed rows (desk_now self.old) b) }
    {
        if b == b'\n' {
            self.serve_line(streams, rows);
        } else if !self.line.is_full() {
            self.line.push(b);
        }
    }

    // Takes some bytes of the input, one after the other.
    fn serve_bytes<R: Read, W: Write>(
        &mut self,
        streams: &mut Streams<R, W>,
        bytes: &[u8],
        rows: bool,
    )
        ensures loans { SameLoans self.old self.new }
        ensures leaves { desk_now self.new ≡ fold served (desk_now self.old) bytes.now }
        ensures are_bytes { Bytes bytes.now }
        ensures writes { Wrote W.contents streams.old streams.new (printed rows (desk_now self.old) bytes.now) }
    {
        for b in bytes {
            self.serve_byte(streams, *b, rows);
        }
    }

    // Answers the input to its end. The loop has a bound that no run comes to.
    fn serve_input<R: Read, W: Write>(&mut self, streams: &mut Streams<R, W>, rows: bool)
        ensures loans { SameLoans self.old self.new }
        ensures leaves { DeskServed (desk_now self.old) (desk_now self.new) }
        ensures told { (took : Took R.remaining W.contents rows streams.old streams.new (desk_now self.old)
            (desk_now self.new)) × Ends R.remaining streams.new took.bytes }
    {
        let mut buf = [0u8; channel::INPUT];
        for _ in 0..u64::MAX {
            let got = streams.read_some(&mut buf);
            if got == 0 {
                break;
            }
            self.serve_bytes(streams, &buf[..got], rows);
        }
    }

    // At the input's end: answers the line that has not ended, if one has begun.
    fn serve_rest<R: Read, W: Write>(&mut self, streams: &mut Streams<R, W>, rows: bool)
        ensures loans { SameLoans self.old self.new }
        ensures leaves { (desk_now self.new).lent ≡ finished (desk_now self.old) }
        ensures writes { Wrote W.contents streams.old streams.new (rest_printed rows (desk_now self.old)) }
    {
        if !self.line.is_empty() {
            self.serve_line(streams, rows);
        }
    }
}

// Makes the empty map, for 12 points, and answers standard input to its end, a ticket a line; the head after it. Each
// line is answered on standard output as it comes, with `rows` the head and the rows in use after it.
pub fn serve_tables<R: Read, W: Write>(
    streams: &mut Streams<R, W>,
    nodes: &mut [i64],
    edges: &mut [i64],
    faces: &mut [i64],
    h: Head,
    rows: bool,
) -> Head
    ensures leaves { InputServed
        (emptied (lent_now nodes.old edges.old faces.old h) (pos max_points)).lent
        (lent_now nodes.new edges.new faces.new result) }
    ensures told { Told R.remaining W.contents rows streams.old streams.new
        (emptied (lent_now nodes.old edges.old faces.old h) (pos max_points)).lent
        (lent_now nodes.new edges.new faces.new result) }
{
    let empty = engine::empty_map(nodes, edges, faces, h, head::TWELVE_POINTS);
    let mut desk = Desk {
        nodes,
        edges,
        faces,
        head: empty.head,
        line: ArrayVec::new(),
    };
    desk.serve_input(streams, rows);
    desk.serve_rest(streams, rows);
    desk.head
}

// The same in tables of `ROWS` rows.
pub fn serve<R: Read, W: Write>(streams: &mut Streams<R, W>, rows: bool) -> Head
    ensures serves { ProgramServed result }
    ensures told { ProgramTold R.remaining W.contents rows streams.old streams.new result }
{
    let mut nodes = [0i64; NODE_CELLS];
    let mut edges = [0i64; EDGE_CELLS];
    let mut faces = [0i64; FACE_CELLS];
    serve_tables(
        streams,
        &mut nodes,
        &mut edges,
        &mut faces,
        head::empty(head::TWELVE_POINTS),
        rows,
    )
}
