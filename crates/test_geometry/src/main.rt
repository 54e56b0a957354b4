// Runs every function on points, segments and curves on stored cases and writes the answers, a line a case.
// A case is a line of `NUMBERS` numbers of `DIGITS` digits: n, k, px, py, the points of the first curve, of which n are
// in use, those of the second, k in use, and two numbers that are not used. What is no case is answered by 0 alone.
#![tactic(auto)]

ghost use Rattle.std.specs.Prelude.{◌≡◌, ◌≤◌, ◌<◌, ◌+◌, length};
ghost use Rattle.plane.specs.Points.{InRange, max_coordinate};
ghost use Rattle.curves.specs.Curves.{Run};

use curve_edits::Line;
use plane::{Contact, Point, Turn};
use std::io;
use std::io::{ErrorKind, Read};

const DIGITS: usize = 7;

// A number and the blank or line end after it.
const FIELD: usize = DIGITS + 1;

const NUMBERS: usize = 30;

// The bytes of a case.
const LINE: usize = NUMBERS * FIELD;

// The places of the numbers of a case.
const FIRST_COUNT: usize = 0;

const SECOND_COUNT: usize = 1;

const X: usize = 2;

const Y: usize = 3;

const FIRST_CURVE: usize = 4;

const SECOND_CURVE: usize = FIRST_CURVE + 2 * POINTS;

// The points of a curve of a case, at most.
const POINTS: usize = 6;

const MOST_POINTS: u64 = POINTS as u64;

const COORDINATE: u64 = plane::COORDINATE as u64;

const BASE: u64 = 10;

// Digits are read three at a time, and the last by itself.
const GROUP: usize = 3;

const GROUP_BASE: u64 = BASE * BASE * BASE;

const LAST_DIGIT: usize = 2 * GROUP;

// The answer for a point that is not on the curve, and for two segments that share a stretch.
const NO_PLACE: u64 = 99;

const STRETCH: u64 = 3;

// The digest of a row is a number below a prime.
const FACTOR: u64 = 31;

const CELL_VALUES: u64 = COORDINATE + 1;

const PRIME: u64 = 1000003;

// Writes a number and a blank.
fn put(rt: &impl Print, n: u64) -> io::Result<()> {
    print!(rt; "{n} ")
}

// Writes 1 or 0.
fn put_bool(rt: &impl Print, b: bool) -> io::Result<()> {
    put(rt, b as u64)
}

// Writes a sign, 1 for a number below 0, and the magnitude; below 0 that is less one.
fn put_signed(rt: &impl Print, z: i64) -> io::Result<()> {
    if z < 0 {
        put(rt, 1)?;
        let m = -(z + 1);
        put(rt, m as u64)
    } else {
        put(rt, 0)?;
        put(rt, z as u64)
    }
}

// The number that is written for a turn.
fn turn_number(t: Turn) -> u64 {
    match t {
        Turn::Left => 2,
        Turn::Straight => 1,
        Turn::Right => 0,
    }
}

// The number that is written for a contact.
fn contact_number(c: Contact) -> u64 {
    match c {
        Contact::None => 0,
        Contact::Touch => 1,
        Contact::Crossing => 2,
        Contact::Stretch => STRETCH,
    }
}

// Answers the segments a b and c d, and the point p.
fn answer_segments(
    rt: &impl Print,
    a: Point,
    b: Point,
    c: Point,
    d: Point,
    p: Point,
) -> io::Result<()>
    requires { (InRange a) × (InRange b) × (InRange c) × (InRange d) × (InRange p) }
{
    put_signed(rt, plane::area2(a, b, c))?;
    put(rt, turn_number(plane::orient(a, b, c)))?;
    put_bool(rt, plane::segments_meet(a, b, c, d))?;
    put(rt, contact_number(plane::contact_of(a, b, c, d)))?;
    put_bool(rt, plane::on_segment(c, a, b))?;
    put_bool(rt, plane::straight_between(a, c, b))?;
    put_bool(rt, directions::passes_below(p, a, b))
}

// Answers the directions of a b and c d, and which is higher at x.
fn answer_directions(
    rt: &impl Print,
    a: Point,
    b: Point,
    c: Point,
    d: Point,
    x: u64,
) -> io::Result<()>
    requires { (InRange a) × (InRange b) × (InRange c) × (InRange d) × (x ≤ max_coordinate) }
{
    put(rt, directions::class_of(a, b) as u64)?;
    put_bool(rt, directions::comes_before(a, b, c, d))?;
    put_bool(rt, directions::same_direction(a, b, c, d))?;
    put_bool(rt, directions::is_higher(x, a, b, c, d))
}

// Answers the curves c and d, and the point p.
fn answer_curves(rt: &impl Print, c: &[i64], d: &[i64], p: Point) -> io::Result<()>
    requires { Run c.now × Run d.now × InRange p }
{
    put_bool(rt, curves::neighbours_differ(c))?;
    put_bool(rt, curves::is_simple(c))?;
    put(rt, curves::first_place(c, p).map_or(NO_PLACE, |i| i as u64))?;
    put(rt, contact_number(curves::curves_meeting(c, d)))?;
    put_signed(rt, curves::area_of(c))?;
    put_bool(rt, curves::odd_below(c, p))
}

// A digest with one cell more. A cell in range counts in full.
fn mixed(h: u64, z: i64) -> u64
    requires { h < 1000003 }
    ensures { result < 1000003 }
{
    if z < 0 {
        return 0;
    }
    (h * FACTOR + (z as u64) % CELL_VALUES) % PRIME
}

// Writes the number of points, and a digest of the numbers of the row.
fn put_line(rt: &impl Print, l: Line) -> io::Result<()> {
    let mut h: u64 = 0;
    for z in &l.cells {
        h = mixed(h, *z);
    }
    put(rt, l.count as u64)?;
    put(rt, h)
}

// Answers the curves made of c and d and the point p.
fn answer_lines(rt: &impl Print, c: &[i64], d: &[i64], p: Point) -> io::Result<()>
    requires { Run c.now × Run d.now × InRange p }
{
    put_line(rt, curve_edits::front_of(c, p))?;
    put_line(rt, curve_edits::back_of(c, p))?;
    put_line(rt, curve_edits::joined_of(c, d))?;
    put_line(rt, curve_edits::without_surplus(c))?;
    put_line(rt, curve_edits::reversed_of(c))
}

// Answers a case.
fn answer(rt: &impl Print, c: &[i64], d: &[i64], p: Point) -> io::Result<()>
    requires { Run c.now × Run d.now × InRange p }
{
    let c0 = curves::point_at(c, 0);
    let c1 = curves::point_at(c, 1);
    let d0 = curves::point_at(d, 0);
    let d1 = curves::point_at(d, 1);
    answer_segments(rt, c0, c1, d0, d1, p)?;
    answer_directions(rt, c0, c1, d0, d1, p.x)?;
    answer_curves(rt, c, d, p)?;
    answer_lines(rt, c, d, p)
}

// The number, where it is not below 0; any other counts as the greatest.
fn unsigned_or_max(z: i64) -> u64 {
    u64::try_from(z).unwrap_or(u64::MAX)
}

// Answers the numbers, where they are a case.
fn case(rt: &impl Print, v: &[i64]) -> io::Result<()>
    requires { length v.now ≡ 30 }
{
    let n = unsigned_or_max(v[FIRST_COUNT]);
    if MOST_POINTS < n {
        return Ok(());
    }
    let k = unsigned_or_max(v[SECOND_COUNT]);
    if MOST_POINTS < k {
        return Ok(());
    }
    let px = unsigned_or_max(v[X]);
    if COORDINATE < px {
        return Ok(());
    }
    let py = unsigned_or_max(v[Y]);
    if COORDINATE < py {
        return Ok(());
    }
    let p = Point { x: px, y: py };
    let end = FIRST_CURVE + 2 * (n as usize);
    let c = &v[FIRST_CURVE..end];
    let last = SECOND_CURVE + 2 * (k as usize);
    let d = &v[SECOND_CURVE..last];
    if !curves::is_run(c, curves::POINTS) {
        return Ok(());
    }
    if !curves::is_run(d, curves::POINTS) {
        return Ok(());
    }
    answer(rt, c, d, p)
}

// The value of a digit; any other byte counts as 0.
fn digit(b: u8) -> u64
    ensures { result ≤ 9 }
{
    match b {
        b'0'..=b'9' => (b - b'0') as u64,
        _ => 0,
    }
}

// Three digits from place j on.
fn group_at(line: &[u8; LINE], j: usize) -> u64
    requires { j + 3 ≤ 240 }
    ensures { result ≤ 999 }
{
    (digit(line[j]) * BASE + digit(line[j + 1])) * BASE + digit(line[j + 2])
}

// Seven digits from place j on.
fn number_at(line: &[u8; LINE], j: usize) -> u64
    requires { j + 7 ≤ 240 }
    ensures { result ≤ 9999999 }
{
    let high = group_at(line, j);
    let low = group_at(line, j + GROUP);
    (high * GROUP_BASE + low) * BASE + digit(line[j + LAST_DIGIT])
}

// The numbers of a line.
fn numbers(line: &[u8; LINE]) -> [i64; NUMBERS] {
    let mut v = [0i64; NUMBERS];
    for (i, z) in v.iter_mut().enumerate() {
        *z = number_at(line, i * FIELD) as i64;
    }
    v
}

// Fills a buffer; false where the input ends before.
fn read_full(input: &mut impl Read, buf: &mut [u8]) -> io::Result<bool> {
    match input.read_exact(buf) {
        Ok(()) => Ok(true),
        Err(e) if e.kind() == ErrorKind::UnexpectedEof => Ok(false),
        Err(e) => Err(e),
    }
}

// Reads a line and answers it; false at the end of the input.
fn next(rt: &impl Print, input: &mut impl Read) -> io::Result<bool> {
    let mut line = [0u8; LINE];
    if !read_full(input, &mut line)? {
        return Ok(false);
    }
    let v = numbers(&line);
    case(rt, &v)?;
    println!(rt; "0 ")?;
    Ok(true)
}

// The loop has a bound that no run comes to.
fn main(rt: HostRuntime) -> io::Result<()> {
    let mut input = rt.stdin();
    for _ in 0..u64::MAX {
        if !next(&rt, &mut input)? {
            break;
        }
    }
    Ok(())
}
