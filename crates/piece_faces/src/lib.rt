// Which pieces lie in which faces, by rows: a matrix of bits. A piece goes by the row of its lowest node. Vertex 2 f is
// face row f and has a bit for each piece in that face; vertex 2 p + 1 is piece row p and has one for each face that
// the piece is in. Bits keep both lists in order and free of repeats by themselves.
#![tactic(auto)]

ghost use Rattle.std.specs.Prelude.{◌≡◌, ◌&&◌, ◌||◌, ℕ, ◌+◌, ◌*◌, ◌<◌, ◌≤◌, length};
ghost use Rattle.lists.specs.Tests.{same};
ghost use Rattle.piece_faces.specs.Bits.{span, words, cells, bit_at, Joined, first_of, related_but};

// Rows of faces and of pieces are below this: the first number of whole words that holds the map's limits.
pub const SPAN: usize = 1024;

const WORD: usize = 64;

// The words of a vertex.
const WORDS: usize = SPAN / WORD;

// The words of the matrix.
pub const CELLS: usize = 2 * SPAN * WORDS;

// Sets bit y of vertex v.
fn set_bit(graph: &mut [u64], v: usize, y: usize)
    requires { (v * words + words ≤ length graph.old) × (y < span) }
    ensures { (w z : ℕ) → z < span
        → bit_at graph.new w z ≡ (bit_at graph.old w z || same w v && same z y) }
{
    let at = v * WORDS + y / WORD;
    graph[at] |= 1 << (y % WORD);
}

// Relates piece row p to face row f.
pub fn relate(graph: &mut [u64], p: usize, f: usize)
    requires { (length graph.old ≡ cells) × (p < span) × (f < span) }
    ensures { Joined graph.old p f graph.new }
{
    set_bit(graph, f * 2, p);
    set_bit(graph, p * 2 + 1, f);
}

// The first bit of vertex v from `from` on, but bit `but`: found, or missing. A word without further bits is passed at
// once.
pub fn next_related(graph: &[u64], v: usize, from: usize, but: usize) -> Option<usize>
    requires { v * words + words ≤ length graph.now }
    ensures { result ≡ first_of (related_but graph.now v from but) }
{
    let mut y = from;
    while y < SPAN {
        let rest = graph[v * WORDS + y / WORD] >> (y % WORD);
        if rest == 0 {
            y += WORD - y % WORD;
        } else {
            y += rest.trailing_zeros() as usize;
            if y != but {
                return Some(y);
            }
            y += 1;
        }
    }
    None
}
