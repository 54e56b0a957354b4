// What an edit answers: the head after it, refusal and value. What its variant decides. The nodes of a new edge.
#![tactic(auto)]

ghost use Rattle.std.specs.Prelude.{◌≡◌, pos, nat_abs};
ghost use Rattle.lists.specs.Tables.{place};
ghost use Rattle.tables.specs.Tables.{same_z, column};
ghost use Rattle.map_rows.specs.Rows.{EdgeRow, edge_at};
ghost use Rattle.head.specs.Heads.{Counted};
ghost use Rattle.outcomes.specs.Outcomes.{Formed, done_of, end_rows};
ghost use Rattle.outcomes.specs.Variants.{own_or_next};

use map::{Answer, Head, Refusal, Variant};

// The head after a call and its answer.
#[derive(Clone, Copy)]
pub struct Done {
    pub head: Head,
    pub answer: Answer,
}

// What an edit leaves that is carried out: the head after it, and its value.
#[derive(Clone, Copy)]
pub struct Carried {
    pub head: Head,
    pub value: i64,
}

// Head and answer after a call: the head stays where it is turned down.
pub fn done_after(h: Head, r: Result<Carried, Refusal>) -> Done
    ensures { result ≡ done_of h r }
{
    match r {
        Ok(carried) => Done {
            head: carried.head,
            answer: Answer::from(Ok(carried.value)),
        },
        Err(refusal) => Done {
            head: h,
            answer: Answer::from(Err(refusal)),
        },
    }
}

// ---- New and Mod

// The number of an edge that an edit makes of row i: the row's own under Mod, the next one under New.
pub fn own_or_next(edges: &[i64], h: Head, how: Variant, i: usize) -> i64
    requires { Counted h × EdgeRow edges.now i }
    ensures { result ≡ pos (own_or_next h how (edge_at edges.now i).number) }
{
    let next = h.next_edge;
    match how {
        Variant::New => next,
        Variant::Mod => edges[i * map::EDGE_WIDTH],
    }
}

// ---- the nodes of a new edge

// The rows of the nodes where an edge is to start and end, where both are there.
pub fn find_ends(
    nodes: &[i64],
    edges: &[i64],
    faces: &[i64],
    h: Head,
    start: i64,
    end: i64,
) -> Option<(usize, usize)>
    requires { Formed nodes.now edges.now faces.now h }
    ensures { result ≡ end_rows
        (place (same_z start) 0 (column 4 nodes.now (nat_abs h.nodes)))
        (place (same_z end) 0 (column 4 nodes.now (nat_abs h.nodes))) }
{
    let n = head::to_usize(h.nodes);
    let u = tables::find_row(nodes, map::NODE_WIDTH, n, start)?;
    let v = tables::find_row(nodes, map::NODE_WIDTH, n, end)?;
    Some((u, v))
}
