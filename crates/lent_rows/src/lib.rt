// Rows in use of tables that are lent to be read, with what is known of them.
#![tactic(auto)]

ghost use Rattle.map_rows.specs.Rows.{NodeRows, EdgeRows};

// The node rows in use: in range, their numbers rising.
#[derive(Clone, Copy)]
pub struct Nodes<'a> {
    pub rows: &'a [i64],
    pub count: usize,
    ghost ranged: { NodeRows rows.now count },
}

// The edge rows in use: in range, their numbers rising, their links naming edges.
#[derive(Clone, Copy)]
pub struct Edges<'a> {
    pub rows: &'a [i64],
    pub count: usize,
    ghost ranged: { EdgeRows rows.now count },
}
