// The pieces of a map: for each node row the row of the lowest node in its piece.
#![tactic(auto)]

ghost use Rattle.std.specs.Prelude.{◌≡◌, true, [], ◌+◌, ◌-◌, ◌<◌, ◌≤◌, pos, nat_abs, length, drop};
ghost use Rattle.std.specs.Int.Signed.{non_neg};
ghost use Rattle.lists.specs.Tables.{place};
ghost use Rattle.tables.specs.Tables.{same_z, column};
ghost use Rattle.map.specs.Limits.{node_width, max_nodes};
ghost use Rattle.map.specs.Rows.{has_node};
ghost use Rattle.map.specs.Darts.{arcs};
ghost use Rattle.map_rows.specs.Rows.{NodeRows, node_at, node_map, edge_map};
ghost use Rattle.piece_labels.specs.Labels.{Ended, Labelled, label_of, Leading, root_from};

// The row where the labels end that lead on from row j, each to a lower row.
fn root_of(labels: &[u16], j: u16) -> u16
    requires { j < length labels.now }
    ensures { result ≡ root_from labels.now j j }
{
    let mut r = j;
    while labels[r as usize] < r {
        r = labels[r as usize];
    }
    r
}

// The row of a node that is there.
fn row_of(nodes: &[i64], n: usize, index: &[u16], node: i64) -> u16
    requires { NodeRows nodes.now n × (n ≤ max_nodes) × (non_neg node ≡ true)
        × (has_node (node_map nodes.now n) (nat_abs node) ≡ true) × (length index.now ≡ 4096) }
    ensures { (result < n) × (node ≡ pos (node_at nodes.now result).number) }
{
    let Some(i) = tables::find_indexed(nodes, map::NODE_WIDTH, n, node, index) else {
        return 0;
    };
    i as u16
}

// Leads each row to itself: where there is no edge, each node is a piece.
fn label_apart(nodes: &[i64], n: usize, labels: &mut [u16])
    requires { (n ≤ max_nodes) × (length labels.old ≡ n) }
    ensures { Leading [] nodes.now n labels.new }
{
    for (i, label) in labels.iter_mut().enumerate() {
        *label = i as u16;
    }
}

// Joins the pieces of the two nodes of the edge that has k edges behind it: the higher root leads to the lower.
fn join_ends(
    nodes: &[i64],
    n: usize,
    index: &[u16],
    edges: &[i64],
    count: usize,
    k: usize,
    labels: &mut [u16],
)
    requires { Ended nodes.now n edges.now count × (length index.now ≡ 4096) × (k < count)
        × Leading (drop (count - k) (arcs (edge_map edges.now count))) nodes.now n labels.old }
    ensures { Leading (drop (count - (k + 1)) (arcs (edge_map edges.now count)))
        nodes.now n labels.new }
{
    let j = count - (k + 1);
    let a = root_of(
        labels,
        row_of(nodes, n, index, edges[j * map::EDGE_WIDTH + map::START]),
    );
    let b = root_of(
        labels,
        row_of(nodes, n, index, edges[j * map::EDGE_WIDTH + map::END]),
    );
    labels[a.max(b) as usize] = a.min(b);
}

// Joins the pieces of the nodes of all edges, the last edge first.
fn join_rows(
    nodes: &[i64],
    n: usize,
    index: &[u16],
    edges: &[i64],
    count: usize,
    labels: &mut [u16],
)
    requires { Ended nodes.now n edges.now count × (length index.now ≡ 4096)
        × Leading [] nodes.now n labels.old }
    ensures { Leading (arcs (edge_map edges.now count)) nodes.now n labels.new }
{
    for k in 0..count {
        join_ends(nodes, n, index, edges, count, k, labels);
    }
}

// Leads each row to its root at once.
fn flatten(nodes: &[i64], n: usize, edges: &[i64], count: usize, labels: &mut [u16])
    requires { Leading (arcs (edge_map edges.now count)) nodes.now n labels.old }
    ensures { Labelled (arcs (edge_map edges.now count)) nodes.now n
        labels.new }
{
    for i in 0..n {
        let j = labels[i] as usize;
        labels[i] = labels[j];
    }
}

// Labels each node row with the row of the lowest node in its piece.
pub fn label_rows(nodes: &[i64], n: usize, edges: &[i64], count: usize, labels: &mut [u16])
    requires { Ended nodes.now n edges.now count × (length labels.old ≡ n) }
    ensures { Labelled (arcs (edge_map edges.now count)) nodes.now n
        labels.new }
{
    let mut index = [0u16; tables::INDEX];
    tables::index_rows(nodes, map::NODE_WIDTH, n, &mut index);
    label_apart(nodes, n, labels);
    join_rows(nodes, n, &index, edges, count, labels);
    flatten(nodes, n, edges, count, labels);
}

// The label of a node.
pub fn label_of(nodes: &[i64], n: usize, labels: &[u16], node: i64) -> u16
    requires { NodeRows nodes.now n × (length labels.now ≡ n) }
    ensures { result ≡ label_of labels.now (place (same_z node) 0
        (column node_width nodes.now n)) }
{
    let Some(i) = tables::find_row(nodes, map::NODE_WIDTH, n, node) else {
        return 0;
    };
    labels[i]
}
