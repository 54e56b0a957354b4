// The map type with its fixed limits, the head and the answer of a call. What they mean is in specs/.
#![tactic(auto)]

ghost use Rattle.std.specs.Prelude.{◌≡◌};
ghost use Rattle.map.specs.Limits.{limits};
ghost use Rattle.map.specs.Refusals.{number, answer_of};

// The map; its rows stand in three tables that the caller lends beside the head.
#[derive(Clone, Copy)]
pub struct Map {
    pub head: Head,
}

impl Map {
    pub const NODES: usize = 1000;

    pub const EDGES: usize = 2000;

    pub const FACES: usize = 1000;

    pub const POINTS: usize = curves::POINTS;

    pub const PLOTTER_POINTS: usize = 6;

    pub const COORDINATE: i64 = plane::COORDINATE;

    pub const LAST_NUMBER: i64 = 999999;

    // The limits as the definitions have them.
    pub fn limits() -> Limits
        ensures { result ≡ limits }
    {
        Limits {
            nodes: Map::NODES,
            edges: Map::EDGES,
            faces: Map::FACES,
            points: Map::POINTS,
            plotter_points: Map::PLOTTER_POINTS,
            coordinate: COORDINATE,
            last_number: LAST,
        }
    }
}

// A node row: number, x, y and containing face.
pub const NODE_WIDTH: usize = 4;

pub const X: usize = 1;

pub const Y: usize = 2;

pub const NODE_FACE: usize = 3;

// An edge row: number, start, end, next left, next right, left face, right face, point count, and the points.
pub const EDGE_WIDTH: usize = POINTS_AT + curves::CELLS;

pub const START: usize = 1;

pub const END: usize = 2;

pub const NEXT_LEFT: usize = 3;

pub const NEXT_RIGHT: usize = 4;

pub const LEFT: usize = 5;

pub const RIGHT: usize = 6;

pub const POINT_COUNT: usize = 7;

pub const POINTS_AT: usize = 8;

// A face row: its number and its rectangle.
pub const FACE_WIDTH: usize = 5;

pub const LEAST_X: usize = 1;

pub const LEAST_Y: usize = 2;

pub const GREATEST_X: usize = 3;

pub const GREATEST_Y: usize = 4;

// Directed edges, at most.
pub const DARTS: usize = 2 * Map::EDGES;

// The reverse of the last edge.
pub const LEAST_LINK: i64 = -Map::LAST_NUMBER;

// A next number, at most: then the last number is given.
pub const LAST_NEXT: i64 = Map::LAST_NUMBER + 1;

pub const NUMBERS: usize = LAST_NEXT as usize;

const COORDINATE: u64 = Map::COORDINATE as u64;

const LAST: u64 = Map::LAST_NUMBER as u64;

#[derive(Clone, Copy)]
pub struct Limits {
    pub nodes: usize,
    pub edges: usize,
    pub faces: usize,
    pub points: usize,
    pub plotter_points: usize,
    pub coordinate: u64,
    pub last_number: u64,
}

// The head, lent beside the tables: the row counts, the next numbers, and the record of points, 6 or 12.
#[derive(Clone, Copy)]
pub struct Head {
    pub nodes: i64,
    pub edges: i64,
    pub faces: i64,
    pub next_node: i64,
    pub next_edge: i64,
    pub next_face: i64,
    pub points: i64,
}

// So many rows of each table, or so many numbers.
#[derive(Clone, Copy)]
pub struct Counts {
    pub nodes: usize,
    pub edges: usize,
    pub faces: usize,
}

// The two variants of kinds 7 to 14: New gives new numbers to what an edit changes, Mod keeps numbers.
#[derive(Clone, Copy, PartialEq, Eq)]
pub enum Variant {
    New,
    Mod,
}

// Why a call is turned down, by its number in document 01.
#[derive(Clone, Copy, PartialEq, Eq)]
pub enum Refusal {
    NotWhole = 1,
    NotInForm = 2,
    UnknownTicket = 3,
    NoSuchRow = 4,
    OutOfRange = 5,
    EqualNeighbours = 6,
    NotSimple = 7,
    EndsDiffer = 8,
    NotIsolated = 9,
    PointTaken = 10,
    DirectionTaken = 11,
    FacesDiffer = 12,
    NotOnCurve = 13,
    NodeInside = 14,
    Crosses = 15,
    NoSharedNode = 16,
    OtherEdgeEnds = 17,
    TooManyPoints = 18,
    OrderChanges = 19,
    NoRoom = 20,
    NumbersSpent = 21,
    SidesChange = 22,
    Overlaps = 23,
    Touches = 24,
    ListedTwice = 28,
}

impl From<Refusal> for u64 {
    ghost from_gives = { λ r n. n ≡ number r };

    fn from(r: Refusal) -> u64 {
        r as u64
    }
}

// Refusal and value: 0 and the value where a call is carried out, the refusal's number and 0 where it is turned down.
#[derive(Clone, Copy)]
pub struct Answer {
    pub refusal: u64,
    pub value: i64,
}

impl From<Result<i64, Refusal>> for Answer {
    ghost from_gives = { λ r a. a ≡ answer_of r };

    fn from(r: Result<i64, Refusal>) -> Answer {
        match r {
            Ok(value) => Answer { refusal: 0, value },
            Err(refusal) => Answer {
                refusal: u64::from(refusal),
                value: 0,
            },
        }
    }
}
