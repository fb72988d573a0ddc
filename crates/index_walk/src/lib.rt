// The entries of an index record one after another, by their lengths alone, without their separators: document 02, L1. Nothing is judged; of a sound record the steps
// meet its entries, of other bytes they give what their definition says, and look at nothing outside the record.
#![tactic(auto)]

ghost use Rattle.std.specs.Prelude.{◌≡◌};
ghost use Rattle.index_walk.specs.AidPasses.{pass_of, edge_first};

use index_step::PassPlace;

// Where the next entry ends, and where the control information of its section's highest lies.
#[derive(Clone, Copy)]
pub struct Edge {
    pub right: usize,
    pub end: usize,
}

// An entry: its number, what lies past it, and whether it is the last.
#[derive(Clone, Copy)]
pub struct Met {
    pub number: usize,
    pub next: Edge,
    pub last: bool,
}

// Before the first entry; before none in a record too short to have one.
pub fn start(ib: &[u8]) -> Edge
    ensures { result ≡ edge_first ib.now }
{
    if ib.len() < 24 {
        return Edge { right: 0, end: 0 };
    }
    Edge {
        right: ib.len() - 7,
        end: fields::read::<2>(ib, 22),
    }
}

// The next entry, with a pointer of w bytes; none where none can be read.
pub fn pass(ib: &[u8], w: usize, e: Edge) -> Option<Met>
    ensures { result ≡ pass_of w ib.now e }
{
    let r = e.right;
    if 4 < w || ib.len() < 24 || ib.len() < r || r < w + 2 {
        return None;
    }
    let l = usize::from(ib[r - (w + 1)]);
    let control = r - (w + 2);
    let field = if control == e.end { 2 } else { 0 };
    if control < l + field {
        return None;
    }
    let p = PassPlace {
        right: r,
        end: e.end,
        len: 0,
        high: 0,
    };
    let s = index_step::entry_at(ib, w, p);
    let q = index_step::past(ib, s, p);
    let next = Edge {
        right: q.right,
        end: q.end,
    };
    Some(Met {
        number: s.number,
        next,
        last: control == fields::read::<2>(ib, 20),
    })
}
