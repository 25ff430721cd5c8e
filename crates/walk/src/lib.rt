// The walk of a discovery in fixed arrays: its moves from prefix to prefix, and the bits that its next Select asks for.
// Both depend on the walk's place only, which is the walk without its list.
#![tactic(auto)]

ghost use Rattle.std.specs.Prelude.{◌≡◌, ◌≤◌, ◌<◌, length};
ghost use Rattle.walk_table.specs.declared.Table.{Table};
ghost use Rattle.walk_table.specs.Rows.{no_table};
ghost use Rattle.walk.specs.Moves.{place_of, walk_of, no_walk, begin, mark_at, mark, lower, turn, climb, holding};
ghost use Rattle.walk.specs.Moves.{nobody, child, asks};

use ids::Id;
use walk_table::Table;

// A walk's place: the bits of the current prefix and their number, a mark for each level (0 for none, 1 for a zero
// child, 2 for a one child), and the id that is being confirmed. A contract on a place holds for the walk there with any
// list. Marks are kept as numbers, not an enum: a host's bytes may hold any (`loaded_walk` of host_state), and such a
// walk goes on. Kept as arrays with a number of levels: there is no heap.
#[derive(Clone, Copy)]
pub struct Place {
    pub path: [u8; ids::MAX_BYTES],
    pub depth: usize,
    pub marks: [u8; ids::MAX_BITS],
    pub candidate: Id,
}

// A walk: its place, and the ids found.
#[derive(Clone, Copy)]
pub struct Walk {
    pub place: Place,
    pub found: Table,
}

// What a Select of the walk asks for. Asked: the path. Mine: the candidate's own child. Other: its other child, with
// whether the candidate was heard again in its own. Leaving: the deselect at the end.
#[derive(Clone, Copy)]
pub enum Phase {
    Asked,
    Mine,
    Other(bool),
    Leaving,
}

// The bits of a Select, and how many. Bits after the first 128 are zero. Kept as an array with a count beside: there is
// no heap, and a deselect has 129 bits.
#[derive(Clone, Copy)]
pub struct Ask {
    pub bits: [u8; ids::MAX_BYTES],
    pub count: usize,
}

// The walk at a place, with a list.
pub fn walk_of(p: Place, found: Table) -> Walk
    ensures { result ≡ walk_of p found }
{
    Walk { place: p, found }
}

// The place when there is no walk: all zero.
pub fn no_place() -> Place
    ensures { walk_of result no_table ≡ no_walk }
{
    Place {
        path: [0; ids::MAX_BYTES],
        depth: 0,
        marks: [0; ids::MAX_BITS],
        candidate: Id::none(),
    }
}

// The place where a walk under a prefix of whole bytes begins.
pub fn begin(prefix: Id) -> Place
    ensures { walk_of result no_table ≡ begin prefix }
{
    // Kept as a local: the prover does not cover an array field that is read straight into a struct literal.
    let path = prefix.bytes;
    Place {
        path,
        depth: 8 * prefix.size(),
        ..no_place()
    }
}

// The bits of a deselect: 129 zero bits, which no id has.
pub fn nobody() -> Ask
    ensures { result ≡ nobody }
{
    Ask {
        bits: [0; ids::MAX_BYTES],
        count: 129,
    }
}

impl Walk {
    // The walk without its list.
    pub fn place(self) -> Place
        ensures { result ≡ place_of self }
    {
        self.place
    }
}

// The mark of the last of d levels: 0 for the given prefix, 1 for a zero child, 2 for a one child.
fn mark_at(marks: &[u8], d: usize) -> u8
    requires marks_len { length marks.now ≡ 128 }
    requires d_bound { d ≤ 128 }
    ensures { result ≡ mark_at marks.now d }
{
    if d == 0 { 0 } else { marks[d - 1] }
}

impl Place {
    pub fn mark(self) -> u8
        requires { self.depth ≤ 128 }
        ensures { (t : Table) → result ≡ mark (walk_of self t) }
    {
        mark_at(&self.marks, self.depth)
    }

    // Goes down to the zero child.
    pub fn lower(mut self) -> Place
        requires { self.depth < 128 }
        ensures { (t : Table) → walk_of result t ≡ lower (walk_of self t) }
    {
        let d = self.depth;
        self.marks[d] = 1;
        self.depth = d + 1;
        self
    }

    // Goes from a zero child to the one child beside it.
    pub fn turn(mut self) -> Place
        requires depth_nonzero { 0 < self.depth }
        requires depth_bound { self.depth ≤ 128 }
        ensures { (t : Table) → walk_of result t ≡ turn (walk_of self t) }
    {
        let d = self.depth - 1;
        self.path = ids::set_bit(self.path, d);
        self.marks[d] = 2;
        self
    }

    // The same place with an id to confirm.
    pub fn holding(self, id: Id) -> Place
        ensures { (t : Table) → walk_of result t ≡ holding (walk_of self t) id }
    {
        Place {
            candidate: id,
            ..self
        }
    }

    // Goes up, out of each one child, to the nearest zero child or the given prefix.
    pub fn climb(self) -> Place
        requires { self.depth ≤ 128 }
        ensures t_value { (t : Table) → walk_of result t ≡ climb self.depth (walk_of self t) }
        ensures depth_bound { result.depth ≤ 128 }
    {
        let mut path = self.path;
        let mut marks = self.marks;
        let mut d = self.depth;
        while mark_at(&marks, d) == 2 {
            d -= 1;
            // Kept as a local: the prover does not cover a call whose array goes straight into another local.
            let cut = ids::path::cut(path, d);
            path = cut;
            marks[d] = 0;
        }
        Place {
            path,
            depth: d,
            marks,
            candidate: self.candidate,
        }
    }

    // The bits of a child: the path and one more bit.
    pub fn child(self, bit: bool) -> Ask
        requires { self.depth ≤ 128 }
        ensures { (t : Table) → result ≡ child (walk_of self t) bit }
    {
        let d = self.depth;
        let count = d + 1;
        let bits = self.path;
        if !bit {
            return Ask { bits, count };
        }
        if ids::MAX_BITS <= d {
            return Ask { bits, count };
        }
        let more = ids::set_bit(bits, d);
        Ask { bits: more, count }
    }

    // The bits that the next Select asks for. A path of over 128 bits asks for a deselect.
    pub fn asks(self, p: Phase) -> Ask
        ensures { (t : Table) → result ≡ asks (walk_of self t) p }
    {
        let d = self.depth;
        if ids::MAX_BITS < d {
            return nobody();
        }
        let next = self.candidate.bit(d);
        match p {
            Phase::Asked => {
                // Kept as a local: as in `begin`.
                let bits = self.path;
                Ask { bits, count: d }
            }
            Phase::Mine => self.child(next),
            Phase::Other(_) => self.child(!next),
            Phase::Leaving => nobody(),
        }
    }
}
