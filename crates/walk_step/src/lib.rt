// One step of the walk, from what a Select heard: the walk goes on, keeps an id and goes on, is done, or ends early.
// A step depends on how many ids the list holds, and not on the list.
#![tactic(auto)]

ghost use Rattle.std.specs.Prelude.{◌≡◌, ◌≤◌};
ghost use Rattle.hearing.specs.Heard.{kind_of, id_in};
ghost use Rattle.walk_table.specs.declared.Table.{Table};
ghost use Rattle.walk.specs.Moves.{walk_of};
ghost use Rattle.walk_step.specs.Steps.{going, descend, leave, silent, kept, confirming, hears, mine, other};
ghost use Rattle.walk_step.specs.Steps.{settled, tell, step};
ghost use Rattle.walk_step.specs.Joined.{joined};

use hearing::Hearing;
use ids::Id;
use walk::{Phase, Place};

// How a walk ends early: document 01's refusals 12, 14 and 15, and its outcome 23.
#[derive(Clone, Copy)]
pub enum End {
    DuplicateUid,
    LongId,
    TableFull,
    Unaddressed,
}

// How a walk goes on: what its next Select is for, and its place.
#[derive(Clone, Copy)]
pub struct Going {
    pub phase: Phase,
    pub place: Place,
}

// What a step does, unless the walk ends early. On: the walk goes on. Keeps: it keeps an id and goes on. Done: it is
// done.
#[derive(Clone, Copy)]
pub enum Move {
    On(Going),
    Keeps(Going, Id),
    Done,
}

// A walk's place and how many ids its list holds, within the bounds.
#[derive(Clone, Copy)]
struct Spot {
    place: Place,
    count: usize,
    ghost depth_bound: { place.depth ≤ 128 },
    ghost count_bound: { count ≤ 64 },
}

// The walk goes on, and no id is kept.
#[tactic(auto, unfolding(crate::specs::Joined::joined))]
fn on(phase: Phase, place: Place) -> Result<Move, End>
    ensures { (t : Table) → joined result t ≡ going phase (walk_of place t) }
{
    Ok(Move::On(Going { phase, place }))
}

// Goes down to the zero child. A path of 128 bits has none, and the walk ends with 12.
#[tactic(auto, unfolding(crate::specs::Joined::joined, crate::specs::Steps::descend))]
fn descend(p: Place) -> Result<Move, End>
    ensures { (t : Table) → joined result t ≡ descend (walk_of p t) }
{
    if ids::MAX_BITS <= p.depth {
        return Err(End::DuplicateUid);
    }
    on(Phase::Asked, p.lower())
}

// The candidate's own child was asked for. The other child is next, whether or not the candidate was heard again.
#[tactic(auto, unfolding(crate::specs::Joined::joined, crate::specs::Steps::mine))]
fn mine(p: Place, h: Hearing) -> Result<Move, End>
    ensures { (t : Table) → joined result t ≡ mine (walk_of p t) (kind_of h) (id_in h) }
{
    let x = p.candidate;
    match h {
        Hearing::Nothing => on(Phase::Other(false), p),
        Hearing::One(id) => on(Phase::Other(id.same(x)), p),
        Hearing::TooLong => Err(End::LongId),
        Hearing::Unaddressed => on(Phase::Other(false), p),
        Hearing::Garble => on(Phase::Other(false), p),
    }
}

impl Spot {
    // The branch has ended: goes up to the nearest zero child and to the one child beside it, or to the deselect.
    #[tactic(auto, unfolding(crate::specs::Steps::leave, crate::specs::Steps::onward))]
    fn leave(self) -> Going
        ensures { (t : Table) → going result.phase (walk_of result.place t) ≡ leave (walk_of self.place t) }
    {
        let q = self.place.climb();
        if q.mark() == 1 {
            let place = q.turn();
            return Going {
                phase: Phase::Asked,
                place,
            };
        }
        Going {
            phase: Phase::Leaving,
            place: q,
        }
    }

    // Nothing was heard. After a silent zero child the one child counts as garble, and is not probed.
    #[tactic(auto, unfolding(crate::specs::Joined::joined, crate::specs::Steps::silent))]
    fn silent(self) -> Result<Move, End>
        ensures { (t : Table) → joined result t ≡ silent (walk_of self.place t) }
    {
        let p = self.place;
        if p.mark() == 1 {
            return descend(p.turn());
        }
        Ok(Move::On(self.leave()))
    }

    // Keeps an id. A 65th ends the walk.
    #[tactic(auto, unfolding(crate::specs::Joined::joined, crate::specs::Steps::kept))]
    fn kept(self, id: Id) -> Result<Move, End>
        ensures { (t : Table) → t.count ≡ self.count → joined result t ≡ kept (walk_of self.place t) id }
    {
        if walk_table::ROWS <= self.count {
            return Err(End::TableFull);
        }
        Ok(Move::Keeps(self.leave(), id))
    }

    // An id that begins with the path. Both children have to confirm it, unless it has no further bit.
    #[tactic(auto, unfolding(crate::specs::Steps::confirming))]
    fn confirming(self, id: Id) -> Result<Move, End>
        ensures { (t : Table) → t.count ≡ self.count → joined result t ≡ confirming (walk_of self.place t) id }
    {
        let p = self.place;
        let n = id.size();
        if p.depth < 8 * n {
            return on(Phase::Mine, p.holding(id));
        }
        self.kept(id)
    }

    // The path was asked for.
    #[tactic(auto, unfolding(crate::specs::Joined::joined, crate::specs::Steps::hears))]
    fn hears(self, h: Hearing) -> Result<Move, End>
        ensures { (t : Table) → t.count ≡ self.count
            → joined result t ≡ hears (walk_of self.place t) (kind_of h) (id_in h) }
    {
        let p = self.place;
        match h {
            Hearing::Nothing => self.silent(),
            Hearing::One(id) => {
                let path = p.path;
                if ids::path::begins(id, path, p.depth) {
                    return self.confirming(id);
                }
                descend(p)
            }
            Hearing::TooLong => Err(End::LongId),
            Hearing::Unaddressed => Err(End::Unaddressed),
            Hearing::Garble => descend(p),
        }
    }

    // Both children were asked for: the candidate is kept if it held, or the walk goes down.
    fn settled(self, held: bool) -> Result<Move, End>
        ensures { (t : Table) → t.count ≡ self.count → joined result t ≡ settled (walk_of self.place t) held }
    {
        let id = self.place.candidate;
        let place = self.place.holding(Id::none());
        if held {
            let q = Spot {
                place,
                count: self.count,
            };
            return q.kept(id);
        }
        descend(place)
    }

    // The other child was asked for. The candidate holds if it was heard again in its own child and this one is silent.
    #[tactic(auto, unfolding(crate::specs::Joined::joined, crate::specs::Steps::other))]
    fn other(self, good: bool, h: Hearing) -> Result<Move, End>
        ensures { (t : Table) → t.count ≡ self.count
            → joined result t ≡ other (walk_of self.place t) good (kind_of h) }
    {
        match h {
            Hearing::Nothing => self.settled(good),
            Hearing::One(_) => self.settled(false),
            Hearing::TooLong => Err(End::LongId),
            Hearing::Unaddressed => self.settled(false),
            Hearing::Garble => self.settled(false),
        }
    }

    // The step by what the Select was for.
    #[tactic(auto, unfolding(crate::specs::Joined::joined, crate::specs::Steps::tell, crate::specs::Steps::done, walk_table::specs::Rows::giving))]
    fn tell(self, phase: Phase, h: Hearing) -> Result<Move, End>
        ensures { (t : Table) → t.count ≡ self.count
            → joined result t ≡ tell (walk_of self.place t) phase (kind_of h) (id_in h) }
    {
        match phase {
            Phase::Asked => self.hears(h),
            Phase::Mine => mine(self.place, h),
            Phase::Other(good) => self.other(good, h),
            Phase::Leaving => Ok(Move::Done),
        }
    }
}

// The step of any walk. One with over 128 levels or 64 ids, which no calls lead to, ends with 12.
#[tactic(auto, unfolding(crate::specs::Joined::joined, crate::specs::Steps::step))]
pub fn step(p: Place, count: usize, phase: Phase, h: Hearing) -> Result<Move, End>
    ensures { (t : Table) → t.count ≡ count → joined result t ≡ step (walk_of p t) phase (kind_of h) (id_in h) }
{
    if ids::MAX_BITS < p.depth {
        return Err(End::DuplicateUid);
    }
    if walk_table::ROWS < count {
        return Err(End::DuplicateUid);
    }
    let spot = Spot { place: p, count };
    spot.tell(phase, h)
}
