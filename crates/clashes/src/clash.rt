// Which facts are alone, and which two clash, by the tables.
ghost use Rattle.std.specs.Prelude.{◌≡◌, ◌&&◌, not, eqb};
ghost use Rattle.site.specs.Lists.{any};
ghost use Rattle.site.specs.Codes.{role_code};
ghost use Rattle.site.specs.Told.{basic_role_told};
ghost use Rattle.clashes.specs.Types.{itself};
ghost use Rattle.clashes.specs.Marks.{alone, contradict};
ghost use Rattle.clashes.specs.Coded.{coded_types, related_at, relates_coded, has_role, split_coded, far, supports_coded};
ghost use Rattle.clashes.specs.Told.{clashes_told};

use crate::types::{Typ, Types};
use site::{BasicRole, Fact};
use tables::Table;

// Two types at one place that a table relates.
pub fn related(table: &Table, x: Typ, y: Typ) -> bool
    ensures { result ≡ related_at table.now x y }
{
    x.from == y.from && x.to == y.to && table.get(x.node, y.node)
}

// A type that a table relates to some of these.
fn relates(table: &Table, x: Typ, types: &[Typ]) -> bool
    ensures { result ≡ any (related_at table.now x) types.now }
{
    types.iter().any(|y| related(table, x, *y))
}

// "one of whose types, at a or at the pair, is included in the asked code"
pub fn supports(included: &Table, asked: Typ, f: Fact) -> bool
    ensures { result ≡ supports_coded included.now asked f }
{
    Types::of(f)
        .as_slice()
        .iter()
        .any(|x| related(included, *x, asked))
}

// Facts with no thing in common.
#[tactic(auto, unfolding(crate::specs::Coded::far))]
fn are_far(f: Fact, g: Fact) -> bool
    ensures { result ≡ far f g }
{
    f.subject != g.subject && f.subject != g.object && f.object != g.subject && f.object != g.object
}

// What facts clash by: the table of what is excluded, and the bits of the functional basic roles.
#[derive(Clone, Copy)]
pub struct Clashes<'a> {
    pub excluded: &'a Table,
    pub functional: u64,
}

impl Clashes<'_> {
    // Is a basic role functional?
    #[tactic(auto, unfolding(crate::specs::Coded::has_role, tables::specs::Bits::bit_of))]
    fn is_functional(&self, q: BasicRole) -> bool
        ensures { result ≡ has_role self.now.functional (role_code (basic_role_told q)) }
    {
        let code = q.code();
        code < BasicRole::COUNT as usize && (self.functional >> code) % 2 == 1
    }

    // Two types of two facts, or of one, that exclude each other.
    fn jar(&self, f: Fact, g: Fact) -> bool
        ensures { result ≡ any (relates_coded self.now.excluded.now g) (coded_types f) }
    {
        let types = Types::of(g);
        Types::of(f)
            .as_slice()
            .iter()
            .any(|x| relates(self.excluded, *x, types.as_slice()))
    }

    // "a functional q joins one thing to two different things by them"
    #[tactic(auto, unfolding(crate::specs::Coded::split_coded))]
    fn split(&self, f: Fact, g: Fact) -> bool
        ensures { result ≡ split_coded self.now.functional f g }
    {
        let role = f.role();
        !f.of_concept()
            && !g.of_concept()
            && f.predicate == g.predicate
            && (self.is_functional(BasicRole::Forward(role))
                && f.subject == g.subject
                && f.object != g.object
                || self.is_functional(BasicRole::Inverse(role))
                    && f.object == g.object
                    && f.subject != g.subject)
    }

    // "Alone: two types of the fact (..) exclude each other." What is included and functional has no part in it.
    #[tactic(auto, using(crate::proofs::OfTests::alone_is))]
    pub fn is_alone(&self, f: Fact) -> bool
        ensures { result ≡ alone itself (clashes_told self.now) f }
    {
        self.jar(f, f)
    }

    // Two facts that contradict each other, by their types or by a functional role.
    #[tactic(auto, using(crate::proofs::OfTests::contradict_is))]
    pub fn contradict(&self, f: Fact, g: Fact) -> bool
        ensures { result ≡ contradict itself (clashes_told self.now) f g }
    {
        !are_far(f, g) && (self.jar(f, g) || self.split(f, g))
    }

    // A fact that is not alone and contradicts another.
    pub fn disputes(&self, f: Fact, g: Fact) -> bool
        ensures { result ≡ (contradict itself (clashes_told self.now) f g && not (alone itself (clashes_told self.now) g)) }
    {
        self.contradict(f, g) && !self.is_alone(g)
    }
}
