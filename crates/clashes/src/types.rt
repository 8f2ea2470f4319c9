// The types of a fact, by the numbers of their nodes.
ghost use Rattle.std.specs.Prelude.{◌≡◌};
ghost use Rattle.clashes.specs.Coded.{coded_types};
ghost use Rattle.clashes.specs.Told.{types_told};

use site::{BasicRole, Fact, HasNode};

// A node at an ordered pair; a concept's is at a thing and itself.
#[derive(Clone, Copy)]
pub struct Typ {
    pub node: usize,
    pub from: u32,
    pub to: u32,
}

impl Typ {
    fn new(node: usize, from: u32, to: u32) -> Self
        ensures { result ≡ record { node = node; from = from; to = to } }
    {
        Self { node, from, to }
    }
}

// The types of a fact: a concept's fact has one, a role's has four.
#[derive(Clone, Copy)]
pub enum Types {
    One([Typ; 1]),
    Four([Typ; 4]),
}

impl Types {
    // "A(a): A at a. R(a,b): 64+2j at a, 64+2j+1 at b; 2j at the pair (a,b), 2j+1 at the pair (b,a)."
    #[tactic(auto, unfolding(crate::specs::Coded::coded_types, crate::specs::Types::types_of))]
    pub fn of(f: Fact) -> Self
        ensures { types_told result ≡ coded_types f }
    {
        let (a, b) = (f.subject, f.object);
        if f.of_concept() {
            return Self::One([Typ::new(f.concept().node(), a, a)]);
        }
        let forward = BasicRole::Forward(f.role());
        let inverse = BasicRole::Inverse(f.role());
        Self::Four([
            Typ::new(forward.some_node(), a, a),
            Typ::new(inverse.some_node(), b, b),
            Typ::new(forward.node(), a, b),
            Typ::new(inverse.node(), b, a),
        ])
    }

    // One after the other.
    pub fn as_slice(&self) -> &[Typ]
        ensures { result.now ≡ types_told self.now }
    {
        match self {
            Self::One(types) => types,
            Self::Four(types) => types,
        }
    }
}
