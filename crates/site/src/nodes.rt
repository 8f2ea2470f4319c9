// Concepts and roles, basic concepts and basic roles, and what a rule file declares of them.
ghost use Rattle.std.specs.Prelude.{◌≡◌, ◌<◌, ◌^◌};
ghost use Rattle.site.specs.Kinds.{turned, role_in, Node};
ghost use Rattle.site.specs.Kinds.BasicConcept.{named, some};
ghost use Rattle.site.specs.Kinds.Node.{concept, role};
ghost use Rattle.site.specs.Codes.{role_of, role_code, concept_of, node_code, role_declared, concept_declared, predicate_declared};
ghost use Rattle.site.specs.Told.{basic_role_told, basic_concept_told};

// What has a node of its own: a basic concept, or a basic role.
pub trait HasNode: Copy {
    ghost node_told: { Self → Node };

    // Its number among the nodes.
    fn node(self) -> usize
        ensures { result ≡ node_code (node_told self) };
}

#[derive(Clone, Copy)]
pub struct Concept {
    pub number: u32,
}

impl Concept {
    // "Concept i: code i, 0 to 63."
    pub const COUNT: u32 = 64;

    pub fn new(number: u32) -> Self
        ensures { result ≡ record { number = number } }
    {
        Self { number }
    }

    // Its number among the nodes.
    pub fn node(self) -> usize
        ensures { result ≡ node_code (concept (named self.number)) }
    {
        self.number as usize
    }
}

#[derive(Clone, Copy)]
pub struct Role {
    pub number: u32,
}

impl Role {
    // "Role j: 0 to 31."
    pub const COUNT: u32 = 32;

    pub fn new(number: u32) -> Self
        ensures { result ≡ record { number = number } }
    {
        Self { number }
    }
}

// A role in one direction or the other.
#[derive(Clone, Copy)]
pub enum BasicRole {
    Forward(Role),
    Inverse(Role),
}

impl BasicRole {
    pub const COUNT: u32 = 64;

    // The basic role of a code, "2j for role j, 2j+1 for its inverse".
    #[tactic(auto, unfolding(crate::specs::Codes::role_of))]
    pub fn new(code: u32) -> Self
        ensures { basic_role_told result ≡ role_of code }
    {
        let role = Role::new(code / 2);
        if code % 2 == 0 {
            Self::Forward(role)
        } else {
            Self::Inverse(role)
        }
    }

    // Its code, small enough that more may be added to it.
    pub fn code(self) -> usize
        ensures exact { result ≡ role_code (basic_role_told self) }
        ensures small { result < 2 ^ 33 }
    {
        match self {
            Self::Forward(r) => 2 * r.number as usize,
            Self::Inverse(r) => 2 * r.number as usize + 1,
        }
    }

    // "The inverse of a basic role swaps the two."
    pub fn inverse(self) -> Self
        ensures { basic_role_told result ≡ turned (basic_role_told self) }
    {
        match self {
            Self::Forward(r) => Self::Inverse(r),
            Self::Inverse(r) => Self::Forward(r),
        }
    }

    // The role of which it is the one or the other direction.
    pub fn role(self) -> Role
        ensures { result ≡ record { number = role_in (basic_role_told self) } }
    {
        match self {
            Self::Forward(r) => r,
            Self::Inverse(r) => r,
        }
    }

    // The number among the nodes of "64+q for 'has some partner by q'".
    pub fn some_node(self) -> usize
        ensures { result ≡ node_code (concept (some (basic_role_told self))) }
    {
        Concept::COUNT as usize + self.code()
    }
}

impl HasNode for BasicRole {
    ghost node_told = { λ q. role (basic_role_told q) };

    fn node(self) -> usize {
        BasicConcept::COUNT as usize + self.code()
    }
}

// A concept, or having some partner by a basic role.
#[derive(Clone, Copy)]
pub enum BasicConcept {
    Named(Concept),
    SomeBy(BasicRole),
}

impl BasicConcept {
    pub const COUNT: u32 = 128;

    // The basic concept of a code, "a concept's code i, or 64+q for 'has some partner by q', 64 to 127".
    #[tactic(auto, unfolding(crate::specs::Codes::concept_of))]
    pub fn new(code: u32) -> Self
        ensures { basic_concept_told result ≡ concept_of code }
    {
        if code < Concept::COUNT {
            Self::Named(Concept::new(code))
        } else {
            Self::SomeBy(BasicRole::new(code - Concept::COUNT))
        }
    }
}

impl HasNode for BasicConcept {
    ghost node_told = { λ b. concept (basic_concept_told b) };

    fn node(self) -> usize {
        match self {
            Self::Named(c) => c.node(),
            Self::SomeBy(q) => q.some_node(),
        }
    }
}

// How many concepts and roles a rule file declares.
#[derive(Clone, Copy)]
pub struct Declared {
    pub concepts: u32,
    pub roles: u32,
}

impl Declared {
    // Is a basic role's code declared?
    pub fn has_role(self, code: u32) -> bool
        ensures { result ≡ role_declared self.roles code }
    {
        code / 2 < self.roles
    }

    // Is a basic concept's code declared?
    #[tactic(auto, unfolding(crate::specs::Codes::concept_declared))]
    pub fn has_concept(self, code: u32) -> bool
        ensures { result ≡ concept_declared self.concepts self.roles code }
    {
        if code < Concept::COUNT {
            return code < self.concepts;
        }
        self.has_role(code - Concept::COUNT)
    }

    // Is a fact's predicate declared?
    #[tactic(auto, unfolding(crate::specs::Codes::predicate_declared))]
    pub fn has_predicate(self, code: u32) -> bool
        ensures { result ≡ predicate_declared self.concepts self.roles code }
    {
        if code < Concept::COUNT {
            return code < self.concepts;
        }
        code - Concept::COUNT < self.roles
    }
}
