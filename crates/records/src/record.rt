// A fact record, as the console holds it.
ghost use Rattle.std.specs.Prelude.{◌≡◌};
ghost use Rattle.records.specs.Rows.{record_of, fact_of};

use site::Fact;
use writer::HasFact;

// "A record has predicate, subject and object"
#[repr(C)]
#[derive(Clone, Copy)]
pub struct Record {
    pub predicate: u32,
    pub subject: u32,
    pub object: u32,
}

impl From<Fact> for Record {
    ghost from_gives = { λ fact r. r ≡ record_of fact };

    fn from(fact: Fact) -> Self {
        Self {
            predicate: fact.predicate,
            subject: fact.subject,
            object: fact.object,
        }
    }
}

impl HasFact for Record {
    ghost fact_of = { fact_of };

    fn fact(self) -> Fact {
        Fact::new(self.predicate, self.subject, self.object)
    }
}
