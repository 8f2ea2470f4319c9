// The refusal of document 01's table, by value: what is at fault, on which side, at which place, and in which item.
ghost use Rattle.std.specs.Prelude.{◌≡◌};
ghost use Rattle.number.specs.Answer.{refusal, of_item, about, number_of, side_of};

// What is at fault: a line of document 01's table.
#[derive(Clone, Copy, PartialEq, Eq)]
pub enum Fault {
    Cut,
    Long,
    Over,
    Count,
    Unknown,
    Broken,
    After,
    Order,
    Room,
    NoFact,
    Kind,
    Object,
}

// "side (0 rules, 1 bundle, 2 the call's own arguments)"
#[derive(Clone, Copy, PartialEq, Eq)]
pub enum Side {
    Rules,
    Bundle,
    Call,
}

// The fault's number in the table.
impl From<Fault> for u32 {
    ghost from_gives = { λ fault n. n ≡ number_of fault };

    fn from(fault: Fault) -> u32 {
        match fault {
            Fault::Cut => 1,
            Fault::Long => 2,
            Fault::Over => 3,
            Fault::Count => 4,
            Fault::Unknown => 5,
            Fault::Broken => 6,
            Fault::After => 7,
            Fault::Order => 8,
            Fault::Room => 9,
            Fault::NoFact => 10,
            Fault::Kind => 11,
            Fault::Object => 12,
        }
    }
}

// The side's number.
impl From<Side> for u32 {
    ghost from_gives = { λ side n. n ≡ side_of side };

    fn from(side: Side) -> u32 {
        match side {
            Side::Rules => 0,
            Side::Bundle => 1,
            Side::Call => 2,
        }
    }
}

#[derive(Clone, Copy, PartialEq, Eq)]
pub struct Refusal {
    pub fault: Fault,
    pub side: Side,
    pub place: usize,
    pub item: Option<u32>,
}

// What was asked for, or a refusal.
pub type Answer<T> = Result<T, Refusal>;

impl Refusal {
    // A refusal that is about no item.
    pub fn new(fault: Fault, side: Side, place: usize) -> Self
        ensures { result ≡ refusal fault side place }
    {
        Self {
            fault,
            side,
            place,
            item: None,
        }
    }

    // A refusal of the call's own arguments, at place 0.
    pub fn of_call(fault: Fault) -> Self
        ensures { result ≡ refusal fault Side.Call 0 }
    {
        Self::new(fault, Side::Call, 0)
    }

    // The same refusal, about an item: the number of the rule or fact there.
    pub fn of_item(self, item: u32) -> Self
        ensures { result ≡ of_item item self }
    {
        Self {
            item: Some(item),
            ..self
        }
    }
}

// An answer about an item: if it is a refusal, it says which item.
pub fn about<T>(answer: Answer<T>, item: u32) -> Answer<T>
    ensures { result ≡ about item answer }
{
    answer.map_err(|r| r.of_item(item))
}
