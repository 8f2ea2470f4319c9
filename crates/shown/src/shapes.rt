// The answers as C sees them: plain structs by value, with zeros in the fields that do not apply.
ghost use Rattle.std.specs.Prelude.{◌≡◌};
ghost use Rattle.shown.specs.Shown.{refused};

use number::Refusal;
use records::Record;

// The item of a refusal that is about none.
pub const NO_ITEM: u32 = 65535;

// A refusal's number, side, place and item; number 0: not refused.
#[repr(C)]
#[derive(Clone, Copy)]
pub struct DzyRefusal {
    pub number: u32,
    pub side: u32,
    pub place: u64,
    pub item: u32,
}

impl DzyRefusal {
    // Not refused.
    pub const NONE: Self = Self {
        number: 0,
        side: 0,
        place: 0,
        item: 0,
    };
}

impl From<Refusal> for DzyRefusal {
    ghost from_gives = { λ r shown. shown ≡ refused r };

    fn from(r: Refusal) -> Self {
        Self {
            number: u32::from(r.fault),
            side: u32::from(r.side),
            place: r.place as u64,
            item: r.item.unwrap_or(NO_ITEM),
        }
    }
}

#[repr(C)]
#[derive(Clone, Copy)]
pub struct DzyCounts {
    pub refused: DzyRefusal,
    pub facts: u32,
    pub kept: u32,
    pub alone: u32,
    pub disputed: u32,
}

#[repr(C)]
#[derive(Clone, Copy)]
pub struct DzyAsked {
    pub refused: DzyRefusal,
    pub mark: u32,
    pub partner: u32,
}

#[repr(C)]
#[derive(Clone, Copy)]
pub struct DzyAnswer {
    pub refused: DzyRefusal,
    pub yes: u32,
    pub fact: u32,
}

#[repr(C)]
#[derive(Clone, Copy)]
pub struct DzyLength {
    pub refused: DzyRefusal,
    pub length: u64,
}

// Where a reader starts.
#[repr(C)]
#[derive(Clone, Copy)]
pub struct DzyStart {
    pub refused: DzyRefusal,
    pub at: u64,
}

// What a reader yields; found 0: it is done.
#[repr(C)]
#[derive(Clone, Copy)]
pub struct DzyYield {
    pub refused: DzyRefusal,
    pub found: u32,
    pub fact: Record,
}
