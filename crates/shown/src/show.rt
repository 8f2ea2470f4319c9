// An answer turned into the struct that C sees.
ghost use Rattle.std.specs.Prelude.{◌≡◌};
ghost use Rattle.shown.specs.Shown.{shown_counts, shown_asked, shown_answer, shown_length, shown_start, shown_yield};

use crate::shapes::{DzyAnswer, DzyAsked, DzyCounts, DzyLength, DzyRefusal, DzyStart, DzyYield};
use clashes::{Counts, Judged};
use number::Answer;
use records::Record;
use site::Fact;

pub fn show_counts(a: Answer<Counts>) -> DzyCounts
    ensures { result ≡ shown_counts a }
{
    match a {
        Ok(c) => DzyCounts {
            refused: DzyRefusal::NONE,
            facts: c.facts,
            kept: c.kept,
            alone: c.alone,
            disputed: c.disputed,
        },
        Err(r) => DzyCounts {
            refused: DzyRefusal::from(r),
            facts: 0,
            kept: 0,
            alone: 0,
            disputed: 0,
        },
    }
}

pub fn show_asked(a: Answer<Judged>) -> DzyAsked
    ensures { result ≡ shown_asked a }
{
    match a {
        Ok(j) => DzyAsked {
            refused: DzyRefusal::NONE,
            mark: j.mark(),
            partner: j.partner(),
        },
        Err(r) => DzyAsked {
            refused: DzyRefusal::from(r),
            mark: 0,
            partner: 0,
        },
    }
}

pub fn show_answer(a: Answer<Option<u32>>) -> DzyAnswer
    ensures { result ≡ shown_answer a }
{
    match a {
        Ok(Some(fact)) => DzyAnswer {
            refused: DzyRefusal::NONE,
            yes: 1,
            fact,
        },
        Ok(None) => DzyAnswer {
            refused: DzyRefusal::NONE,
            yes: 0,
            fact: 0,
        },
        Err(r) => DzyAnswer {
            refused: DzyRefusal::from(r),
            yes: 0,
            fact: 0,
        },
    }
}

pub fn show_length(a: Answer<usize>) -> DzyLength
    ensures { result ≡ shown_length a }
{
    match a {
        Ok(length) => DzyLength {
            refused: DzyRefusal::NONE,
            length: length as u64,
        },
        Err(r) => DzyLength {
            refused: DzyRefusal::from(r),
            length: 0,
        },
    }
}

pub fn show_start(a: Answer<usize>) -> DzyStart
    ensures { result ≡ shown_start a }
{
    match a {
        Ok(at) => DzyStart {
            refused: DzyRefusal::NONE,
            at: at as u64,
        },
        Err(r) => DzyStart {
            refused: DzyRefusal::from(r),
            at: 0,
        },
    }
}

// The record beside a refusal and beside the end.
const NO_RECORD: Record = Record {
    predicate: 0,
    subject: 0,
    object: 0,
};

pub fn show_yield(a: Answer<Option<Fact>>) -> DzyYield
    ensures { result ≡ shown_yield a }
{
    match a {
        Ok(Some(fact)) => DzyYield {
            refused: DzyRefusal::NONE,
            found: 1,
            fact: Record::from(fact),
        },
        Ok(None) => DzyYield {
            refused: DzyRefusal::NONE,
            found: 0,
            fact: NO_RECORD,
        },
        Err(r) => DzyYield {
            refused: DzyRefusal::from(r),
            found: 0,
            fact: NO_RECORD,
        },
    }
}
