// Answers as C sees them: plain structs by value, and each answer turned into one.
#![tactic(auto)]

mod shapes;
mod show;

pub use shapes::{
    DzyAnswer, DzyAsked, DzyCounts, DzyLength, DzyRefusal, DzyStart, DzyYield, NO_ITEM,
};
pub use show::{show_answer, show_asked, show_counts, show_length, show_start, show_yield};
