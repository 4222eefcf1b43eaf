// FORMAT.md, The recipe and the page: a recipe, once written, replies to every colour what the page replies.
#![tactic(auto)]

mod compare;

use cie::Answered;
pub use compare::compare_replies;
use fixed::Refused;

// What writing a recipe, running it and evaluating on the page reply.
#[derive(Clone, Copy, Drop)]
pub struct Replies {
    pub written: Result<u32, Refused>,
    pub ran: Answered,
    pub evaluated: Answered,
}
