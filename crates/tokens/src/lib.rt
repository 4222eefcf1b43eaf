// One token of a designer's text: what may stand there takes it. The closing bracket of a space makes its blocks.
#![tactic(auto)]

mod closing;
mod making;
mod taking;

pub use taking::take_token;
