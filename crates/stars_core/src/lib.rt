//! The top call: from words, a shelf and two sinks to a status.
#![tactic(auto)]

mod answer;
mod case;
mod command;
mod compose;
mod frontier;
mod generating;
mod judging;
mod lines;
mod pieces;
mod plan;
mod read;
mod refusal;
mod rule_lines;
mod rules_text;
mod running;
mod status;
mod taking;
mod texts;
mod theorems;
mod top;
mod verify;

pub use answer::Answer;
pub use case::Case;
pub use command::{Command, find_command};
pub use frontier::frontier_query;
pub use generating::generate;
pub use judging::{judge_catalogue, judge_derivation, judge_query, judge_rules};
pub use pieces::Pieces;
pub use plan::plan_query;
pub use refusal::{Refusal, TextKind};
pub use rules_text::print_checked;
pub use status::{Ending, Status};
pub use texts::{check_text, frontier_texts, plan_texts, verify_texts};
pub use theorems::{
    accepted_texts_say, done_says, one_reading, one_verdict, texts_without_fault_say,
};
pub use top::stars;
pub use verify::verify_query;
