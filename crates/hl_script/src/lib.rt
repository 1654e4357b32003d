//! The script: its lines and their one spelling, the text of each answer, and the lines of an input.
#![tactic(auto)]

mod answer;
mod arguments;
mod buffer;
mod fault;
mod find;
mod kind;
mod line;
mod lines;
mod print;
mod reading;
mod refusal;
mod said;
mod word;

pub use answer::{answers_are_lines, print_answer};
pub use fault::LineFault;
pub use kind::Kind;
pub use line::{BadLine, Line};
pub use lines::Lines;
pub use reading::{read_line, read_user_line};
pub use said::Said;
