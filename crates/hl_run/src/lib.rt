//! The top call: what the words of the command line ask for, done over the devices that it is given.
#![tactic(auto)]

mod answering;
mod command;
mod end;
mod ended;
mod making;
mod mounted;
mod run;
mod served;
mod top;
mod turn;

pub use ended::Ended;
pub use top::highlight;
