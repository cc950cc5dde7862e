//! Selects and edits the packets of a job, and writes its output.
//!
//! Only `cap_tools` calls it. [`Selector`] decides by its [`Policy`] which packets are kept, and
//! changes the kept ones if the policy is an edit. [`JobOutput`] writes them, as a capture or as
//! lines; it also writes reports and listings. [`Report`] has the facts about an input that `infos`
//! prints, and [`Tally`] counts and sums its packets. [`Window`] finds duplicates for
//! `edit -D`: it keeps the [`Mark`]s of the last packets, which are their lengths and digests.
#![tactic(auto)]

mod edit;
pub mod law;
mod links;
mod mark;
pub mod message;
mod output;
mod report;
mod selector;
mod tally;
mod window;

pub use mark::Mark;
pub use output::{JobOutput, Writing};
pub use report::Report;
pub use selector::{Policy, Selector, Verdict};
pub use tally::Tally;
pub use window::Window;
