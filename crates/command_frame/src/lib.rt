//! The frame of all commands: files are read, reports and refusals are made, and said.
//!
//! A command is a crate above this one. It reads its files by `instance_of`, `plan_of` and their like, writes files, if
//! it does, by `put_plan` and its like, and says what is due by `say_report` or its parts. `Ends` states how a run
//! comes to its end, whatever the command.
//!
//! A command that writes one file of which the text may be too long knows the length of the text before it opens the
//! file. It refuses a text that is longer than a limit by `refuse_long`, and changes no other file: `KeepsAllBut` and
//! `Opens` are the words for that in its promises.
//!
//! A certificate may be of any kind that is a `FileCertificate`: how it is read, what it claims, and how it is written.
//! `CertificateKind` is what contracts see of a kind, and `plain_kind` that of versions 1 and 2.
//!
//! `Completes` is what a run promises in which nothing goes wrong: the files of the command are read, and no fault
//! rose. The laws of the programs say it of each of their commands.
#![tactic(auto)]

mod certificate;
mod instance_line;
mod long_output;
mod opening;
mod plain;
mod reading;
mod refusal;
mod report;
mod saying;
mod source;
mod text;
mod writing;

pub use certificate::FileCertificate;
pub use long_output::refuse_long;
pub use opening::{Opening, opening_of};
pub use reading::{certificate_of, given_plan_of, instance_of, plan_of, script_of};
pub use refusal::{MEMORY_LINE, Refusal, WORDS_LINE, leaf_text};
pub use report::{
    Report, accepted_text, feasible_text, infeasible_text, push_bound_line, push_bound_or_none,
    push_gap, push_gap_line, push_ranges, push_rounded, push_score,
};
pub use saying::{refuse, say, say_line, say_numbered, say_report};
pub use source::Source;
pub use text::{Text, push_numbered};
pub use writing::{WRITE_WORDS, put_certificate, put_moves, put_plan, say_written};
