//! What the programs that try cases share.
//!
//! A case is a JSON object on one line of a file `data/SUBJECT.jsonl`:
//!
//! ```text
//! {"case":"a sentence that says what it shows","do":"parse","query":"a OR","gives":{"error":"Syntax"}}
//! ```
//!
//! A driver is a program whose `args` name its files. It hands a [`Driver`] to [`run`], which has it make the public
//! calls of each case and compares what they gave with what the case says under `gives`. Another case costs no proof. A
//! driver whose calls start threads goes over its files by itself, by [`case_on`], [`judged`] and [`CaseCounts`]: what the
//! runtime may do is known of a function's own parameters, and not after a trait.
//!
//! - [`run`] prints `DIFFERS: FILE: sentence: what was given` for each case that differs, `FILE: N cases` at the end of
//!   each file and `N cases` at the end of all. The exit status is 1 if a case failed, and a file without a case
//!   fails. After the word `--wrong` each case of a file must differ: such a file shows that the driver sees faults.
//! - A [`Trial`] takes what a case gives, as JSON, piece by piece, and keeps the first [`Trouble`], which fails this
//!   case alone. So a function of a driver has no way out if a member is missing or a growth is refused, and no values
//!   to drop there: it takes a fraction of the time to prove.
//! - [`text`], [`list`], [`number`] and their like read the members of a case. One that is missing, of another kind
//!   or empty if it may not be is such a trouble, and read as empty. [`only`] refuses every member that the driver
//!   doesn't know.
//! - [`fits`] compares: `{"at_most":8}` matches each number up to 8, and everything else must be equal.
//! - A [`Refusal`](fts_model::Refusal) is given like other values, as `{"error":"StaleBatch"}`:
//!   [`Trial::give_refusal`]. If a call refused, its refusal replaces all that the case, or a step of it, gave.
#![tactic(auto)]

mod answers;
mod driver;
mod fields;
mod judge;
mod members;
mod operations;
mod trial;
mod trouble;

pub use answers::{give_answer, request_of};
pub use driver::{CaseCounts, Driver, Wanted, case_on, judged, run};
pub use fields::{fields_of, schema_of, schema_of_four, schema_with};
pub use judge::fits;
pub use members::{
    flag, has, ids, list, member, nonempty, number, numbers, only, only_in_case, optional_flag,
    optional_list, optional_text, size, text,
};
pub use operations::{document_of, op_of, term_of};
pub use trial::Trial;
pub use trouble::Trouble;
