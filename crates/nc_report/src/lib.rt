//! Reports on raw code and on segments of linked files: their verdicts, and what a refusal means for the person building the code.
//!
//! [`report`] vets a [`Source`], the bytes of a file under its name, and writes the report on it. It is generic over the writer, so that
//! its contract can name the bytes. In text, the first line of a report is the verdict, and the lines after it begin with two spaces;
//! `objects` writes JSON instead, by `json`, and `outside` lists the addresses outside accepted code that its direct transfers target.
//!
//! `reporting` is [`report`], `source` is [`Source`], and `fault` says why a report isn't finished. `source_report` vets the source and
//! writes the report, and `counting` counts the instructions in a valid chunk.
//!
//! Refused code is `judged`. A `finding` is what is shown about its fault: the bundle, the target of a refused transfer by `targets`, and
//! what the fault means by `advice`, from the `kind` of the instruction. `explaining` writes it as lines, and `listing` its bundle as
//! code, with digits from `hexadecimal`. `forms` knows files that aren't raw code, and `saying` adds words that stand alone, as a line or
//! as a member. No clause says which `words` these are. Each line is added by `push_detail` of `nc_output` or by `lines`, which leave no
//! control byte in it.
//!
//! All faults of a refused chunk are found by one reading of it: `nc_reading` gives a class for each byte, and passes over places
//! that have no fault. `further` finds the faults by the classes, with transfers from `front`, `others` writes the lines about each
//! fault, and `totals` those about their numbers.
//!
//! A source may have [`Labels`], names for addresses of its code: `labels` finds the nearest one at or below an address. `numbers` adds
//! texts, and numbers as text. `law` has the laws of readings and of objects.
#![tactic(auto)]

mod advice;
mod counting;
mod explaining;
mod fault;
mod finding;
mod forms;
mod front;
mod further;
mod hexadecimal;
mod json;
mod judged;
mod kind;
mod labels;
mod law;
mod lines;
mod listing;
mod numbers;
mod objects;
mod others;
mod outside;
mod reporting;
mod saying;
mod source;
mod source_report;
mod targets;
mod totals;
mod words;

pub use fault::ReportFault;
pub use forms::is_hexadecimal;
pub use labels::{Label, Labels};
pub use law::{law_of_objects, law_of_readings};
pub use objects::push_file_object;
pub use reporting::report;
pub use source::Source;
