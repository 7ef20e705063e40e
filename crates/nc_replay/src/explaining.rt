//! What is wrong with a line, and why a request is refused, in sentences on standard error.
//!
//! An [`ExplainedInput`] (`input`) passes the bytes of a reader on, and explains each line that will get the reply `bad line` (`mistakes`),
//! by the forms of lines (`shapes`). An [`ExplainedOutput`] (`output`) passes replies on to a writer, explains each refusal among them
//! (`refusals`), and counts the bad lines. Both keep the line at hand (`following`). The replies don't depend on either.

mod following;
mod input;
mod mistakes;
mod output;
mod refusals;
mod shapes;

pub use input::ExplainedInput;
pub use output::ExplainedOutput;
