//! The bytes that a file denotes: what is seen of its chunks, and its needles read.
#![tactic(auto)]

mod run;
mod seen_spans;
mod span;
mod span_fault;
mod stretch;

pub use seen_spans::{Span, Spans, visible};
pub use span::read_span;
pub use span_fault::SpanFault;
