// The kind that a placement is searched with.
use crate::align::Align;
use crate::span::Span;
use facts::both::Both;

/// Span and Align together. It is exact, since Span is.
pub type Full = Both<Span, Align>;
