//! The agreed vectors, what decoding refuses, and the page that the vectors leave.

mod groups;
mod judging;
mod pages;
mod vectors;
