//! Undo items as plans spell them, and walks over pages that plans filled.
mod chains;
mod pages;
mod plans;
