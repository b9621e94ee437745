mod edits;
mod slow;
mod vectors;
