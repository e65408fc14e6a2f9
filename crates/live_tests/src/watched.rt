//! A memory that its guest writes while a device reads it, and that keeps at run time what was read and written.
mod chance;
mod drawn;
mod due;
mod guests;
mod log;
mod memory;
mod pair;
mod replay;
mod ring;
mod tally;
