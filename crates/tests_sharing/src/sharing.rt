//! Tests of locks that several threads want at once.

mod committing;
mod judging;
mod long_columns;
mod stories;
