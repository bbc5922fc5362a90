//! Each test is about a few calls. If memory for what they work on is refused, the test ends at once.
//! If memory is refused to a call, that call fails and all is as it was. If each call returns Ok, the
//! test prints `answered`. `tools/check/refuse` refuses each request of a test in turn.
mod graphs;
mod rows;
