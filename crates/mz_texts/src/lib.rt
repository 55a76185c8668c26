// The calls of the C interface on texts (include/mundeziwa.h, include/mundeziwa_accepted.h): each function calls one of the
// library's and stores the answer as a row of numbers. mz_texts_c exports them.
//
// Those whose names end in `_accepted` ask for a table that is accepted already and its pages; the others take any arguments at
// all. That pointers and lengths are what the headers say of them is the C caller's part: no proof sees it.

#![tactic(auto)]

pub mod one_text;
mod rows;
pub mod two_texts;
