// For C (include/mundeziwa.h, include/mundeziwa_accepted.h), the calls on texts: each function calls the one of its name in
// mz_texts, asks what that asks, and promises what it promises.

#![tactic(auto)]

mod one_text;
mod two_texts;
