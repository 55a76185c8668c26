// Runs what no other program here runs: tables of the largest size in local arrays, and the key that a preparation shows (a
// call that the C interface leaves out). What is printed must be the file stdout beside this folder. Document 01's examples
// are proved of the definitions by the crate starred, and run with the edges of every refusal by tests/compare, beside the
// second program.

#![tactic(auto)]

mod shapes;
mod shown;
mod tables;

fn main(rt: HostRuntime) {
    tables::run(&rt);
    shown::run(&rt);
}
