// Hostile tables of the largest size: each is checked, and the answer printed. A failed write is passed over.
use super::shapes::{FIRST, put_chain};

pub fn run(rt: &impl Print) {
    deep(rt);
    wide(rt);
}

// One part on each level: a chain, and the same closed to a cycle.
fn deep(rt: &impl Print) {
    let mut entries = [0; 65536];
    let mut pool = [0; 16384];
    put_chain(&mut entries, &mut pool, 16384, 1);
    check(rt, "a chain of 16384 levels", &entries, &pool);
    pool[16383] = FIRST;
    check(rt, "a cycle of 16384", &entries, &pool);
}

// Four parts on each level; then flat, and flat but for the last entry.
fn wide(rt: &impl Print) {
    let mut entries = [0; 65536];
    let mut pool = [0; 65536];
    put_chain(&mut entries, &mut pool, 16384, 4);
    check(rt, "4 parts on each of 16384 levels", &entries, &pool);
    pool.fill(0x41);
    check(rt, "16384 entries of 4 parts", &entries, &pool);
    pool[65535] = FIRST + 16383;
    check(
        rt,
        "the same with a fault in the last entry",
        &entries,
        &pool,
    );
}

// Checks a table, and prints the answer: for a refusal its number, place and detail.
fn check(rt: &impl Print, name: &str, entries: &[u32], pool: &[u32]) {
    let _ = match decompose::check_table(entries, pool) {
        Ok(()) => println!(rt; "table, {name}: accepted"),
        Err(r) => println!(rt;
            "table, {name}: refused {} {} {}",
            r.number, r.place, r.detail
        ),
    };
}
