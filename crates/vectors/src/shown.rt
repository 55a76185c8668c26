// The key that a preparation shows: a part of the text, a part of the key buffer, and nothing on a refusal. A failed write is
// passed over.
pub fn run(rt: &impl Print) {
    let mut buffer = [b'.'; 4];
    show(rt, "az under i;octet", terms::OCTET, &mut buffer);
    show(
        rt,
        "az under i;ascii-casemap",
        terms::ASCII_CASEMAP,
        &mut buffer,
    );
    let mut short = [b'.'; 1];
    show(rt, "az with no room", terms::ASCII_CASEMAP, &mut short);
}

// Prepares the text az, and prints the key that is shown and the whole buffer.
fn show(rt: &impl Print, name: &str, collation: u32, buffer: &mut [u8]) {
    let text = b"az";
    // Under these collations the pages are neither tested nor touched.
    let answer = prepare::prepare(collation, text, &[], &[], &mut [], &mut [], buffer);
    let _ = print!(rt; "key of {name}: ");
    let _ = rt.write_all(prepare::shown_key(text, buffer, answer));
    let _ = print!(rt; ", buffer ");
    let _ = rt.write_all(buffer);
    let _ = println!(rt);
}
