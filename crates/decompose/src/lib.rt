// Decomposition over a mapping table (document 01, "The mapping table"): the table check, the size and the octets of one code
// point's expansion, and a row of what ASCII becomes.
//
// `check_table` takes any two slices. Its work is bounded on any table: an entry's code point is unfolded until it has taken 32
// code points or 8 levels, and every code point that is looked up either takes one of the 32 or is split into ones that do;
// so on each of the levels 0 to 8 at most 33 are looked up, some 300 in all. So are 67 jamo, which decide for all syllables.
// The functions on one expansion and the row ask for an accepted table and its pages.

#![tactic(auto)]

mod depth;
mod plain;

ghost use Rattle.std.specs.Prelude.{◌≡◌, true, ◌≤◌, length};
ghost use Rattle.terms.specs.CodePoints.{scalar};
ghost use Rattle.terms.specs.Refusals.{check_outcome};
ghost use Rattle.utf8.specs.Utf8.{encodes};
ghost use Rattle.table.specs.Table.{table, entry_of, title_of, entry_parts, mapping_of};
ghost use Rattle.pages.specs.Pages.{pages};
ghost use Rattle.pages.specs.Promises.{Findable};
ghost use Rattle.decompose.specs.Levels.{full};
ghost use Rattle.decompose.specs.Steps.{expanded};
ghost use Rattle.decompose.specs.TableCheck.{table_answer, Usable};
ghost use Rattle.decompose.specs.Promises.{decomposing, Listed, Bounded, FullCounted, FullFilled, ExpansionCounted};
ghost use Rattle.decompose.specs.Promises.{ExpansionFilled};

pub use plain::plain_row;
use table::layout;
use terms::{CodePoint, Refusal};

// What unfolding came to: the octets of the code points, and the asks.
#[derive(Clone, Copy)]
pub struct Unfolded {
    pub octets: usize,
    pub asks: u64,
}

// Whether a table is accepted, or which of 3 to 7 refuses it.
pub fn check_table(entries: &[u32], pool: &[u32]) -> Result<(), Refusal>
    ensures { check_outcome result ≡ table_answer (table entries.now pool.now) }
{
    table::check_form(entries, pool)?;
    depth::check_levels(entries, pool)
}

// The octets of a code point's expansion, and the lookups for it.
pub fn size_expansion(
    c: CodePoint,
    entries: &[u32],
    pool: &[u32],
    presence: &[u64],
    ranks: &[u64],
) -> Unfolded
    requires usable { Usable (table entries.now pool.now) (pages presence.now ranks.now) }
    requires c_value { scalar c.0 ≡ true }
    ensures { ExpansionCounted (mapping_of (table entries.now pool.now)) c.0 result }
{
    let place = pages::find_entry(entries, pool, presence, ranks, c);
    let title = title_of(c, place, entries);
    let parts = title_parts(c, place, entries, pool, presence, ranks);
    if !decomposes(title, parts) {
        let octets = utf8::octet_count(title);
        return Unfolded { octets, asks: 2 };
    }
    let unfolded = size_unfolded(
        terms::LEVELS_MOST,
        title,
        parts,
        entries,
        pool,
        presence,
        ranks,
    );
    Unfolded {
        octets: unfolded.octets,
        asks: unfolded.asks + 1,
    }
}

// Writes a code point's expansion at the start of a slice that has room for it.
pub fn write_expansion(
    c: CodePoint,
    entries: &[u32],
    pool: &[u32],
    presence: &[u64],
    ranks: &[u64],
    out: &mut [u8],
) -> Unfolded
    requires usable { Usable (table entries.now pool.now) (pages presence.now ranks.now) }
    requires c_value { scalar c.0 ≡ true }
    requires c_in_bounds { length (expanded (mapping_of (table entries.now pool.now)) c.0) ≤ length out.old }
    ensures { ExpansionFilled (mapping_of (table entries.now pool.now)) c.0
        out.old result out.new }
{
    let place = pages::find_entry(entries, pool, presence, ranks, c);
    let title = title_of(c, place, entries);
    let parts = title_parts(c, place, entries, pool, presence, ranks);
    if !decomposes(title, parts) {
        let octets = utf8::write_character(title, out);
        return Unfolded { octets, asks: 2 };
    }
    let unfolded = write_unfolded(
        terms::LEVELS_MOST,
        title,
        parts,
        entries,
        pool,
        presence,
        ranks,
        out,
    );
    Unfolded {
        octets: unfolded.octets,
        asks: unfolded.asks + 1,
    }
}

// Whether a code point decomposes, of which the entries say these parts.
fn decomposes(c: CodePoint, listed: &[u32]) -> bool
    ensures { result ≡ decomposing c.0 listed.now }
{
    listed.len() != 0 || hangul::is_syllable(c)
}

// The titlecase of a code point whose entry was looked for.
fn title_of(c: CodePoint, place: Option<usize>, entries: &[u32]) -> CodePoint
    requires { place ≡ entry_of entries.now c.0 }
    ensures { result.0 ≡ title_of entries.now c.0 }
{
    match place {
        Some(i) => layout::title_at(entries, i),
        None => c,
    }
}

// What the entries say of that titlecase: what the code point's own says, if they are the same.
fn title_parts<'a>(
    c: CodePoint,
    place: Option<usize>,
    entries: &[u32],
    pool: &'a [u32],
    presence: &[u64],
    ranks: &[u64],
) -> &'a [u32]
    requires findable { Findable (table entries.now pool.now) (pages presence.now ranks.now) }
    requires place_value { place ≡ entry_of entries.now c.0 }
    ensures { result.now ≡ entry_parts (table entries.now pool.now)
        (title_of entries.now c.0) }
{
    let Some(i) = place else {
        return &pool[..0];
    };
    let title = layout::title_at(entries, i);
    if title.0 == c.0 {
        return table::parts_at(entries, pool, i);
    }
    pages::entry_parts(entries, pool, presence, ranks, title)
}

// The octets of the full decomposition of a code point of which the entries say these parts, or none of a syllable, and the asks
// of its unfolding.
fn size_unfolded(
    levels_left: usize,
    c: CodePoint,
    parts: &[u32],
    entries: &[u32],
    pool: &[u32],
    presence: &[u64],
    ranks: &[u64],
) -> Unfolded
    requires findable { Findable (table entries.now pool.now) (pages presence.now ranks.now) }
    requires listed { Listed (mapping_of (table entries.now pool.now)) c.0 parts.now }
    requires bounded { Bounded (mapping_of (table entries.now pool.now)) levels_left c.0 }
    ensures { FullCounted (mapping_of (table entries.now pool.now)) levels_left c.0 result }
{
    if parts.len() == 0 {
        let jamo = hangul::jamo_of(c);
        let by_rule = hangul::parts_among(c, &jamo);
        return size_unfolded(levels_left, c, by_rule, entries, pool, presence, ranks);
    }
    let mut octets = 0;
    let mut asked: u64 = 1;
    for &number in parts {
        let part = CodePoint(number);
        let inner = pages::entry_parts(entries, pool, presence, ranks, part);
        // Most parts are whole, and a call costs more than counting one.
        if !decomposes(part, inner) {
            octets += utf8::octet_count(part);
            asked += 1;
        } else {
            let sized = size_unfolded(levels_left - 1, part, inner, entries, pool, presence, ranks);
            octets += sized.octets;
            asked += sized.asks;
        }
    }
    Unfolded {
        octets,
        asks: asked,
    }
}

// Writes the full decomposition of such a code point at the start of a slice that has room for it.
fn write_unfolded(
    levels_left: usize,
    c: CodePoint,
    parts: &[u32],
    entries: &[u32],
    pool: &[u32],
    presence: &[u64],
    ranks: &[u64],
    out: &mut [u8],
) -> Unfolded
    requires findable { Findable (table entries.now pool.now) (pages presence.now ranks.now) }
    requires listed { Listed (mapping_of (table entries.now pool.now)) c.0 parts.now }
    requires c_value { scalar c.0 ≡ true }
    requires bounded { Bounded (mapping_of (table entries.now pool.now)) levels_left c.0 }
    requires c_in_bounds { length (encodes (full (mapping_of (table entries.now pool.now)) levels_left c.0)) ≤ length out.old }
    ensures { FullFilled (mapping_of (table entries.now pool.now)) levels_left c.0
        out.old result out.new }
{
    if parts.len() == 0 {
        let jamo = hangul::jamo_of(c);
        let by_rule = hangul::parts_among(c, &jamo);
        return write_unfolded(levels_left, c, by_rule, entries, pool, presence, ranks, out);
    }
    let mut at = 0;
    let mut asks: u64 = 1;
    for &number in parts {
        let part = CodePoint(number);
        let inner = pages::entry_parts(entries, pool, presence, ranks, part);
        // Most parts are whole, and a call costs more than writing one.
        if !decomposes(part, inner) {
            let octets = utf8::write_character(part, &mut out[at..]);
            at += octets;
            asks += 1;
        } else {
            let written = write_unfolded(
                levels_left - 1,
                part,
                inner,
                entries,
                pool,
                presence,
                ranks,
                &mut out[at..],
            );
            at += written.octets;
            asks += written.asks;
        }
    }
    Unfolded { octets: at, asks }
}
