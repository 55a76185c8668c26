// The run of whole characters of a valid text that covers a part of its key: the text is walked once more, by the sizes of its
// expansions, and nothing is written.
ghost use Rattle.std.specs.Prelude.{◌≡◌, drop};
ghost use Rattle.utf8.specs.Utf8.{characters};
ghost use Rattle.table.specs.Table.{table, mapping_of};
ghost use Rattle.pages.specs.Pages.{pages};
ghost use Rattle.decompose.specs.TableCheck.{Usable};
ghost use Rattle.search.specs.Covering.{span};
ghost use Rattle.search.specs.Substring.{run_in};
ghost use Rattle.search.specs.Promises.{Within, HasOctet, HolderFound, run_span};

use terms::{KeyPosition, TextPosition};

// A run of a text, from its start to its end.
#[derive(Clone, Copy)]
pub struct Run {
    pub start: TextPosition,
    pub end: TextPosition,
}

// The character whose expansion holds an octet of the key: its place in the text, and which octet of its expansion it is.
#[derive(Clone, Copy)]
pub struct Holder {
    pub start: TextPosition,
    pub end: TextPosition,
    pub offset: usize,
}

// The run that covers the part of the key from start up to end.
pub fn cover(
    text: &[u8],
    entries: &[u32],
    pool: &[u32],
    presence: &[u64],
    ranks: &[u64],
    start: KeyPosition,
    end: KeyPosition,
) -> Run
    requires usable { Usable (table entries.now pool.now) (pages presence.now ranks.now) }
    requires within { Within (mapping_of (table entries.now pool.now)) (characters text.now) start.0 end.0 }
    ensures { run_span result ≡ run_in (mapping_of (table entries.now pool.now))
        (characters text.now) (span start.0 end.0) }
{
    let first = find_holder(text, entries, pool, presence, ranks, TextPosition(0), start);
    // The last octet is sought from the first one's character on, so that the text is walked once.
    let k = first.offset + (end.0 - 1 - start.0);
    let last = find_holder(
        text,
        entries,
        pool,
        presence,
        ranks,
        first.start,
        KeyPosition(k),
    );
    Run {
        start: first.start,
        end: last.end,
    }
}

// The character whose expansion holds octet k of the key, both counted from a place of the text on.
fn find_holder(
    text: &[u8],
    entries: &[u32],
    pool: &[u32],
    presence: &[u64],
    ranks: &[u64],
    from: TextPosition,
    k: KeyPosition,
) -> Holder
    requires usable { Usable (table entries.now pool.now) (pages presence.now ranks.now) }
    requires has_octet { HasOctet (mapping_of (table entries.now pool.now)) (characters (drop from.0 text.now)) k.0 }
    ensures { HolderFound (mapping_of (table entries.now pool.now))
        (characters (drop from.0 text.now)) from.0 k.0 result }
{
    let mut at = from;
    let mut left = k;
    // No `for`: a step is as wide as the character that was read there.
    while at.0 < text.len() {
        let character = utf8::read_valid(text, at);
        let sized = decompose::size_expansion(character.code, entries, pool, presence, ranks);
        let next = TextPosition(at.0 + character.width);
        if left.0 < sized.octets {
            return Holder {
                start: at,
                end: next,
                offset: left.0,
            };
        }
        at = next;
        left.0 -= sized.octets;
    }
    // The key is longer than k.
    unreachable!()
}
