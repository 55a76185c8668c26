// `occurrence::find` for C, so that the benchmark can run it beside the C library's memmem. It is no part of the library.

#![tactic(auto)]

ghost use Rattle.std.specs.Prelude.{◌≡◌};
ghost use Rattle.occurrence.specs.Occurrence.{occurrence};
ghost use Rattle.bench_find.specs.Promises.{place_or_zero};

// One more than the lowest place at which the needle stands, or 0.
#[unsafe(no_mangle)]
pub extern "C" fn bench_find(needle: &[u8], hay: &[u8]) -> usize
    ensures { result ≡ place_or_zero (occurrence needle.now hay.now) }
{
    match occurrence::find(needle, hay) {
        Some(place) => place.0 + 1,
        None => 0,
    }
}
