// Walks for programs in C, as in crate exports.
ghost use Rattle.measures.specs.Judgement.{measures};
ghost use Rattle.exports.specs.Walks.{place, Starts, Opens, Steps, Adds};

// A walk from bytes: 0 and its place, or a refusal.
#[unsafe(no_mangle)]
pub extern "C" fn belquita_walk_from(
    area: &[u8],
    size: usize,
    offset: usize,
    key: usize,
    most: usize,
    forward: bool,
    given: &[u8],
    entry: &mut usize,
    start: &mut usize,
    long: &mut usize,
    left: &mut usize,
    at: &mut usize,
    right: &mut usize,
    end: &mut usize,
) -> usize
    ensures { Starts (measures size offset key most) area.now forward given.now result
        (place entry.new start.new long.new left.new at.new
        right.new end.new) }
{
    exports::walks::belquita_walk_from(
        area, size, offset, key, most, forward, given, entry, start, long, left, at, right, end,
    )
}

// A walk from an end.
#[unsafe(no_mangle)]
pub extern "C" fn belquita_walk_end(
    area: &[u8],
    size: usize,
    offset: usize,
    key: usize,
    most: usize,
    forward: bool,
    entry: &mut usize,
    start: &mut usize,
    long: &mut usize,
    left: &mut usize,
    at: &mut usize,
    right: &mut usize,
    end: &mut usize,
) -> usize
    ensures { Opens (measures size offset key most) area.now forward result
        (place entry.new start.new long.new left.new at.new
        right.new end.new) }
{
    exports::walks::belquita_walk_end(
        area, size, offset, key, most, forward, entry, start, long, left, at, right, end,
    )
}

// A step: the place becomes the next one, and the length of the record there is given.
#[unsafe(no_mangle)]
pub extern "C" fn belquita_walk_next(
    area: &[u8],
    size: usize,
    forward: bool,
    entry: &mut usize,
    start: &mut usize,
    long: &mut usize,
    left: &mut usize,
    at: &mut usize,
    right: &mut usize,
    end: &mut usize,
) -> usize
    ensures { Steps area.now size forward (place entry.old start.old long.old left.old at.old right.old end.old) (place entry.new start.new long.new left.new at.new right.new end.new) result }
{
    exports::walks::belquita_walk_next(
        area, size, forward, entry, start, long, left, at, right, end,
    )
}

// A whole walk from an end: the lengths of its records, added up; 0 where it is refused.
#[unsafe(no_mangle)]
pub extern "C" fn belquita_walk(
    area: &[u8],
    size: usize,
    offset: usize,
    key: usize,
    most: usize,
    forward: bool,
) -> usize
    ensures { Adds (measures size offset key most) area.now forward result }
{
    exports::walks::belquita_walk(area, size, offset, key, most, forward)
}
