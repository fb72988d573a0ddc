// The measures of an area: which sizes are permitted, and refusal 1.
#![tactic(auto)]

ghost use Rattle.std.specs.Prelude.{◌≡◌, length};
ghost use Rattle.measures.specs.Sizes.{permitted_size};
ghost use Rattle.measures.specs.Judgement.{asked, judged_of, width_for};

// What every definition and function below the requests goes by. `least` is the shortest record.
#[derive(Clone, Copy)]
pub struct Measures {
    pub size: usize,
    pub offset: usize,
    pub key: usize,
    pub least: usize,
    pub most: usize,
}

// The four numbers that a request is asked with: the size of an interval, the key's offset and length, the longest record.
#[derive(Clone, Copy)]
pub struct Numbers {
    pub size: usize,
    pub offset: usize,
    pub key: usize,
    pub most: usize,
}

// Measures that are what document 01 allows, and how many data intervals the area then has.
#[derive(Clone, Copy)]
pub struct Judged {
    pub measures: Measures,
    pub count: usize,
}

// The most data intervals that one control area has.
pub const LIMIT: usize = 4096;

// The bytes of a pointer and of a free number, by the number of data intervals.
pub fn width_for(n: usize) -> usize
    ensures { result ≡ width_for n }
{
    if n <= 256 {
        return 1;
    }
    2
}

// Source document 001, chapter 6.
const SIZES: [usize; 28] = [
    512, 1024, 1536, 2048, 2560, 3072, 3584, 4096, 4608, 5120, 5632, 6144, 6656, 7168, 7680, 8192,
    10240, 12288, 14336, 16384, 18432, 20480, 22528, 24576, 26624, 28672, 30720, 32768,
];

// Whether an interval may have this size.
pub fn permitted(size: usize) -> bool
    ensures { result ≡ permitted_size size }
{
    SIZES.contains(&size)
}

// Refusal 1 is none, of the measures as one value: whether they and the buffer's length are what document 01 allows, and the
// shortest record holds its key and is no longer than the longest; with the number of data intervals.
// The size is judged before anything is divided by it.
pub fn judge_measures(m: Measures, length: usize) -> Option<Judged>
    ensures { result ≡ judged_of m length }
{
    let size = m.size;
    let offset = m.offset;
    let key = m.key;
    let least = m.least;
    let most = m.most;
    if !permitted(size) {
        return None;
    }
    if key < 1 {
        return None;
    }
    if 255 < key {
        return None;
    }
    if size - 7 < most {
        return None;
    }
    if most < least {
        return None;
    }
    if least < key {
        return None;
    }
    if least - key < offset {
        return None;
    }
    if length % size != 0 {
        return None;
    }
    let whole = length / size;
    if whole < 2 {
        return None;
    }
    if LIMIT + 1 < whole {
        return None;
    }
    Some(Judged {
        measures: m,
        count: whole - 1,
    })
}

// Refusal 1 is none, of the four numbers of a request: the shortest record ends with its key. The sum is taken only of what is
// known to be small.
pub fn judge(numbers: Numbers, length: usize) -> Option<Judged>
    ensures { result ≡ judged_of (asked numbers) length }
{
    let size = numbers.size;
    let offset = numbers.offset;
    let key = numbers.key;
    let most = numbers.most;
    if most < key {
        return None;
    }
    if most - key < offset {
        return None;
    }
    let m = Measures {
        size,
        offset,
        key,
        least: offset + key,
        most,
    };
    judge_measures(m, length)
}
