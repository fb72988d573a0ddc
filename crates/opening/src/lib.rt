// What every request does first: the measures are judged and the area is checked, once.
#![tactic(auto)]

ghost use Rattle.std.specs.Prelude.{◌≡◌};
ghost use Rattle.measures.specs.Judgement.{asked};
ghost use Rattle.opening.specs.AidOpened.{opened_of};

use measures::{Measures, Numbers};
use requests::Refusal;

// A sound area: its measures, and how many data intervals, records and free intervals it has.
#[derive(Clone, Copy)]
pub struct Whole {
    pub measures: Measures,
    pub count: usize,
    pub records: usize,
    pub free: usize,
}

// Judges the four numbers, then checks the area: refusals 1 and 2.
pub fn open(area: &[u8], numbers: Numbers) -> Result<Whole, Refusal>
    ensures { result ≡ opened_of (asked numbers) area.now }
{
    let Some(fine) = measures::judge(numbers, area.len()) else {
        return Err(Refusal::Outside);
    };
    let holds = area_read::check(area, fine.measures, fine.count)?;
    Ok(Whole {
        measures: fine.measures,
        count: fine.count,
        records: holds.records,
        free: holds.free,
    })
}
