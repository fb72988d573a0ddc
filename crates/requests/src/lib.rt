// What the requests answer: the kinds of answer, their numbers, and the meaning of each request.
#![tactic(auto)]

ghost use Rattle.std.specs.Prelude.{◌≡◌};
ghost use Rattle.requests.specs.Answers.{number_of};
ghost use Rattle.requests.specs.declared.Refusal.TheVariants.{Damaged};

use area::Damage;
use change::Written;

// What a request that is not refused tells: which intervals a change wrote, how long the record found is, how many
// records and free intervals there are.
#[derive(Clone, Copy)]
pub enum Done {
    Changed(Written),
    Found(usize),
    Intact { records: usize, free: usize },
}

// Why a request is refused, with what it tells: the place of the damage, or the length that the output needs.
#[derive(Clone, Copy)]
pub enum Refusal {
    Outside,
    Damaged(usize),
    WrongLength,
    Present,
    Absent,
    NoInterval,
    NoRoom,
    Short(usize),
    NoRecord,
}

// What every request answers. Document 01's number for each answer is given by `number`.
pub type Answer = Result<Done, Refusal>;

impl From<Damage> for Refusal {
    ghost from_gives = { λ d r. r ≡ Damaged d.place };

    fn from(damage: Damage) -> Refusal {
        Refusal::Damaged(damage.place)
    }
}

// The number that a depot reads.
pub fn number(answer: Answer) -> usize
    ensures { result ≡ number_of answer }
{
    match answer {
        Ok(_) => 0,
        Err(Refusal::Outside) => 1,
        Err(Refusal::Damaged(_)) => 2,
        Err(Refusal::WrongLength) => 3,
        Err(Refusal::Present) => 4,
        Err(Refusal::Absent) => 5,
        Err(Refusal::NoInterval) => 6,
        Err(Refusal::NoRoom) => 7,
        Err(Refusal::Short(_)) => 8,
        Err(Refusal::NoRecord) => 9,
    }
}
