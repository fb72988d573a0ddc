// Crate ask for programs in C: its two doors under their own names. Each export calls the library's
// function and states its clauses again; tests/uniques.py holds it to that, word for word.
#![tactic(auto)]

ghost use Rattle.std.specs.Prelude.{◌≡◌};
ghost use Rattle.ask.specs.Asking.{question, left, read_of, ask_of};

// The door for requests that only read. 255 where what is asked for is not there or changes an area: then nothing is
// changed.
#[unsafe(no_mangle)]
pub extern "C" fn belquita_read(
    kind: u64,
    numbers: &[u64],
    area: &[u8],
    second: &[u8],
    given: &[u8],
    out: &mut [u8],
    values: &mut [u64],
) -> u64
    ensures { left result area.now second.now out.new values.new
        ≡ read_of kind (question numbers.now area.now second.now
        given.now out.old) values.old }
{
    ask::belquita_read(kind, numbers, area, second, given, out, values)
}

// The door for every request. What does not change an area is handed on: 255 where it is not there.
#[unsafe(no_mangle)]
pub extern "C" fn belquita_ask(
    kind: u64,
    numbers: &[u64],
    area: &mut [u8],
    second: &mut [u8],
    given: &[u8],
    out: &mut [u8],
    values: &mut [u64],
) -> u64
    ensures { left result area.new second.new out.new values.new
        ≡ ask_of kind (question numbers.now area.old second.old
        given.now out.old) values.old }
{
    ask::belquita_ask(kind, numbers, area, second, given, out, values)
}
