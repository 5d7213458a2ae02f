//! A line of the script.

// The places that a store line gives words to.
pub const PLACES: usize = 5;

// The most numbers of a line: a store, with its code. A line with more is not understood, however many there are.
pub const MOST: usize = 9 + 3 * PLACES;

// A line that is understood: what is lent, with the numbers that follow the line's code, or what is played on it.
#[derive(Clone, Copy)]
pub enum Line<'a> {
    Give(Given<'a>),
    Play(Play),
}

#[derive(Clone, Copy)]
pub enum Given<'a> {
    File(&'a [u64]),
    Command(&'a [u64]),
    Size(u64),
    Store(&'a [u64]),
    Journal(u64),
}

#[derive(Clone, Copy)]
pub enum Play {
    Step,
    Run,
}

// A store has the three lengths, the state's five numbers, and three words for each of its places.
fn is_store(numbers: &[u64]) -> bool {
    let n = numbers.len();
    n >= 8 && n <= 8 + 3 * PLACES && n % 3 == 2
}

// The line that these numbers make, if it is one of the script's.
pub fn of_numbers(numbers: &[u64]) -> Option<Line<'_>> {
    let given = match numbers {
        [0, fields @ ..] if fields.len() == 6 => Given::File(fields),
        [1, fields @ ..] if fields.len() == 5 => Given::Command(fields),
        [2, n] => Given::Size(*n),
        [3, rest @ ..] if is_store(rest) => Given::Store(rest),
        [4, rows] => Given::Journal(*rows),
        [5] => return Some(Line::Play(Play::Step)),
        [6] => return Some(Line::Play(Play::Run)),
        _ => return None,
    };
    Some(Line::Give(given))
}
