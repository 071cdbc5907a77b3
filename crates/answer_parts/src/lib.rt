// The parts of an answer, for a program that answers questions: its first line, from what a call returns; and the slices that are lent to a call, as long as
// asked for, what they hold before the call, and the lines of what they hold afterwards. What reaches the output no contract states, and the case files
// hold it. Relies on `tables` for refusals and on `output` for the lines.
#![tactic(auto)]

use tables::Refusal;

// How many entries a slice can have.
const ROOM: usize = 65535;

// The first line of an answer, of a call that returns up to three values.
pub fn tell(found: Result<(usize, usize, usize), Refusal>) {
    let line = match found {
        Ok((first, second, third)) => [0, 0, first, second, third],
        Err(refusal) => [refusal.reason.number() as usize, refusal.place, 0, 0, 0],
    };
    output::numbers(&line);
}

// The same where one number is returned.
pub fn tell_count(found: Result<usize, Refusal>) {
    tell(found.map(|count| (count, 0, 0)));
}

// What entry i holds: 50,000 and i modulo 499.
fn entry_before(i: usize) -> u16 {
    50000 + (i % 499) as u16
}

// What byte i holds: i modulo 251.
fn byte_before(i: usize) -> u8 {
    (i % 251) as u8
}

// Each place holds what the rule gives for its number.
fn fill<T: Copy, F: Fn(usize) -> T>(slice: &mut [T], rule: F)
    requires { F.IsAlwaysCallable rule }
{
    for (i, value) in slice.iter_mut().enumerate() {
        *value = rule(i);
    }
}

// Two slices of 16-bit numbers, lent to what a call does.
pub fn entries<F: FnOnce(&mut [u16], &mut [u16]) + Drop>(
    length: usize,
    second_length: usize,
    act: F,
)
    requires { F.IsAlwaysCallable act }
{
    let mut first = [0u16; ROOM];
    let mut second = [0u16; ROOM];
    let lent = first.get_mut(..length);
    let second_lent = second.get_mut(..second_length);
    if let (Some(first), Some(second)) = (lent, second_lent) {
        fill(first, entry_before);
        fill(second, entry_before);
        act(first, second);
        output::numbers(first);
        output::numbers(second);
    }
}

// A slice of bytes, lent to what a call does: one, where `entries` lends two to a closure of two.
pub fn bytes<F: FnOnce(&mut [u8]) + Drop>(length: usize, act: F)
    requires { F.IsAlwaysCallable act }
{
    let mut room = [0u8; ROOM];
    if let Some(bytes) = room.get_mut(..length) {
        fill(bytes, byte_before);
        act(bytes);
        output::numbers(bytes);
    }
}
