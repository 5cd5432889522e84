// What a step answers, as one number: the C interface has no other way to say why it refuses.
use driver::{Done, Stop};
use input::BadLine;
use tables::Fault;

// Refusals stand above all lengths: this, and 2^48 for each number, and the place.
const REFUSED: u64 = 9_223_372_036_854_775_808;

const NUMBER: u64 = 281_474_976_710_656;

fn code(number: u8, place: usize) -> u64 {
    let place = place as u64;
    REFUSED + u64::from(number) * NUMBER + place.min(NUMBER - 1)
}

pub fn refusal(fault: Fault) -> u64 {
    code(fault.number(), fault.place())
}

// A bad line has number 0 and the line for its place.
pub fn bad_line(line: BadLine) -> u64 {
    code(0, line.0)
}

// What the steps answered: the bytes printed, or a refusal.
pub fn answer(r: Result<Done, Stop>) -> u64 {
    match r {
        Ok(done) => done.printed.min(281_474_976_710_655) as u64,
        Err(Stop::Refused(_, fault)) => refusal(fault),
        Err(Stop::NoteLine(line)) => bad_line(line),
    }
}
