// Reading a tape from its first program line to the end of reading, in one pass. The lent table of places is filled in the same pass, and a repeated number is found in it.
// What comes of it stands in `reading`.
#![tactic(auto)]

ghost use Rattle.std.specs.Prelude.{◌≡◌, ◌<◌, ◌≤◌, length};
ghost use Rattle.tape.specs.Lines.{lines};
ghost use Rattle.reading.specs.Reading.{longest_tape, nothing_read};
ghost use Rattle.reading.specs.Filling.{nothing_filled, read_lines_with, read_with, told, Tells, places_behind};

use block::Head;
use reading::{Read, TapeRead};

// The present program in front of the first program line: no program has this number.
const NO_PROGRAM: u32 = 65_535;

// The lines from `first` on.
fn read_lines(tape: &[u8], first: usize, points: bool, places: &mut [u64]) -> TapeRead
    requires { (first < length tape.now) × (length tape.now ≤ longest_tape) }
    ensures read { result ≡ told (read_lines_with points (length places.old) first (length tape.now) nothing_read nothing_filled (lines tape.now first)) }
    ensures filled { places.new ≡ places_behind (read_lines_with points (length places.old) first (length tape.now) nothing_read nothing_filled (lines tape.now first)).row places.old }
{
    let mut present = NO_PROGRAM;
    let mut count: usize = 0;
    let mut p = first;
    loop {
        if p >= tape.len() {
            return TapeRead {
                read: Read::Whole(first, tape.len()),
                count,
            };
        }
        let line = tape::line::line_at(tape, p);
        let stop = line.stop;
        let after = line.after;
        let judged = showing::judge_line(&tape[p..stop]);
        let alarm = judged.alarm;
        if alarm != 0 {
            return TapeRead {
                read: Read::Alarm(alarm, p),
                count,
            };
        }
        if points & judged.pointless {
            return TapeRead {
                read: Read::Alarm(alarms::MISSING_POINT, p),
                count,
            };
        }
        let head = judged.head;
        match head {
            Head::Blank => {
                p = after;
            }
            Head::Other(_) => {
                return TapeRead {
                    read: Read::Alarm(alarms::BAD_LINE_START, p),
                    count,
                };
            }
            Head::ProgramLine(n) => {
                if n > settings::HIGHEST_PROGRAM {
                    return TapeRead {
                        read: Read::Alarm(alarms::BAD_LINE_START, p),
                        count,
                    };
                }
                let key = places::key_of(n, 0);
                if places::holds(places, count, key) {
                    return TapeRead {
                        read: Read::Alarm(alarms::BAD_LINE_START, p),
                        count,
                    };
                }
                if judged.broken {
                    return TapeRead {
                        read: Read::Alarm(alarms::WORD_RULES, p),
                        count,
                    };
                }
                if count >= places.len() {
                    return TapeRead {
                        read: Read::Alarm(alarms::PLACES_TOO_SHORT, p),
                        count,
                    };
                }
                let entry = places::entry_of(key, p);
                places::insert(places, count, entry);
                present = n;
                count += 1;
                p = after;
            }
            Head::BlockLine(n) => {
                let slot = n + 1;
                let own = places::key_of(present, slot);
                if places::holds(places, count, own) {
                    return TapeRead {
                        read: Read::Alarm(alarms::BAD_LINE_START, p),
                        count,
                    };
                }
                if judged.broken {
                    return TapeRead {
                        read: Read::Alarm(alarms::WORD_RULES, p),
                        count,
                    };
                }
                if count >= places.len() {
                    return TapeRead {
                        read: Read::Alarm(alarms::PLACES_TOO_SHORT, p),
                        count,
                    };
                }
                let entry = places::entry_of(own, p);
                places::insert(places, count, entry);
                count += 1;
                if judged.ends {
                    return TapeRead {
                        read: Read::Whole(first, after),
                        count,
                    };
                }
                p = after;
            }
        }
    }
}

// A whole tape, whatever its bytes are. That it is not too long was judged before (alarm 2). `points`: whether the numbers of X Z U W must have their points.
pub fn read_tape(tape: &[u8], points: bool, places: &mut [u64]) -> TapeRead
    requires { length tape.now ≤ longest_tape }
    ensures read { Tells result (read_with points (length places.old) tape.now) }
    ensures filled { places.new ≡ places_behind (read_with points (length places.old) tape.now).row places.old }
{
    let first = tape::line::first_line(tape);
    if first >= tape.len() {
        return TapeRead {
            read: Read::Alarm(alarms::NO_PROGRAM, 0),
            count: 0,
        };
    }
    read_lines(tape, first, points, places)
}
