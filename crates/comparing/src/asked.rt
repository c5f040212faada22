// A tape run one move at a time (02, request 12), and each answer compared with the list of the same run: record k with the list's record k, then the end or the alarm, which is repeated. The list
// engine is lent a buffer that has room for every list, and both the table of places that the case asks for. Before that, words that cannot be asked are asked, and refused.
ghost use Rattle.std.specs.Prelude.{◌<◌};
ghost use Rattle.stored.specs.Texts.{FromOne};

use crate::SIXTEEN_BITS;
use board::{inhand, packing, runwords};
use stored::compare::Verdict;

// The buffer that has room for every list.
const LIST: usize = moves::HEADER_SIZE + moves::RECORD_SIZE * moves::RECORD_LIMIT;

// What the words of a state and the table of places hold before: any number does.
const UNUSED_WORD: u32 = 1;

const UNUSED_PLACE: u64 = 1;

// A count of records that no answer has: it takes 17 bits.
const TOO_MANY: u32 = 65_536;

// How often the answer is asked for once the run is over: it is repeated twice.
const LAST_ASKS: usize = 3;

// The first two lines of a listing: the answer's, and that of the first record.
const ANSWER_LINE: usize = 1;

const FIRST_RECORD_LINE: usize = 2;

// What a run is given: the tape, the table, the settings, and the table of places that is lent.
#[derive(Drop)]
struct Run<'a> {
    tape: &'a [u8],
    table: &'a [i32],
    settings: &'a [i32],
    places: &'a mut [u64],
}

// What the list engine made of the same: the list, and the answer as it has packed it.
#[derive(Clone, Copy)]
struct Made<'a> {
    list: &'a [u8; LIST],
    packed: u64,
}

impl Made<'_> {
    // How many records the list has.
    fn count(&self) -> usize
        ensures { result < SIXTEEN_BITS }
    {
        (self.packed % SIXTEEN_BITS) as usize
    }

    // Whether a record's bytes are those of record k of the list.
    fn is_record(&self, k: usize, record: &[u8; moves::RECORD_SIZE]) -> bool {
        let list = self.list;
        let (records, _) = list[moves::HEADER_SIZE..].as_chunks();
        records.get(k) == Some(record)
    }
}

impl Run<'_> {
    // Whether a run is started in the words.
    fn is_started(&mut self, state: &mut [u32]) -> bool {
        let places = &mut *self.places;
        board::tm02_start(self.tape, self.table, self.settings, places, state) == 0
    }

    // What an ask of the words tells.
    fn ask(&self, state: &mut [u32], record: &mut [u8]) -> u64 {
        board::tm02_next(
            self.tape,
            self.table,
            self.settings,
            self.places,
            state,
            record,
        )
    }

    // Whether an ask of these words, with these bytes for a record, is refused.
    fn is_refused(&self, state: &mut [u32], record: &mut [u8]) -> bool {
        self.ask(state, record) == packing::TOLD_REFUSED
    }

    // Whether an ask tells record k of the list.
    fn tells_record(&self, state: &mut [u32], made: &Made<'_>, k: usize) -> bool {
        let mut record = [0u8; moves::RECORD_SIZE];
        self.ask(state, &mut record) == 0 && made.is_record(k, &record)
    }

    // Whether an ask tells that the run is over, and the answer that the list engine has packed.
    fn tells_answer(&self, state: &mut [u32], made: &Made<'_>) -> bool {
        let mut record = [0u8; moves::RECORD_SIZE];
        self.ask(state, &mut record).checked_sub(packing::TOLD_OVER) == Some(made.packed)
    }

    // Starts a run in the words, whatever they hold, and asks until it is over. A wrong answer differs at the line that the listing has for it.
    fn judge_asks(&mut self, state: &mut [u32], made: &Made<'_>) -> Verdict
        ensures { FromOne result }
    {
        // What an earlier run has left is taken out of the table of places: a start has to fill it.
        self.places.fill(UNUSED_PLACE);
        if !self.is_started(state) {
            return Verdict::Differs(ANSWER_LINE);
        }
        for k in 0..made.count() {
            if !self.tells_record(state, made, k) {
                return Verdict::Differs(k + FIRST_RECORD_LINE);
            }
        }
        for _ in 0..LAST_ASKS {
            if !self.tells_answer(state, made) {
                return Verdict::Differs(ANSWER_LINE);
            }
        }
        Verdict::Agrees
    }

    // The second start finds the words of a run that is over: "a new start clears it".
    fn judge_starts(&mut self, made: &Made<'_>) -> Verdict
        ensures { FromOne result }
    {
        let mut state = [UNUSED_WORD; inhand::STATE_WORDS];
        match self.judge_asks(&mut state, made) {
            Verdict::Agrees => self.judge_asks(&mut state, made),
            wrong => wrong,
        }
    }

    // Whether words that cannot be asked are refused: cleared ones, one too few, and an answer with a count that no answer has; and bytes that lack one for a record. Words that say the end of a run of
    // no records are told so, whoever made them. No start is made in one word too few.
    fn refuses_words(&mut self) -> bool {
        let mut record = [0u8; moves::RECORD_SIZE];
        let mut short = [0u8; moves::RECORD_SIZE - 1];
        let mut cleared = [0u32; inhand::STATE_WORDS];
        let mut few = [0u32; inhand::STATE_WORDS - 1];
        let mut over = [0u32; inhand::STATE_WORDS];
        over[inhand::GOING + runwords::PHASE] = runwords::COMPLETE;
        few[inhand::GOING + runwords::PHASE] = runwords::COMPLETE;
        let ended = self.ask(&mut over, &mut record);
        let narrow = self.is_refused(&mut over, &mut short);
        over[inhand::GOING + runwords::COUNT] = TOO_MANY;
        let none = self.is_refused(&mut cleared, &mut record);
        let fewer = self.is_refused(&mut few, &mut record);
        let more = self.is_refused(&mut over, &mut record);
        let started = self.is_started(&mut few);
        ended == packing::TOLD_OVER && none && fewer && more && narrow && !started
    }
}

// Makes the list of a tape, and asks for its moves one at a time, with the same table of places.
pub fn judge_moves(tape: &[u8], table: &[i32], settings: &[i32], places: &mut [u64]) -> Verdict
    ensures { FromOne result }
{
    let mut list = [0u8; LIST];
    let packed = board::tm02_interpret(tape, table, settings, places, &mut list);
    let made = Made {
        list: &list,
        packed,
    };
    let mut run = Run {
        tape,
        table,
        settings,
        places,
    };
    if !run.refuses_words() {
        return Verdict::Differs(ANSWER_LINE);
    }
    run.judge_starts(&made)
}
