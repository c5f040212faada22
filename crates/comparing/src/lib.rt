// A case judged: its tape is run through the board's door with what the case gives, the listing is made of what came of it, and that is compared with the listing that is wanted. Where it agrees, the
// tape is also run one move at a time.
#![tactic(auto)]

pub mod asked;

ghost use Rattle.std.specs.Prelude.{◌≡◌};
ghost use Rattle.stored.specs.Texts.{FromOne};
ghost use Rattle.comparing.specs.Door.{settings_in, answer_told};

pub use board;
pub use listing;
pub use listing::answers;
use listing::answers::Answer;
use stored::compare::Verdict;
use stored::given::ALL;

// The longest listing.
const TEXT: usize = listing::lines::LONGEST_HEAD
    + listing::lines::LONGEST_RECORD_LINE * moves::RECORD_LIMIT;

// The longest table of places that is lent.
const PLACES: usize = reading::MOST_PLACES;

// How the door packs its answer: a count and a place have 16 bits each, and the alarm the 8 above.
pub const SIXTEEN_BITS: u64 = 65_536;

const EIGHT_BITS: u64 = 256;

fn listing_text() -> [u8; TEXT] {
    [0u8; TEXT]
}

// The settings in the order of the door.
pub fn settings_of(given: &[i32; ALL]) -> [i32; panel::COUNT]
    ensures { result ≡ settings_in given.now }
{
    [
        given[stored::given::MAIN],
        given[stored::given::LOWEST],
        given[stored::given::RETRACT],
        given[stored::given::X],
        given[stored::given::Z],
        given[stored::given::X_LOW],
        given[stored::given::X_HIGH],
        given[stored::given::Z_LOW],
        given[stored::given::Z_HIGH],
        given[stored::given::EMPTY],
        given[stored::given::POINTS],
    ]
}

// The answer that the door has packed.
pub fn unpacked(packed: u64) -> Answer
    ensures { result ≡ answer_told packed }
{
    let count = (packed % SIXTEEN_BITS) as usize;
    let place = (packed / SIXTEEN_BITS % SIXTEEN_BITS) as usize;
    let alarm = (packed / SIXTEEN_BITS / SIXTEEN_BITS % EIGHT_BITS) as u8;
    if alarm == 0 {
        return Answer::Complete(count);
    }
    Answer::Alarm(alarm, place, count)
}

// Compares the listing of an answer, and of the list that came with it, with the one that is wanted.
fn judge_answer(answer: Answer, list: &[u8], want: &[u8]) -> Verdict
    ensures { FromOne result }
{
    let mut text = listing_text();
    let n = listing::lines::put_listing(answer, list, &mut text);
    stored::compare::compare(&text[..n], want)
}

// Judges a tape by its listing, and then by its moves. It is lent the table, the table of places and the buffer that its case asks for, and no number and no byte more.
pub fn judge(tape: &[u8], given: [i32; ALL], want: &[u8]) -> Verdict
    ensures { FromOne result }
{
    let mut space = io::large_buffer();
    let mut entries = [0u64; PLACES];
    let settings = settings_of(&given);
    let table = &given[..stored::given::numbers_of(&given)];
    let places = &mut entries[..stored::given::held_of(&given)];
    let buf = &mut space[..stored::given::bytes_of(&given)];
    let packed = board::tm02_interpret(tape, table, &settings, places, buf);
    match judge_answer(unpacked(packed), buf, want) {
        Verdict::Agrees => asked::judge_moves(tape, table, &settings, places),
        wrong => wrong,
    }
}

// Judges a case whose settings and tape stand in one text.
pub fn judge_case(case: &[u8], want: &[u8]) -> Verdict
    ensures { FromOne result }
{
    let mut given = stored::given::usual();
    match stored::given::read_given(case, &mut given) {
        Some(tape) => judge(tape, given, want),
        None => Verdict::Unread,
    }
}
