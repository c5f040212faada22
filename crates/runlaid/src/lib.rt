// Where a run stands, laid into the words that are lent. Their places stand in `runwords`, which takes a run back from them.
#![tactic(auto)]

ghost use Rattle.std.specs.Prelude.{◌≡◌, [], ◌∷◌, ℕ, ◌+◌, ◌<◌, ◌≤◌, length, get_or};
ghost use Rattle.ahead.specs.Ahead.{most_calls};
ghost use Rattle.runwords.specs.of_paused.Kept.{nobody};
ghost use Rattle.runwords.specs.Taken.{going_words, phase_of, end_from, run_from, tag_of, waiting_from, going_of};
ghost use Rattle.runwords.specs.Laid.{phase_words, frame_words, kept_tag, run_words, ReadBack, words_of, all_words, Put, word_range, SmallPhase, SmallWaiting, Small};

use acts::Kept;
use ahead::Frame;
use codes::Motion;
pub use runwords;
use runwords::answers::Answer;
pub use runwords::paused;
use runwords::paused::{Going, Phase};
use runwords::resuming::Waiting;
use runwords::taking::Run;

fn motion_tag(m: Motion) -> u32
    ensures { result ≡ tag_of m }
{
    match m {
        Motion::Rapid => runwords::RAPID,
        Motion::Feed => runwords::STRAIGHT,
        Motion::Clockwise => runwords::CLOCKWISE,
        Motion::Counterclockwise => runwords::COUNTERCLOCKWISE,
        Motion::Thread => runwords::THREAD,
        Motion::Dwell => runwords::DWELL,
        Motion::Turning => runwords::TURNING,
        Motion::Threading => runwords::THREADING,
        Motion::Grooving => runwords::GROOVING,
        Motion::ChipBreaking => runwords::CHIP_BREAKING,
        Motion::Redrawing => runwords::REDRAWING,
    }
}

fn kept_tag(kept: Kept) -> u32
    ensures { result ≡ kept_tag kept }
{
    match kept {
        Kept::Nothing => 0,
        Kept::Of(m) => motion_tag(m),
    }
}

fn put_four(words: &mut [u32], at: usize, four: [u32; 4])
    requires { at + 4 ≤ length words.old }
    ensures { Put words.old at four words.new }
{
    words[at] = four[0];
    words[at + 1] = four[1];
    words[at + 2] = four[2];
    words[at + 3] = four[3];
}

fn phase_words(phase: Phase) -> [u32; 4]
    requires { SmallPhase phase }
    ensures { (result ≡ phase_words phase) × (phase_of (phase_words phase) ≡ phase) }
{
    match phase {
        Phase::Running => [0, 0, 0, 0],
        Phase::Over(answer) => match answer {
            Answer::Complete(count) => [runwords::COMPLETE, 0, 0, count as u32],
            Answer::Alarm(alarm, place, count) => {
                let alarm = u32::from(alarm);
                [runwords::STOPPED, alarm, place as u32, count as u32]
            }
        },
    }
}

fn frame_words(frame: Frame) -> [u32; 4]
    requires { (frame.program.line < word_range) × (frame.at < word_range) }
    ensures { result ≡ frame_words frame }
{
    let line = frame.program.line as u32;
    let at = frame.at as u32;
    [frame.program.number, line, frame.calls_left, at]
}

fn waiting_words(waiting: Waiting) -> [u32; 4]
    requires { SmallWaiting waiting }
    ensures { result ≡ words_of waiting }
{
    let line = waiting.program.line as u32;
    let after = waiting.after as u32;
    [waiting.program.number, line, after, waiting.times]
}

fn put_ends(words: &mut [u32], end: u32, filled: u32)
    requires { length words.old ≡ going_words }
    ensures { Put words.old end_from (end ∷ filled ∷ []) words.new }
{
    words[runwords::END] = end;
    words[runwords::FILLED] = filled;
}

fn put_run(words: &mut [u32], run: Run)
    requires { (length words.old ≡ going_words) × (run.count < word_range) }
    ensures put { Put words.old run_from (run_words run) words.new }
    ensures back { ReadBack run }
{
    let s = run.state;
    let count = run.count as u32;
    let kept = s.motion;
    let motion = kept_tag(kept);
    let g96 = u32::from(s.g96);
    put_four(
        words,
        runwords::BLOCKS_LEFT,
        [run.blocks_left, count, motion, g96],
    );
    let g95 = u32::from(s.g95);
    put_four(
        words,
        runwords::G95,
        [g95, s.shift_group3, s.shift_group5, s.correction],
    );
    let due = u32::from(s.rapid_due);
    // in two's complement, as in the records of a list
    let x = s.x.cast_unsigned();
    let z = s.z.cast_unsigned();
    put_four(words, runwords::FEED, [s.f, due, x, z]);
}

fn put_waiting(words: &mut [u32], waiting: [Waiting; runwords::MOST_WAITING])
    requires { (length words.old ≡ going_words) × ((k : ℕ) → k < most_calls → SmallWaiting (get_or waiting k nobody)) }
    ensures put { Put words.old waiting_from (all_words waiting) words.new }
    ensures many { length waiting ≡ most_calls }
{
    for k in 0..runwords::MOST_WAITING {
        put_four(
            words,
            runwords::WAITING + k * runwords::WAITING_WORDS,
            waiting_words(waiting[k]),
        );
    }
}

pub fn put_going(words: &mut [u32], g: Going)
    requires { (length words.old ≡ going_words) × Small g }
    ensures back { going_of words.new ≡ g }
    ensures long { length words.new ≡ going_words }
{
    let phase = g.phase;
    let frame = g.frame;
    let run = g.run;
    let waiting = g.waiting;
    let end = g.end as u32;
    let filled = g.filled as u32;
    put_four(words, runwords::PHASE, phase_words(phase));
    put_ends(words, end, filled);
    put_four(words, runwords::PROGRAM, frame_words(frame));
    put_run(words, run);
    put_waiting(words, waiting);
}
