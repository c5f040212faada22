// A jump that stands alone in its block, told by the block's text: behind the block's number stand ` G27 L` and the number, and nothing else.
// Such a block is done without its words being put together; every other text is told by the words that it has.
#![tactic(auto)]

ghost use Rattle.std.specs.Prelude.{◌≡◌};
ghost use Rattle.jumping.specs.Jumping.{is_front, to_by, jump_in};

use numbers::Number;

// The number of the block that is jumped to, or that the text is another one.
#[derive(Clone, Copy)]
pub enum Jumping {
    To(u32),
    Other,
}

// How many bytes ` G27 L` has.
const FRONT: usize = 6;

// Whether a text that is long enough begins with ` G27 L`; the number of G is asked first, since most texts differ there.
fn is_front(text: &[u8]) -> bool
    ensures { result ≡ is_front text.now }
{
    if text.len() < FRONT {
        return false;
    }
    if (text[2] != b'2') | (text[3] != b'7') {
        return false;
    }
    let g = (text[0] == b' ') & (text[1] == b'G');
    let l = (text[4] == b' ') & (text[5] == b'L');
    g & l
}

fn to_by(number: Number) -> Jumping
    ensures { result ≡ to_by number }
{
    match number {
        Number::Value(value, _) => Jumping::To(whole::magnitude(value)),
        Number::Bad => Jumping::Other,
    }
}

// The jump of a block, by the text behind its number.
pub fn jump_in(text: &[u8]) -> Jumping
    ensures { result ≡ jump_in text.now }
{
    if is_front(text) {
        return to_by(numbers::read_five_digits(&text[FRONT..]));
    }
    Jumping::Other
}
