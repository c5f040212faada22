// The alarm card, which is the page docs/ALARMS.md itself: a tape stands between two lines of three backticks, below lines of settings that begin with `=`, and the listing that it gives
// between the next two.
ghost use Rattle.std.specs.Prelude.{◌+◌, ◌<◌, length, IfSome};
ghost use Rattle.std.specs.Iterator.{at_most};
ghost use Rattle.stored.specs.Texts.{PartOf};

use crate::text;

// What stands before the next line of three backticks, and what behind it.
fn split_at_mark(page: &[u8]) -> Option<(&[u8], &[u8])>
    ensures onward { IfSome result (λ parts. length parts.0.now + length parts.1.now < length page.now) }
    ensures parts { IfSome result (λ parts. PartOf page.now parts.0.now parts.1.now) }
{
    let mut rest = page;
    while !rest.is_empty() {
        let (line, behind) = text::split_line(rest);
        if text::same(line, b"```") {
            return Some((&page[..page.len() - rest.len()], behind));
        }
        rest = behind;
    }
    None
}

// What stands between the next two such lines, and what behind them.
pub fn fence_from(page: &[u8]) -> Option<(&[u8], &[u8])>
    ensures onward { IfSome result (λ parts. length parts.0.now + length parts.1.now < length page.now) }
    ensures parts { IfSome result (λ parts. PartOf page.now parts.0.now parts.1.now) }
{
    let (_, behind) = split_at_mark(page)?;
    split_at_mark(behind)
}

// The pairs of a page, one after the other: a tape with its settings, and its listing.
#[derive(Clone, Copy)]
pub struct Pairs<'a>(pub &'a [u8]);

impl<'a> Iterator for Pairs<'a> {
    type Item = (&'a [u8], &'a [u8]);

    ghost remaining = { λ s. at_most (length s.0.now) };

    fn next(&mut self) -> Option<(&'a [u8], &'a [u8])> {
        let (case, behind) = fence_from(self.0)?;
        let (want, behind) = fence_from(behind)?;
        self.0 = behind;
        Some((case, want))
    }
}
