// Texts: where a byte stands and what stands around it, lines, whether two texts are the same, and a path made of its parts.
ghost use Rattle.std.specs.Prelude.{◌≡◌, ◌+◌, ◌<◌, ◌≤◌, length, take, drop, slice_index, IfSome};
ghost use Rattle.io.specs.Counts.{IsPrefixLen};
ghost use Rattle.tape.specs.Lines.{line_at};
ghost use Rattle.stored.specs.Texts.{same_text};

// The place of the first such byte.
pub fn find(text: &[u8], byte: u8) -> Option<usize>
    ensures { IfSome result (λ at. (at < length text.now) × (slice_index text.now at ≡ byte)) }
{
    text.iter().position(|b| *b == byte)
}

// What stands before the first such byte, and what behind it.
pub fn split_once(text: &[u8], byte: u8) -> Option<(&[u8], &[u8])>
    ensures { IfSome result (λ parts. length parts.0.now + length parts.1.now < length text.now) }
{
    let at = find(text, byte)?;
    Some((&text[..at], &text[at + 1..]))
}

// The first line of a text, and what stands behind it.
pub fn split_line(text: &[u8]) -> (&[u8], &[u8])
    ensures line { result.0.now ≡ take (line_at text.now 0).stop text.now }
    ensures behind { result.1.now ≡ drop (line_at text.now 0).after text.now }
    ensures onward { 0 < length text.now → length result.1.now < length text.now }
{
    let line = tape::line::line_at(text, 0);
    (&text[..line.stop], &text[line.after..])
}

// Whether two texts are the same.
pub fn same(a: &[u8], b: &[u8]) -> bool
    ensures { result ≡ same_text a.now b.now }
{
    a == b
}

// Puts a text into a path from `at` on, and answers where it ends. What does not fit is cut off.
pub fn put(path: &mut [u8], at: usize, words: &[u8]) -> usize
    requires { at ≤ length path.old }
    ensures { IsPrefixLen result path.new }
{
    let fits = words.len().min(path.len() - at);
    let end = at + fits;
    path[at..end].copy_from_slice(&words[..fits]);
    end
}
