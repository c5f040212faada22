// Words put into the lent ones.
ghost use Rattle.std.specs.Prelude.{◌≡◌, ◌+◌, ◌≤◌, length};
ghost use Rattle.octets.specs.Bytes.{laid};

// Puts words at a place of the lent ones that have room for them there; all the other words stay.
pub fn put_words(w: &mut [u32], at: usize, words: &[u32])
    requires { at + length words.now ≤ length w.old }
    ensures { w.new ≡ laid w.old at words.now }
{
    for i in 0..words.len() {
        w[at + i] = words[i];
    }
}
