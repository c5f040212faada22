// Finding the next block of a program: a walk to the next line that is one. (01: "Running a program runs its blocks".) What a walk along the whole tape would find of a program or of the
// block of a number is defined here too; the code looks both up in the table of places, and a law says that this is the same.
// The tape that is handed in begins where the whole tape does, so that places count from there, and ends where its reading ended: nothing behind that exists.
#![tactic(auto)]

ghost use Rattle.std.specs.Prelude.{◌≡◌, ◌≤◌, length};
ghost use Rattle.tape.specs.Lines.{lines};
ghost use Rattle.finding.specs.Finding.{AnyBlock, here_of, block_number, first_block, next_block, NextIn};

use block::{Head, LineStart};

// A block line that was found: its first byte, its number, the place in its text behind its number, where the text ends, and where the next line begins.
#[derive(Clone, Copy)]
pub struct BlockAt {
    pub at: usize,
    pub number: u32,
    pub behind: usize,
    pub stop: usize,
    pub after: usize,
}

// The next block line of a program, or that the program ends before one.
#[derive(Clone, Copy)]
pub enum NextBlock {
    At(BlockAt),
    Nowhere,
}

// What a line is to a search: the one that is sought, one that ends the search, or one to be passed.
#[derive(Clone, Copy)]
pub enum Here {
    Is,
    Ends,
    On,
}

fn any_here(head: Head) -> Here
    ensures { result ≡ here_of AnyBlock head }
{
    match head {
        Head::ProgramLine(_) => Here::Ends,
        Head::BlockLine(_) => Here::Is,
        Head::Blank => Here::On,
        Head::Other(_) => Here::On,
    }
}

// The number of a block line. No other is asked.
fn number_of(head: Head) -> u32
    ensures { result ≡ block_number head }
{
    match head {
        Head::BlockLine(n) => n,
        Head::ProgramLine(_) => 0,
        Head::Blank => 0,
        Head::Other(_) => 0,
    }
}

// The next block line from the line at `from` on, or none where the program ends before. Each line is found and its first word read once: whoever does the block reads on behind it.
pub fn next_block(tape: &[u8], from: usize) -> NextBlock
    requires { from ≤ length tape.now }
    ensures { (result ≡ next_block tape.now (first_block (lines tape.now from))) × NextIn tape.now result }
{
    let mut p = from;
    let r = loop {
        if p >= tape.len() {
            break NextBlock::Nowhere;
        }
        let line = tape::line::line_at(tape, p);
        let stop = line.stop;
        let after = line.after;
        let start = block::start_of(&tape[p..stop]);
        match start {
            LineStart::Blank => {
                p = after;
            }
            LineStart::Fault => {
                p = after;
            }
            LineStart::With(head, behind) => {
                let here = any_here(head);
                match here {
                    Here::Is => {
                        break NextBlock::At(BlockAt {
                            at: p,
                            number: number_of(head),
                            behind,
                            stop,
                            after,
                        });
                    }
                    Here::Ends => {
                        break NextBlock::Nowhere;
                    }
                    Here::On => {
                        p = after;
                    }
                }
            }
        }
    };
    r
}
