// What a block asks of the runner: to go on, call, jump, return or end.
// (01: "G25: L is 100 times the subroutine number plus the repeats; repeats 0 means once. .. M17 returns. G27 goes to the block numbered L of the same program. .. M30 ends the run.")
#![tactic(auto)]

ghost use Rattle.std.specs.Prelude.{◌≡◌};
ghost use Rattle.requests.specs.Request.{times_of, steered, flow_by, request_of};

use block::Block;
use codes::{Code, Flow, Meaning, Steering};

#[derive(Clone, Copy)]
pub enum Request {
    On,
    // the number of the program that is called, and how often
    Call(u32, u32),
    // the number of the block
    Jump(u32),
    Return,
    End,
}

// "repeats 0 means once"
fn times_of(l: u32) -> u32
    ensures { result ≡ times_of l }
{
    let n = l % 100;
    if n == 0 {
        return 1;
    }
    n
}

// What a G25 or a G27 with its L asks for, else what the block's M word does.
fn steered(code: Code, l: u32, other: Request) -> Request
    ensures { result ≡ steered code l other }
{
    match code {
        Code::Of(_, meaning) => match meaning {
            Meaning::Steers(steering) => match steering {
                Steering::Call => {
                    let program = l / 100;
                    Request::Call(program, times_of(l))
                }
                Steering::Jump => Request::Jump(l),
            },
            _ => other,
        },
        Code::Unknown => other,
    }
}

// What an M number of group 2 asks for; M00 stops the machine and not the list.
fn flow_by(code: Code) -> Request
    ensures { result ≡ flow_by code }
{
    match code {
        Code::Of(_, meaning) => match meaning {
            Meaning::Flows(flow) => match flow {
                Flow::Stop => Request::On,
                Flow::Return => Request::Return,
                Flow::End => Request::End,
            },
            _ => Request::On,
        },
        Code::Unknown => Request::On,
    }
}

// What a block asks of the runner.
pub fn request_of(b: Block) -> Request
    ensures { result ≡ request_of b }
{
    let flow = flow_by(block::m_in(b, block::FLOW));
    let code = block::g_in(b, block::STEERING);
    let l = block::code_in(b, block::L);
    steered(code, l, flow)
}
