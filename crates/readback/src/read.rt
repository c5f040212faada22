// Record k of a list, or a refusal. (02: "given bytes, either record k or a refusal".)
ghost use Rattle.std.specs.Prelude.{◌≡◌, ◌+◌, ◌≤◌, length};
ghost use Rattle.moves.specs.Form.{header_size};
ghost use Rattle.lawful.specs.Versions.{size_in, start_in};
ghost use Rattle.readback.specs.Lists.{found_at, read_of, read_as, read_judged};

use judging::Refusal;
use lawful::Version;
use moves::{Origin, Record};

// Record number k, from 0, of a list that has it, by the list's version, with the block that it came from where the list tells it.
#[tactic(auto, unfolding(crate::specs::Lists::found_at))]
fn found_at(list: &[u8], v: Version, k: usize) -> (Record, Option<Origin>)
    requires { start_in v k + size_in v ≤ length list.now }
    ensures { result ≡ found_at v list.now k }
{
    match v {
        Version::One => (fields::first_at(list, k), None),
        Version::Two => {
            let listed = fields::listed_at(list, k);
            (listed.what, Some(listed.origin))
        }
    }
}

// Record number k, from 0, where some bytes behind a header have room for it.
#[tactic(auto, unfolding(crate::specs::Lists::read_as))]
fn read_as(list: &[u8], v: Version, k: usize) -> Result<(Record, Option<Origin>), Refusal>
    requires { header_size ≤ length list.now }
    ensures { result ≡ read_as v list.now k }
{
    let held = (list.len() - moves::HEADER_SIZE) / lawful::record_size(v);
    if k >= held {
        return Err(Refusal::BadIndex);
    }
    Ok(found_at(list, v, k))
}

// Record number k, from 0, of a list that was judged good, which is not judged again; of other bytes what stands there. Who reads a whole list judges it once and then calls this.
#[tactic(auto, using(crate::proofs::Accepted::too_short), unfolding(crate::specs::Lists::read_judged))]
pub fn read_judged(list: &[u8], k: usize) -> Result<(Record, Option<Origin>), Refusal>
    ensures { result ≡ read_judged list.now k }
{
    if list.len() < moves::HEADER_SIZE {
        return Err(Refusal::BadIndex);
    }
    read_as(list, judging::version_named(list), k)
}

// Record number k, from 0, of any bytes, with the block that it came from where the list tells it, or the first refusal. The whole list is judged at every call.
#[tactic(auto, unfolding(crate::specs::Lists::read_of))]
pub fn read_record(list: &[u8], k: usize) -> Result<(Record, Option<Origin>), Refusal>
    ensures { result ≡ read_of list.now k }
{
    let (version, count) = judging::judge_list(list)?;
    if k >= count {
        return Err(Refusal::BadIndex);
    }
    Ok(found_at(list, version, k))
}
