// Files by name.
ghost use Rattle.std.specs.Prelude.{◌≡◌, ◌≤◌, ◌++◌, IfOk, codes, string_bytes, vec_len};

use std::alloc::{AllocError, Global};
use std::io::Read;
use std::rt::Files;
use std::{fs, io};

// Reads to the end, or so many bytes.
pub fn read_most<R: Read + Drop>(alloc: Global, from: R, most: usize) -> io::Result<Vec<u8>>
    ensures { IfOk result (λ bytes. vec_len bytes ≤ most) }
{
    let mut bytes = Vec::new(alloc);
    from.take(most as u64).read_to_end(&mut bytes)?;
    // There are no more; this line is there for what it ensures.
    bytes.truncate(most);
    Ok(bytes)
}

// Reads a file, or so many bytes of it: none where it is not there.
pub fn read_file<R: Files + AllocGlobal>(rt: &R, path: &str, most: usize) -> io::Result<Vec<u8>>
    ensures { IfOk result (λ bytes. vec_len bytes ≤ most) }
{
    match fs::open(rt, path) {
        Ok(file) => read_most(rt.alloc(), file, most),
        Err(_) => Ok(Vec::new(rt.alloc())),
    }
}

// The path of one of an example's files.
fn path_of(alloc: Global, name: &str, kind: &str) -> Result<String, AllocError>
    ensures { IfOk result (λ path. string_bytes path ≡ codes "examples/" ++ (name.now ++ kind.now)) }
{
    format!(in alloc; "examples/{name}{kind}")
}

// Reads the file of an example that ends with `kind`, or so many bytes of it.
pub fn read_part<R: Files + AllocGlobal>(
    rt: &R,
    name: &str,
    kind: &str,
    most: usize,
) -> io::Result<Vec<u8>>
    ensures { IfOk result (λ bytes. vec_len bytes ≤ most) }
{
    let path = path_of(rt.alloc(), name, kind)?;
    read_file(rt, path.as_str(), most)
}
