//! The file of a name, and changes to it.
ghost use Rattle.std.specs.Prelude.{◌≡◌, ◌+◌, ◌-◌, ◌^◌, ◌<◌, ◌≤◌, take, drop, length, min, MatchOption, OnOk, OnErr};
ghost use Rattle.std.specs.Prelude.{IfOk, IsOk, IsSome, None, bytes_eq, vec_len, ◌++◌, [], ◌∷◌, slice_set};
ghost use Rattle.std.specs.Prelude.{option_copied};
ghost use Rattle.plan_desk.specs.Mem.{held_by, IsAt, IsPut, file_at};

use crate::files::MemFile;
use std::alloc::{AllocError, Global};

/// The place of the first file of this name.
pub fn find(files: &[MemFile], name: &str) -> Option<usize>
    ensures { MatchOption result (held_by files.now name.now ≡ None) (λ i. IsAt files.now i name.now) }
{
    for (i, file) in files.iter().enumerate() {
        if is_named(file, name) {
            return Some(i);
        }
    }
    None
}

/// What the first file of this name holds.
pub fn held<'a>(files: &'a [MemFile], name: &str) -> Option<&'a [u8]>
    ensures { option_copied result ≡ held_by files.now name.now }
{
    match find(files, name) {
        Some(at) => Some(bytes_of(files, at)),
        None => None,
    }
}

/// Copies the next bytes of a file to the front of the buffer, at most so many, and answers how many.
pub fn copy_part(files: &[MemFile], at: usize, from: usize, most: usize, buf: &mut [u8]) -> usize
    requires at_in { at < length files.now }
    requires from_in { from ≤ length (file_at files.now at).bytes }
    ensures count { result ≡ min most (min (length (file_at files.now at).bytes - from) (length buf.new)) }
    ensures bytes { take result buf.new ≡ take result (drop from (file_at files.now at).bytes) }
    ensures behind { drop result buf.new ≡ drop result buf.old }
    ensures fits { from + result < 2 ^ 64 }
{
    copy_bytes(bytes_of(files, at), from, most, buf)
}

/// Adds bytes at the end of a file.
pub fn append(files: &mut Vec<MemFile>, at: usize, piece: &[u8]) -> Result<(), AllocError>
    requires { at < vec_len files.old }
    ensures ok { OnOk result
        (files.new.items ≡ slice_set files.old.items at (record (file_at files.old.items at) {
          bytes = (file_at files.old.items at).bytes ++ piece.now;
        })) }
    ensures err { OnErr result (files.new.items ≡ files.old.items) }
{
    let file = &mut files[at];
    match file.bytes.extend_from_slice(piece) {
        Ok(()) => Ok(()),
        Err(e) => Err(e),
    }
}

/// Puts a file in the place of the first of its name, or behind the others where there is none, and answers its place.
pub fn put(
    alloc: Global,
    files: &mut Vec<MemFile>,
    name: &str,
    bytes: Vec<u8>,
    put_out: bool,
) -> Result<usize, AllocError>
    ensures ok { IfOk result
        (λ at. IsPut files.old.items files.new.items at
        (record { name = name.now; bytes = bytes.items; put_out = put_out })) }
    ensures err { OnErr result (files.new.items ≡ files.old.items) }
    ensures there { IsSome (held_by files.old.items name.now) → IsOk result }
{
    match find(files, name) {
        Some(at) => {
            replace(files, at, bytes, put_out);
            Ok(at)
        }
        None => {
            let at = files.len();
            match add(alloc, files, name, bytes, put_out) {
                Ok(()) => Ok(at),
                Err(e) => Err(e),
            }
        }
    }
}

fn replace(files: &mut Vec<MemFile>, at: usize, bytes: Vec<u8>, put_out: bool)
    requires { at < vec_len files.old }
    ensures { files.new.items ≡ slice_set files.old.items at (record {
      name = (file_at files.old.items at).name;
      bytes = bytes.items;
      put_out = put_out;
    }) }
{
    let file = &mut files[at];
    file.bytes = bytes;
    file.put_out = put_out;
}

fn add(
    alloc: Global,
    files: &mut Vec<MemFile>,
    name: &str,
    bytes: Vec<u8>,
    put_out: bool,
) -> Result<(), AllocError>
    ensures ok { OnOk result (files.new.items ≡ files.old.items ++ record {
      name = name.now;
      bytes = bytes.items;
      put_out = put_out;
    } ∷ []) }
    ensures err { OnErr result (files.new.items ≡ files.old.items) }
{
    let name = String::from_str(alloc, name)?;
    files.push(MemFile {
        name,
        bytes,
        put_out,
    })?;
    Ok(())
}

fn is_named(file: &MemFile, name: &str) -> bool
    ensures { result ≡ bytes_eq name.now file.now.name }
{
    name == file.name.as_str()
}

fn bytes_of(files: &[MemFile], at: usize) -> &[u8]
    requires { at < length files.now }
    ensures { result.now ≡ (file_at files.now at).bytes }
{
    let file = &files[at];
    file.bytes.as_slice()
}

fn copy_bytes(bytes: &[u8], from: usize, most: usize, buf: &mut [u8]) -> usize
    requires from_in { from ≤ length bytes.now }
    ensures count { result ≡ min most (min (length bytes.now - from) (length buf.new)) }
    ensures bytes { take result buf.new ≡ take result (drop from bytes.now) }
    ensures behind { drop result buf.new ≡ drop result buf.old }
    ensures fits { from + result < 2 ^ 64 }
{
    let rest = &bytes[from..];
    let n = most.min(rest.len().min(buf.len()));
    buf[..n].copy_from_slice(&rest[..n]);
    n
}
