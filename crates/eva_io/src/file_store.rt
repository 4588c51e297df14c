ghost use Rattle.std.specs.Prelude.{◌≡◌, ◌≢◌, ◌+◌, ◌≤◌, ◌<◌, ◌==◌, if◌then◌else◌, [], None, IfOk, IfSome, length, take, vec_len};
ghost use Rattle.eva_io.specs.Memory.{count_of};
ghost use Rattle.eva_io.specs.Outside.{OnTooLong};

use crate::counts::Counts;
use crate::store::{LoadFault, Store};
use c_base::name::Name;
use std::alloc::Global;
use std::io::{ErrorKind, Read};
use std::marker::Model;
use std::rt::Files;
use std::{fs, io};

/// The files of the system: a name is a path. It tells nothing.
///
/// `Failed` comes where the name is no UTF-8 text, and where the file can't be opened or read, as a
/// folder; `Memory` where memory is wanting for the bytes or for the count of the name's faults.
#[derive(Drop)]
pub struct FileStore<R: Files> {
    rt: R,
    alloc: Global,
    faults: Counts,
}

impl<R: Files> Model for FileStore<R> {
    ghost use Rattle.std.specs.Prelude.{ℕ, List};

    ghost Value = { List (List ℕ × ℕ) };

    ghost view = { λ store. store.faults.entries.items };
}

impl<R: Files + AllocGlobal> FileStore<R> {
    /// A store over the runtime, or over a reference to it.
    pub fn new(rt: R) -> FileStore<R>
        ensures { result ≡ [] }
    {
        let alloc = rt.alloc();
        FileStore {
            rt,
            alloc,
            faults: Counts::new(alloc),
        }
    }
}

impl<R: Files> Store for FileStore<R> {
    ghost told = { λ _ _. None };

    ghost faults_at = { λ store name. count_of store name };

    fn load(&mut self, alloc: Global, name: &Name, most: u64) -> Result<Vec<u8>, LoadFault> {
        if self.faults.admit(self.alloc, name).is_err() {
            return Err(LoadFault::Memory);
        }
        match read_file(&self.rt, alloc, name, most) {
            Ok(bytes) => Ok(bytes),
            Err(LoadFault::Failed) => {
                self.faults.raise(name);
                Err(LoadFault::Failed)
            }
            Err(LoadFault::TooLong) => Err(LoadFault::TooLong),
            Err(LoadFault::Memory) => Err(LoadFault::Memory),
        }
    }

    fn faults(&self, name: &Name) -> u64 {
        self.faults.count(name)
    }
}

fn read_file<R: Files>(rt: &R, alloc: Global, name: &Name, most: u64) -> Result<Vec<u8>, LoadFault>
    ensures { IfOk result (λ bytes. vec_len bytes ≤ most) }
{
    let Ok(path) = str::from_utf8(name.as_bytes()) else {
        return Err(LoadFault::Failed);
    };
    match fs::open(rt, path) {
        Ok(file) => read_at_most(file, alloc, most),
        Err(error) => Err(fault_of(&error)),
    }
}

/// All that `reader` gives, where that is at most `most` bytes; it takes no more than one beyond.
fn read_at_most<F: Read + Drop>(reader: F, alloc: Global, most: u64) -> Result<Vec<u8>, LoadFault>
    ensures fits { IfOk result (λ bytes. vec_len bytes ≤ most) }
    ensures content { IfOk result (λ bytes.
        IfSome (F.remaining reader) (λ held. held ≡ bytes.items)) }
    ensures too_long { OnTooLong result (IfSome (F.remaining reader) (λ held. most < length held)) }
{
    let bytes = match read_beyond(reader, alloc, most) {
        Ok(bytes) => bytes,
        Err(error) => return Err(fault_of(&error)),
    };
    if bytes.len() as u64 > most {
        return Err(LoadFault::TooLong);
    }
    Ok(bytes)
}

/// The first `most + 1` bytes that `reader` gives, or all where it gives fewer.
fn read_beyond<F: Read + Drop>(mut reader: F, alloc: Global, most: u64) -> io::Result<Vec<u8>>
    ensures { IfOk result (λ bytes. IfSome (F.remaining reader) (λ held.
        bytes.items ≡ (if most == u64.MAX then held else take (most + 1) held))) }
{
    let mut bytes = Vec::new(alloc);
    match most.checked_add(1) {
        Some(limit) => reader.take(limit).read_to_end(&mut bytes)?,
        None => reader.read_to_end(&mut bytes)?,
    };
    Ok(bytes)
}

fn fault_of(error: &io::Error) -> LoadFault
    ensures { result ≢ LoadFault.TooLong }
{
    match error.kind() {
        ErrorKind::OutOfMemory => LoadFault::Memory,
        _ => LoadFault::Failed,
    }
}
