ghost use Rattle.std.specs.Prelude.{◌≡◌, ℕ, ◌<◌, List, None, length, option_map};
ghost use Rattle.taco_io.specs.Shelf.{IsRead, untold_shelf};

use crate::files::{Files, Opened, Pull};
use std::alloc::Global;
use std::fs;
use std::io::Read;
use std::rt::Files as System;

/// An open file of the system, under the name by which it was opened.
#[derive(Drop)]
pub struct Reading<F: Read + Drop> {
    name: Vec<u8>,
    file: F,
}

/// The system's files. They tell nothing of their content, and one count of failed calls is the
/// count of every name.
#[derive(Drop)]
pub struct RealFiles<'a, R: System> {
    alloc: Global,
    system: &'a R,
    first: Option<Reading<R::File>>,
    second: Option<Reading<R::File>>,
    faults: u64,
}

/// One read of a file.
fn read_some<F: Read>(file: &mut F, buffer: &mut [u8]) -> Pull
    requires { 0 < length buffer.old }
    ensures { IsRead result buffer.new }
{
    match file.read(buffer) {
        Ok(0) => Pull::End,
        Ok(n) => Pull::Got(n),
        Err(_) => Pull::Failed,
    }
}

/// One read of an open slot.
fn pull_from<F: Read + Drop>(slot: &mut Option<Reading<F>>, buffer: &mut [u8]) -> Pull
    requires { 0 < length buffer.old }
    ensures read { IsRead result buffer.new }
    ensures name { option_map (λ reading. reading.name.items) slot.new ≡ option_map (λ reading. reading.name.items) slot.old }
{
    match slot {
        Some(reading) => read_some(&mut reading.file, buffer),
        None => Pull::Failed,
    }
}

impl<'a, R: System> RealFiles<'a, R> {
    /// The files of this system, with no slot open and no fault yet. It takes no memory; the
    /// allocator is for the names that `open` keeps.
    pub fn new(alloc: Global, system: &'a R) -> RealFiles<'a, R>
        ensures closed { (slot : ℕ) → (⟦<RealFiles<'a, R> as Files>⟧.shelf result).name slot ≡ None }
        ensures calm { (name : List ℕ) → (⟦<RealFiles<'a, R> as Files>⟧.shelf result).faults name ≡ 0 }
    {
        RealFiles {
            alloc,
            system,
            first: None,
            second: None,
            faults: 0,
        }
    }
}

impl<'a, R: System> Files for RealFiles<'a, R> {
    ghost shelf = { λ files. untold_shelf (option_map (λ reading. reading.name.items) files.first) (option_map (λ reading. reading.name.items) files.second) files.faults };

    fn open(&mut self, slot: u8, name: &str) -> Opened {
        let Ok(kept) = Vec::from_slice(self.alloc, name.as_bytes()) else {
            return Opened::NoMemory;
        };
        match fs::open(self.system, name) {
            Ok(file) => {
                let reading = Some(Reading { name: kept, file });
                match slot {
                    0 => self.first = reading,
                    _ => self.second = reading,
                }
                Opened::Ready
            }
            Err(_) => {
                self.faults = self.faults.saturating_add(1);
                Opened::Failed
            }
        }
    }

    fn pull(&mut self, slot: u8, buffer: &mut [u8]) -> Pull {
        let pulled = match slot {
            0 => pull_from(&mut self.first, buffer),
            _ => pull_from(&mut self.second, buffer),
        };
        if let Pull::Failed = &pulled {
            self.faults = self.faults.saturating_add(1);
        }
        pulled
    }
}

#[cfg(test)]
mod tests {
    use super::*;
    use crate::real_sink::RealSink;
    use crate::transfers::{read_all, write_all};
    use std::io;
    use std::test::Fail;

    #[test]
    fn reads_and_writes_through_the_system(rt: HostRuntime) -> Result<(), Fail> {
        fs::write(&rt, "small.txt", "two\nlines\n")?;
        let mut files = RealFiles::new(rt.alloc(), &rt);
        assert_eq!(rt; files.open(0, "small.txt"), Opened::Ready);
        let bytes = read_all(rt.alloc(), &mut files, 0, 10)?;
        assert_eq!(rt; bytes.as_slice(), b"two\nlines\n".as_slice());
        assert_eq!(rt; files.faults, 0);
        assert_eq!(rt; files.open(1, "missing.txt"), Opened::Failed);
        assert_eq!(rt; files.faults, 1);
        write_all(&mut RealSink::new(io::writer(&rt)), bytes.as_slice())?;
        Ok(())
    }

    #[test]
    fn reads_two_files_by_turns(rt: HostRuntime) -> Result<(), Fail> {
        fs::write(&rt, "first.txt", "abcd")?;
        fs::write(&rt, "second.txt", "wxyz")?;
        let mut piece = [0u8; 2];
        let mut files = RealFiles::new(rt.alloc(), &rt);
        assert_eq!(rt; files.open(0, "first.txt"), Opened::Ready);
        assert_eq!(rt; files.pull(0, &mut piece), Pull::Got(2));
        assert_eq!(rt; files.open(1, "second.txt"), Opened::Ready);
        assert_eq!(rt; files.pull(0, &mut piece), Pull::Got(2));
        assert_eq!(rt; piece.as_slice(), b"cd".as_slice());
        let mut files = RealFiles::new(rt.alloc(), &rt);
        assert_eq!(rt; files.open(0, "first.txt"), Opened::Ready);
        assert_eq!(rt; files.pull(0, &mut piece), Pull::Got(2));
        assert_eq!(rt; files.open(1, "second.txt"), Opened::Ready);
        assert_eq!(rt; files.pull(1, &mut piece), Pull::Got(2));
        assert_eq!(rt; piece.as_slice(), b"wx".as_slice());
        Ok(())
    }
}
