ghost use Rattle.std.specs.Prelude.{◌≡◌, ◌≤◌, IfOk, length, false, None};

use crate::shelf::{Fault, PutFault, Shelf};
use std::io::{ErrorKind, Read, Seek, SeekFrom, Write};
use std::rt::Files;
use std::{fs, io};

/// The files of the machine, opened anew at each call. It tells nothing of what they hold.
#[derive(Drop)]
pub struct FileShelf<'a, R> {
    rt: &'a R,
    piece_faults: u64,
    put_faults: u64,
}

impl<'a, R: Files> FileShelf<'a, R> {
    /// The files of the runtime. No fault is counted yet.
    pub fn new(rt: &'a R) -> FileShelf<'a, R>
        ensures piece_faults { result.piece_faults ≡ 0 }
        ensures put_faults { result.put_faults ≡ 0 }
    {
        FileShelf {
            rt,
            piece_faults: 0,
            put_faults: 0,
        }
    }
}

impl<R: Files> Shelf for FileShelf<'_, R> {
    ghost tells = { λ _. false };

    ghost held = { λ _ _. None };

    ghost piece_faults = { λ s. s.piece_faults };

    ghost put_faults = { λ s. s.put_faults };

    fn piece(&mut self, name: &str, at: u64, buf: &mut [u8]) -> Result<usize, Fault> {
        match read_at(self.rt, name, at, buf) {
            Ok(count) => Ok(count),
            Err(_) => {
                self.piece_faults = self.piece_faults.saturating_add(1);
                Err(Fault)
            }
        }
    }

    fn put(&mut self, name: &str, bytes: &[u8]) -> Result<(), PutFault> {
        match write_whole(self.rt, name, bytes) {
            Ok(()) => Ok(()),
            Err(_) => {
                self.put_faults = self.put_faults.saturating_add(1);
                Err(PutFault::Fault)
            }
        }
    }
}

/// Opens the name, goes to the place and reads.
fn read_at<R: Files>(rt: &R, name: &str, at: u64, buf: &mut [u8]) -> io::Result<usize>
    ensures { IfOk result (λ n. n ≤ length buf.new) }
{
    let mut file = fs::open(rt, name)?;
    file.seek(SeekFrom::Start(at))?;
    read_through(&mut file, buf)
}

/// Reads once, and again where a signal interrupted the read.
fn read_through<F: Read>(file: &mut F, buf: &mut [u8]) -> io::Result<usize>
    ensures { IfOk result (λ n. n ≤ length buf.new) }
{
    for _ in 0..u64::MAX {
        match file.read(buf) {
            Err(fault) if fault.kind() == ErrorKind::Interrupted => {}
            answer => return answer,
        }
    }
    Err(io::Error::from(ErrorKind::Interrupted))
}

/// Creates the file and writes it whole.
fn write_whole<R: Files>(rt: &R, name: &str, bytes: &[u8]) -> io::Result<()> {
    let mut file = fs::create(rt, name)?;
    file.write_all(bytes)
}
