// What a page is read from, and the reading of it to its end.
ghost use Rattle.std.specs.Prelude.{◌≡◌, ◌++◌, ⊤, List, ℕ, IfErr, IfOk, OnOk, OnErr};
ghost use Rattle.std.specs.Bool.{OnTrue};
ghost use Rattle.std.specs.declared.io.Error.{Error};
ghost use Rattle.std.specs.Io.{ReadsAtMost};
ghost use Rattle.std.specs.Io.KnownBytes.{ReadConsumes, IsAtEnd};
ghost use Rattle.plays.specs.Sources.{Gained, FailsNow, Fails};

use std::alloc::AllocError;
use std::fs::File;
use std::io;
use std::io::{ErrorKind, Read};
use thiserror::Error;

/// What a page is read from: a reader of which it is said with what its reads may fail.
pub trait Source: Read {
    // The errors that a read which is made in this state may end with.
    ghost may_fail: { Self → Error → Type 0 };

    /// One read, as `Read::read` makes it: how many bytes now stand at the start of the buffer,
    /// 0 only at the end or where the buffer has no room.
    fn give(&mut self, buffer: &mut [u8]) -> io::Result<usize>
        ensures bound { ReadsAtMost result buffer.new }
        ensures bytes { ReadConsumes (Self.remaining self.old) (Self.remaining self.new) result
            buffer.new }
        ensures failed { IfErr result (may_fail self.old) };
}

// Of a file nothing is known: neither its bytes nor how a read of it ends.
impl Source for File {
    ghost may_fail = { λ _ _. ⊤ };

    fn give(&mut self, buffer: &mut [u8]) -> io::Result<usize> {
        Read::read(self, buffer)
    }
}

// Bytes in memory can always be read.
impl Source for &[u8] {
    ghost may_fail = { λ _ _. ⊥ };

    fn give(&mut self, buffer: &mut [u8]) -> io::Result<usize> {
        self.read(buffer)
    }
}

/// Why a page is not loaded: a read of its source failed, with this error; or memory was wanting.
/// `Memory` stands too for an end that is not met in 2^64 reads.
#[derive(Debug, Drop, Error)]
pub enum LoadFault {
    #[error(transparent)]
    Reading(io::Error),
    #[error("out of memory")]
    Memory(AllocError),
}

// Puts what one read gives behind the bytes, and tells whether the source is at its end. A read
// that a signal broke off gives nothing, and is no failure.
fn read_more<S: Source>(page: &mut S, bytes: &mut Vec<u8>) -> Result<bool, LoadFault>
    ensures gained { OnOk result (Gained S.remaining page.old page.new
        bytes.old.items bytes.new.items) }
    ensures end { IfOk result (λ ended. OnTrue ended (IsAtEnd (S.remaining page.new))) }
    ensures failed { IfErr result (FailsNow S.may_fail page.old) }
    ensures kept { OnErr result (bytes.new.items ≡ bytes.old.items) }
{
    let mut chunk = [0u8; 8192];
    match page.give(&mut chunk) {
        Ok(count) => {
            if bytes.extend_from_slice(&chunk[..count]).is_err() {
                return Err(LoadFault::Memory(AllocError));
            }
            Ok(count == 0)
        }
        Err(error) => {
            if error.kind() == ErrorKind::Interrupted {
                return Ok(false);
            }
            Err(LoadFault::Reading(error))
        }
    }
}

// Puts all that the source still has behind the bytes. After an error what was read until then
// stands there.
pub(crate) fn read_behind<S: Source>(page: &mut S, bytes: &mut Vec<u8>) -> Result<(), LoadFault>
    ensures gained { OnOk result (Gained S.remaining page.old page.new
        bytes.old.items bytes.new.items) }
    ensures end { OnOk result (IsAtEnd (S.remaining page.new)) }
    ensures failed { IfErr result (Fails S.remaining S.may_fail page.old) }
    ensures behind { OnErr result ((more : List ℕ) × (bytes.new.items ≡ bytes.old.items ++ more)) }
{
    for _ in 0..usize::MAX {
        match read_more(page, bytes) {
            Ok(true) => return Ok(()),
            Ok(false) => {}
            Err(fault) => return Err(fault),
        }
    }
    Err(LoadFault::Memory(AllocError))
}
