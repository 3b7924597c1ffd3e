ghost use Rattle.std.specs.Prelude.{◌≡◌, List, ℕ, IfOk, OnOk, OnErr, IsErrOf, MatchResult};
ghost use Rattle.std.specs.Option.{option_map};
ghost use Rattle.std.specs.FinMap.{get};
ghost use Rattle.outside_io.specs.State.{IsFound, ReadKeeps, IsPut, PutKeeps};
ghost use Rattle.outside_io.specs.Refusals.{ReadRefused, PutRefused};
ghost use Rattle.outside_io.specs.Counts.{counts_of, after_read, after_put};
ghost use Rattle.outside_io.specs.CalmFolder.{held_files, calm_folder_state, untouched, holding};

use crate::{Folder, PutEnd, ReadEnd};
use std::alloc::{AllocError, Global};
use std::collections::VecDeque;

// One write of a file.
#[derive(Drop)]
pub struct Held {
    name: Vec<u8>,
    bytes: Vec<u8>,
}

impl Held {
    // A copy of a name and its bytes.
    fn new(alloc: Global, name: &[u8], bytes: &[u8]) -> Result<Held, AllocError>
        ensures name { IfOk result (λ held. held.name.items ≡ name.now) }
        ensures bytes { IfOk result (λ held. held.bytes.items ≡ bytes.now) }
    {
        Ok(Held {
            name: Vec::from_slice(alloc, name)?,
            bytes: Vec::from_slice(alloc, bytes)?,
        })
    }

    pub fn name(&self) -> &[u8]
        ensures { result.now ≡ self.now.name.items }
    {
        self.name.as_slice()
    }

    pub fn bytes(&self) -> &[u8]
        ensures { result.now ≡ self.now.bytes.items }
    {
        self.bytes.as_slice()
    }
}

// The bytes of the newest write of that name.
fn find_bytes<'a>(files: &'a VecDeque<Held>, name: &[u8]) -> Option<&'a [u8]>
    ensures { option_map (λ bytes. bytes.now) result ≡ get (held_files files.now.items) name.now }
{
    for held in files {
        if name == held.name.as_slice() {
            return Some(held.bytes.as_slice());
        }
    }
    None
}

/// A folder in memory that never fails. It tells the files that it holds and the puts that succeeded, and its faults
/// of reads and of puts are always 0.
///
/// It keeps each write, the newest first, and a read looks through them: it is made for small folders.
#[derive(Drop)]
pub struct CalmFolder {
    files: VecDeque<Held>,
    puts: Vec<Held>,
    absents: u64,
    overlongs: u64,
}

impl CalmFolder {
    /// A folder without files.
    pub fn new(alloc: Global) -> CalmFolder
        ensures { calm_folder_state result ≡ untouched }
    {
        CalmFolder {
            files: VecDeque::new(alloc),
            puts: Vec::new(alloc),
            absents: 0,
            overlongs: 0,
        }
    }

    /// Sets the bytes of a file, which is no put. Where there is no memory the folder is as before.
    pub fn hold(&mut self, alloc: Global, name: &[u8], bytes: &[u8]) -> Result<(), AllocError>
        ensures ok { OnOk result (calm_folder_state self.new ≡ holding (calm_folder_state self.old) name.now bytes.now) }
        ensures err { OnErr result (calm_folder_state self.new ≡ calm_folder_state self.old) }
    {
        self.files.push_front(Held::new(alloc, name, bytes)?)?;
        Ok(())
    }

    // The bytes of a file.
    pub(crate) fn held(&self, name: &[u8]) -> Option<&[u8]>
        ensures { option_map (λ bytes. bytes.now) result ≡ get (held_files self.now.files.items) name.now }
    {
        find_bytes(&self.files, name)
    }

    // The puts that succeeded, in order.
    pub(crate) fn puts(&self) -> &[Held]
        ensures { result.now ≡ self.now.puts.items }
    {
        self.puts.as_slice()
    }
}

impl Folder for CalmFolder {
    ghost state = { calm_folder_state };

    fn read(&mut self, alloc: Global, name: &[u8], limit: u64) -> Result<Vec<u8>, ReadEnd>
        ensures answer { MatchResult result
            (λ bytes. IsFound (calm_folder_state self.old) name.now limit bytes.items)
            (ReadRefused (calm_folder_state self.old) (calm_folder_state self.new) name.now limit) }
        ensures keeps { ReadKeeps (calm_folder_state self.old) (calm_folder_state self.new) }
        ensures counts { counts_of (calm_folder_state self.new) ≡ after_read (counts_of (calm_folder_state self.old)) result }
        ensures never_fails { IsErrOf result ReadEnd.Failed → ⊥ }
    {
        let Some(bytes) = find_bytes(&self.files, name) else {
            self.absents = self.absents.saturating_add(1);
            return Err(ReadEnd::Absent);
        };
        if bytes.len() as u64 > limit {
            self.overlongs = self.overlongs.saturating_add(1);
            return Err(ReadEnd::TooLong);
        }
        Ok(Vec::from_slice(alloc, bytes)?)
    }

    fn put(&mut self, alloc: Global, name: &[u8], bytes: &[u8]) -> Result<(), PutEnd>
        ensures answer { MatchResult result
            (λ _. IsPut (calm_folder_state self.old) (calm_folder_state self.new) name.now bytes.now)
            (PutRefused (calm_folder_state self.old) (calm_folder_state self.new) name.now) }
        ensures keeps { PutKeeps (calm_folder_state self.old) (calm_folder_state self.new) }
        ensures counts { counts_of (calm_folder_state self.new) ≡ after_put (counts_of (calm_folder_state self.old)) result }
        ensures never_fails { IsErrOf result PutEnd.Failed → ⊥ }
    {
        let file = Held::new(alloc, name, bytes)?;
        let put = Held::new(alloc, name, bytes)?;
        self.files.push_front(file)?;
        self.puts.push(put)?;
        Ok(())
    }
}
