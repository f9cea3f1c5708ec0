ghost use Rattle.std.specs.Prelude.{◌≡◌, ◌≢◌, ◌<◌, ◌≤◌, ◌↔◌, Some, None, IfOk, OnErr, IsSome, Contains, length, drop};
ghost use Rattle.std.specs.Option.{option_copied};
ghost use Rattle.p2c_outside.specs.Counts.{next_count};
ghost use Rattle.p2c_outside.specs.Files.{file_of};
ghost use Rattle.p2c_outside.specs.Pieces.{moved, with_front};
ghost use Rattle.p2c_outside.specs.Told.{HasFile};

use crate::outside::{FileFault, Files};
use crate::pieces::{fill_front, is_listed};
use p2c_text::Text;

/// Files in memory, of which chosen reads fail. Of several files with one name the first is meant.
#[derive(Drop)]
pub struct MemoryFiles {
    /// The files.
    pub names: Vec<Text>,
    /// The most bytes that one call gives.
    pub most: usize,
    /// The number of the last call. The first is 1, and the count stops at its last value.
    pub calls: u64,
    /// The numbers of the calls that fail where the name is there.
    pub fail: Vec<u64>,
    /// How many calls found no file. The count stops at its last value.
    pub missing: u64,
    /// How many calls failed. The count stops at its last value.
    pub faults: u64,
    pub ghost gives_some: { 1 ≤ most },
}

fn find_file<'a>(files: &'a [Text], name: &str) -> Option<&'a [u8]>
    ensures { option_copied result ≡ file_of files.now name.now }
{
    for text in files {
        if text.name.as_str() == name {
            return Some(text.bytes.as_slice());
        }
    }
    None
}

impl Files for MemoryFiles {
    ghost told = { λ files. Some (file_of files.names.items) };

    ghost missing = { λ files. files.missing };

    ghost faults = { λ files. files.faults };

    fn read(&mut self, name: &str, at: u64, into: &mut [u8]) -> Result<usize, FileFault>
        requires { 0 < length into.old }

        ensures absent { (result ≡ Err FileFault.Missing)
            ↔ (file_of self.old.names.items name.now ≡ None) }
        ensures fails { (result ≡ Err FileFault.Failed)
            ↔ (IsSome (file_of self.old.names.items name.now)
            × Contains self.old.fail.items (next_count self.old.calls)) }
        ensures missing_never_falls { self.old.missing ≤ self.new.missing }
        ensures faults_never_fall { self.old.faults ≤ self.new.faults }
        ensures missed { result ≡ Err FileFault.Missing →
            self.new.missing ≡ next_count self.old.missing }
        ensures none_missing { result ≢ Err FileFault.Missing →
            self.new.missing ≡ self.old.missing }
        ensures failed { result ≡ Err FileFault.Failed →
            self.new.faults ≡ next_count self.old.faults }
        ensures no_fault { result ≢ Err FileFault.Failed →
            self.new.faults ≡ self.old.faults }
        ensures counted { self.new.calls ≡ next_count self.old.calls }

        ensures count { IfOk result (λ n. HasFile (file_of self.old.names.items name.now)
            (λ bytes. n ≡ moved (length into.old) self.old.most (length (drop at bytes)))) }
        ensures copied { IfOk result (λ n. HasFile (file_of self.old.names.items name.now)
            (λ bytes. into.new ≡ with_front n (drop at bytes) into.old)) }
        ensures untouched { OnErr result (into.new ≡ into.old) }

        ensures same_names { self.new.names.items ≡ self.old.names.items }
        ensures same_most { self.new.most ≡ self.old.most }
        ensures same_fail { self.new.fail.items ≡ self.old.fail.items }
    {
        self.calls = self.calls.saturating_add(1);
        let Some(bytes) = find_file(&self.names, name) else {
            self.missing = self.missing.saturating_add(1);
            return Err(FileFault::Missing);
        };
        if is_listed(&self.fail, self.calls) {
            self.faults = self.faults.saturating_add(1);
            return Err(FileFault::Failed);
        }
        let start = bytes.len().min(at as usize);
        Ok(fill_front(bytes, start, self.most, into))
    }
}
