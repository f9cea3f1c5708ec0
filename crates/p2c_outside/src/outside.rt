ghost use Rattle.std.specs.Prelude.{◌≡◌, ◌≢◌, ℕ, ◌<◌, ◌≤◌, ◌↔◌, Option, None, List, [], length, take, drop, IfOk, OnOk, OnErr};
ghost use Rattle.p2c_outside.specs.Counts.{Rose};
ghost use Rattle.p2c_outside.specs.Told.{Loses, Gains, IsEmpty, Named, WhereTold, IsAbsence};

/// A call of a source or a sink was refused.
#[derive(Clone, Copy)]
pub struct Failed;

/// Why files gave no bytes.
#[derive(Clone, Copy)]
pub enum FileFault {
    /// No file has the name.
    Missing,
    /// Any other fault.
    Failed,
}

/// Where bytes come from, in order.
pub trait Source {
    // the bytes still to come, where they are told
    ghost left: { Self → Option (List ℕ) };

    // how often the source failed
    ghost faults: { Self → ℕ };

    /// Takes some of the next bytes into the front of `into`, and answers how many. An answer of 0
    /// is the end. After a refusal `into` holds any bytes.
    fn take(&mut self, into: &mut [u8]) -> Result<usize, Failed>
        requires { 0 < length into.old }

        ensures never_falls { faults self.old ≤ faults self.new }
        ensures no_fault { OnOk result (faults self.new ≡ faults self.old) }
        ensures refused { OnErr result (Rose (faults self.old) (faults self.new)) }

        ensures within { IfOk result (λ n. n ≤ length into.new) }
        ensures taken { IfOk result (λ n. Loses (left self.old) (left self.new) (take n into.new)) }
        ensures end { IfOk result (λ n. n ≡ 0 → IsEmpty (left self.old)) }
        ensures kept { OnErr result (left self.new ≡ left self.old) };
}

/// Where bytes go, in order.
pub trait Sink {
    // the bytes that were written, where they are told
    ghost written: { Self → Option (List ℕ) };

    // how often the sink failed
    ghost faults: { Self → ℕ };

    /// Writes a front of `piece`, and answers how many bytes it has.
    fn put(&mut self, piece: &[u8]) -> Result<usize, Failed>
        requires { 0 < length piece.now }

        ensures never_falls { faults self.old ≤ faults self.new }
        ensures no_fault { OnOk result (faults self.new ≡ faults self.old) }
        ensures refused { OnErr result (Rose (faults self.old) (faults self.new)) }

        ensures some { IfOk result (λ n. 1 ≤ n) }
        ensures within { IfOk result (λ n. n ≤ length piece.now) }
        ensures put { IfOk result (λ n.
            Gains (written self.old) (written self.new) (take n piece.now)) }
        ensures kept { OnErr result (written self.new ≡ written self.old) };
}

/// Files that are read by name.
pub trait Files {
    // the files, where they are told
    ghost told: { Self → Option Named };

    // how often a name was missing
    ghost missing: { Self → ℕ };

    // how often a file failed
    ghost faults: { Self → ℕ };

    /// Reads bytes of the file from the place `at` on into the front of `into`, and answers how
    /// many. An answer of 0 is the end. After a refusal `into` holds any bytes.
    fn read(&mut self, name: &str, at: u64, into: &mut [u8]) -> Result<usize, FileFault>
        requires { 0 < length into.old }

        ensures missing_never_falls { missing self.old ≤ missing self.new }
        ensures faults_never_fall { faults self.old ≤ faults self.new }
        ensures none_missing { OnOk result (missing self.new ≡ missing self.old) }
        ensures no_fault { OnOk result (faults self.new ≡ faults self.old) }
        ensures missed { result ≡ Err FileFault.Missing →
            Rose (missing self.old) (missing self.new) }
        ensures failed { result ≡ Err FileFault.Failed →
            Rose (faults self.old) (faults self.new) }

        ensures same { told self.new ≡ told self.old }
        ensures within { IfOk result (λ n. n ≤ length into.new) }
        ensures given { IfOk result (λ n. WhereTold (told self.old) name.now
            (λ bytes. take n into.new ≡ take n (drop at bytes))) }
        ensures end { IfOk result (λ n. WhereTold (told self.old) name.now
            (λ bytes. (n ≡ 0) ↔ (length bytes ≤ at))) }
        ensures absent { IsAbsence (told self.old) name.now (result ≡ Err FileFault.Missing) };
}
