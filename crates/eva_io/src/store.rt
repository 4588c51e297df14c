ghost use Rattle.std.specs.Prelude.{◌≡◌, ◌≢◌, ℕ, ◌≤◌, ◌<◌, List, Option, length, IfOk, IsErr, vec_len};
ghost use Rattle.eva_io.specs.Outside.{HeldWhereTold, IsToldToHold, LoadCounts, OnTooLong};

use c_base::name::Name;
use std::alloc::Global;
use thiserror::Error;

/// Why nothing was loaded.
#[derive(Clone, Copy, PartialEq, Eq, Debug, Error)]
pub enum LoadFault {
    /// The store couldn't give the content, and counted a fault of that name.
    #[error("the file can't be read")]
    Failed,
    /// The content has more bytes than were asked for at most.
    #[error("the file is too long")]
    TooLong,
    /// Memory was wanting; nothing was counted.
    #[error("out of memory")]
    Memory,
}

/// Files by name, with a count of the faults of each name.
///
/// A count is a `u64` that stays at its last value, where it counts as risen.
pub trait Store {
    /// What the store tells of a name: nothing (`None`), that the name isn't held (`Some None`), or
    /// its content.
    ghost told: { Self → List ℕ → Option (Option (List ℕ)) };

    /// How often a load of the name failed.
    ghost faults_at: { Self → List ℕ → ℕ };

    /// The content of `name`, where it has at most `most` bytes.
    ///
    /// `TooLong` comes only where the content has more, and `Failed` only where the name's count of
    /// faults rose in this call. No other answer changes a count, and none changes what is held.
    fn load(&mut self, alloc: Global, name: &Name, most: u64) -> Result<Vec<u8>, LoadFault>
        ensures fits { IfOk result (λ bytes. vec_len bytes ≤ most) }
        ensures content { IfOk result (λ bytes.
            HeldWhereTold (told self.old name.now) (λ held. held ≡ bytes.items)) }
        ensures too_long { OnTooLong result
            (HeldWhereTold (told self.old name.now) (λ held. most < length held)) }
        ensures long { IsToldToHold (told self.old name.now) (λ held. most < length held) →
            IsErr result }
        ensures held { (other : List ℕ) → told self.new other ≡ told self.old other }
        ensures counted { LoadCounts result
            (faults_at self.old name.now) (faults_at self.new name.now) }
        ensures others { (other : List ℕ) → other ≢ name.now →
            faults_at self.new other ≡ faults_at self.old other }
        ensures grows { (other : List ℕ) → faults_at self.old other ≤ faults_at self.new other };

    /// How often a load of `name` failed.
    fn faults(&self, name: &Name) -> u64
        ensures { result ≡ faults_at self.now name.now };
}
