//! A far store whose caller keeps the bytes, as that of the library for C can.
ghost use Rattle.std.specs.Prelude.{◌≡◌, ◌≢◌, ℕ, List, None, Ok, Err, IfOk, IfErr, OnOk, OnErr};
ghost use Rattle.far_store.specs.Stores.{Rises};
ghost use Rattle.far_store.specs.Calls.Call.{Put, Get};
ghost use Rattle.far_store.specs.declared.fault.StoreFault.TheVariants.{Damaged};

use crate::fault::StoreFault;
use crate::store::FarStore;

/// A store that can hand the bytes of a parcel to its caller to keep, and knows them again when they come back.
pub trait HandsOut: FarStore {
    /// Two byte strings that the store cannot tell apart.
    ghost alike: { List ℕ → List ℕ → Type 0 };

    /// A parcel that stands for bytes that the caller keeps.
    fn hand_out(&mut self, bytes: &Vec<u8>) -> Self::Parcel
        ensures parcel { Self.bytes_in result ≡ bytes.now.items }
        ensures calm { Self.faults_of self.new ≡ Self.faults_of self.old }
        ensures called { Self.called self.old (Put bytes.now.items None) self.new };

    /// Takes the bytes of a parcel from the caller who kept them. Bytes that the store cannot tell from those have to be
    /// those.
    fn take_back(&mut self, parcel: &Self::Parcel, bytes: &[u8]) -> Result<Vec<u8>, StoreFault>
        requires premise { alike (Self.bytes_in parcel.now) bytes.now → bytes.now ≡ Self.bytes_in parcel.now }
        ensures taken { IfOk result (λ v. (v.items ≡ Self.bytes_in parcel.now) × (bytes.now ≡ Self.bytes_in parcel.now)) }
        ensures damaged { IfErr result (λ fault. fault ≡ Damaged → bytes.now ≢ Self.bytes_in parcel.now) }
        ensures others { IfErr result (λ fault. bytes.now ≢ Self.bytes_in parcel.now → fault ≡ Damaged) }
        ensures calm { OnOk result (Self.faults_of self.new ≡ Self.faults_of self.old) }
        ensures fault { OnErr result (Rises (Self.faults_of self.old) (Self.faults_of self.new)) }
        ensures called { IfOk result (λ v. Self.called self.old (Get (Self.bytes_in parcel.now) (Ok v.items)) self.new) }
        ensures failed { IfErr result (λ fault. Self.called self.old (Get (Self.bytes_in parcel.now) (Err fault)) self.new) };
}
