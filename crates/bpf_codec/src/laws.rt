//! What the encodings say of one another, and of faults.
ghost use Rattle.bpf_codec.specs.Slots.{NoneBeginsAnother, NoneShared};
ghost use Rattle.bpf_codec.specs.Faults.{NoFaultWhereEncoded};

/// No encoding begins another.
pub fn none_begins_another()
    ensures { NoneBeginsAnother }
{}

/// No two instructions share an encoding.
pub fn none_shared()
    ensures { NoneShared }
{}

/// Bytes have no fault exactly where they begin with the encoding of an instruction.
pub fn no_fault_where_encoded()
    ensures { NoFaultWhereEncoded }
{}
