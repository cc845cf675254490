//! The laws of bit vectors.
ghost use Rattle.bit_vector.specs.Laws.{NothingIsVector, VectorStays, VectorAscends, VectorHasDocuments, VectorIsThere};

/// Root 0 is the empty set, and every other bit vector has a document. The documents ascend. The records of a bit vector exist, and it
/// stays the same while they stay the same. The function does nothing; its contract is the law.
pub fn vector_law()
    ensures nothing { NothingIsVector }
    ensures stays { VectorStays }
    ensures ascends { VectorAscends }
    ensures filled { VectorHasDocuments }
    ensures there { VectorIsThere }
{}
