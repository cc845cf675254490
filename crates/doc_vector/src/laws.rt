//! Laws of maps by document. Each function does nothing; its contract is the law.
ghost use Rattle.doc_vector.specs.Laws.{NothingIsMap, MapStays};
ghost use Rattle.doc_vector.specs.Laws.{SetIsFound, SetKeepsOthers, RemovedIsGone, RemoveKeepsOthers};

/// Root 0 is the empty map. A map stays the same while the records of its nodes stay the same.
pub fn document_law()
    ensures nothing { NothingIsMap }
    ensures stays { MapStays }
{}

/// A change of one document's items does not change those of any other document.
pub fn map_law()
    ensures found { SetIsFound }
    ensures others { SetKeepsOthers }
    ensures gone { RemovedIsGone }
    ensures still { RemoveKeepsOthers }
{}
