//! The plain table, as code.

ghost use Rattle.std.specs.Prelude.{◌≡◌, IfOk, OnOk, OnErr, [], option_and_then, option_copied};
ghost use Rattle.std.specs.List.Sorted.{IsStrictlyIncreasing};
ghost use Rattle.attr_types.specs.Lawful.{DocumentsHaveType, IsLawfulTable, OpFits};
ghost use Rattle.attr_types.specs.Query.{tree_of};
ghost use Rattle.attr_types.specs.Table.{hits as hits_of, updated, to_update, document_at};
ghost use Rattle.plain_model.specs.Answers.{plain_after, answer_to};

use crate::matching::matches_document;
use attr_types::{
    Applied, Doc, DocList, FieldChanges, FieldItems, Fields, Op, Query, updated_document,
};
use std::alloc::{AllocError, Global};
use std::collections::BTreeMap;
use std::marker::Model;

/// The table of some attributes.
#[derive(Debug, Drop)]
pub struct PlainTable {
    fields: Fields,
    documents: BTreeMap<Doc, FieldItems>,
}

impl Model for PlainTable {
    ghost use Rattle.attr_types.specs.Lawful.{IsLawfulTable, DocumentsHaveType};
    ghost use Rattle.plain_model.specs.Plain.{Plain};

    ghost Value = { Plain };

    ghost view = { λ p. record { fields = p.fields; table = p.documents.entries } };

    ghost invariant = { λ p. IsLawfulTable p.fields p.documents.entries × DocumentsHaveType p.fields p.documents.entries };
}

impl PlainTable {
    /// Creates an empty table.
    pub fn new(alloc: Global, fields: Fields) -> PlainTable
        ensures { result ≡ record { fields = fields; table = [] } }
    {
        PlainTable {
            fields,
            documents: BTreeMap::new(alloc),
        }
    }

    /// Returns the attributes of the table.
    pub fn fields(&self) -> &Fields
        ensures { result.now ≡ self.now.fields }
    {
        &self.fields
    }

    /// Returns the existing documents, each with its items in each attribute.
    pub fn documents(&self) -> &BTreeMap<Doc, FieldItems>
        ensures entries { result.now.entries ≡ self.now.table }
        ensures lawful { IsLawfulTable self.now.fields self.now.table }
        ensures typed { DocumentsHaveType self.now.fields self.now.table }
    {
        &self.documents
    }

    /// Returns a document's items in each attribute, if the document exists.
    pub fn document(&self, doc: Doc) -> Option<&FieldItems>
        ensures { option_copied result ≡ document_at self.now.table doc }
    {
        self.documents.get(&doc)
    }

    /// Applies an operation. If memory is exhausted, the table is unchanged.
    pub fn apply(&mut self, alloc: Global, op: Op) -> Result<Applied, AllocError>
        requires { OpFits self.old.fields op }
        ensures table { OnOk result (self.new ≡ plain_after self.old op) }
        ensures skipped { IfOk result (λ applied. applied ≡ answer_to self.old op) }
        ensures err { OnErr result (self.new ≡ self.old) }
    {
        match op {
            Op::Put { doc, items } => {
                self.documents.insert(doc, items)?;
                Ok(Applied::Changed)
            }
            Op::Update {
                doc,
                create,
                change,
            } => self.update(alloc, doc, create, change),
            Op::Remove { doc } => Ok(match self.documents.remove(&doc) {
                Some(_) => Applied::Changed,
                None => Applied::Skipped,
            }),
        }
    }

    fn update(
        &mut self,
        alloc: Global,
        doc: Doc,
        create: bool,
        change: FieldChanges,
    ) -> Result<Applied, AllocError>
        requires { OpFits self.old.fields (Op.Update doc create change) }
        ensures table { OnOk result (self.new ≡ plain_after self.old (Op.Update doc create change)) }
        ensures skipped { IfOk result (λ applied. applied ≡ answer_to self.old (Op.Update doc create change)) }
        ensures err { OnErr result (self.new ≡ self.old) }
    {
        match self.next_document(alloc, doc, create, change)? {
            Some(new) => {
                self.documents.insert(doc, new)?;
                Ok(Applied::Changed)
            }
            None => Ok(Applied::Skipped),
        }
    }

    fn next_document(
        &self,
        alloc: Global,
        doc: Doc,
        create: bool,
        change: FieldChanges,
    ) -> Result<Option<FieldItems>, AllocError>
        ensures { IfOk result (λ new. new ≡ option_and_then (updated self.now.fields change)
            (to_update self.now.fields create (document_at self.now.table doc))) }
    {
        let fields = self.fields.as_slice();
        let document = self.documents.get(&doc);
        updated_document(alloc, fields, create, change.as_slice(), document)
    }

    /// Returns the documents that a query matches, ascending.
    pub fn hits(&self, alloc: Global, query: &Query) -> Result<DocList, AllocError>
        ensures hits { IfOk result (λ docs. docs ≡ hits_of (tree_of query.now) self.now.table) }
        ensures ascend { IfOk result IsStrictlyIncreasing }
    {
        scan(alloc, &self.documents, query)
    }
}

fn scan(
    alloc: Global,
    documents: &BTreeMap<Doc, FieldItems>,
    query: &Query,
) -> Result<DocList, AllocError>
    ensures { IfOk result (λ docs. docs ≡ hits_of (tree_of query.now) documents.now.entries) }
{
    let mut hits = DocList::new(alloc);
    for (doc, document) in documents {
        if matches_document(query, document) {
            hits.push(*doc)?;
        }
    }
    Ok(hits)
}
