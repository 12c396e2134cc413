//! What is true of the rest of every batch (OData JSON Format 4.01, sections 19.1 and 19.4).
//!
//! The laws are clauses of functions that change nothing. They speak of the words that the clauses of
//! [`crate::rest_of`], of [`crate::rest_text`] and of [`odb_reply::match_responses`] use.

ghost use Rattle.std.specs.Prelude.{◌≡◌, ◌↔◌, ◌≤◌, ◌++◌, [], ℕ, Bool, List, Option, Some, IsSome, codes, length};
ghost use Rattle.serde_json.specs.Data.{Data};
ghost use Rattle.serde_json.specs.Read.{read};
ghost use Rattle.odb_check.specs.LeastNameFault.{HasGoodNames};
ghost use Rattle.odb_doc.specs.Documents.{IsJson};
ghost use Rattle.odb_doc.specs.batch.LeastFault.{IsWellShaped};
ghost use Rattle.odb_doc.specs.batch.Records.{Record};
ghost use Rattle.odb_doc.specs.canonical.Canonical.{canonical_value};
ghost use Rattle.odb_doc.specs.canonical.CanonicalLaws.{IsDocumentOf};
ghost use Rattle.odb_reply.specs.Fits.{Fits, IsTableOf};
ghost use Rattle.odb_reply.specs.ResponseDocuments.{Entry};
ghost use Rattle.odb_sched.specs.declared.states.RequestState.{RequestState};
ghost use Rattle.odb_send.specs.declared.rest.Rest.{Rest};
ghost use Rattle.odb_send.specs.Answers.{Answer};
ghost use Rattle.odb_send.specs.Faults.{RefusesRest, RestFault, rest_row};
ghost use Rattle.odb_send.specs.Laws.{HasSucceeded, IsPartOfPlan, MayBeSent, with_rest};
ghost use Rattle.odb_send.specs.NextPart.{HasNoLonger, HasSome, IsFresh, IsNextPart, IsPartAfter, IsPartOf, MayGo, NeedsMet};
ghost use Rattle.odb_send.specs.Rests.{IsRestOf, kept, records_in};
ghost use Rattle.odb_send.specs.Texts.{IsTextOf};
ghost use Rattle.odb_send.specs.Units.{AreMarksOf, IsDone, IsInRest, IsLeftOut};
ghost use Rattle.odb_send.specs.Parts.{IsBatchIn};

/// The names of a rest fit together, so that [`odb_check::check`] returns a plan of it. That plan is the plan of the
/// batch over the requests in the rest: they have their order, their units, and those of their dependencies that are
/// in the rest. A unit in the rest needs nothing that is left out. If all requests of the batch have succeeded, the
/// rest has no request.
pub fn every_rest()
    ensures accepted { (batch : List Record) (statuses : List ℕ) (answers : ℕ → Answer)
        (rest : Rest) → HasGoodNames batch → IsRestOf batch statuses answers rest
        → HasGoodNames (records_in batch rest) }
    ensures plan { (batch : List Record) (statuses : List ℕ) (answers : ℕ → Answer)
        (rest : Rest) → HasGoodNames batch → IsRestOf batch statuses answers rest
        → IsPartOfPlan batch (kept rest) (records_in batch rest) }
    ensures nothing { (batch : List Record) (statuses : List ℕ) (answers : ℕ → Answer)
        (rest : Rest) → IsRestOf batch statuses answers rest → HasSucceeded batch statuses
        → records_in batch rest ≡ [] }
    ensures may_be_sent { (batch : List Record) (statuses : List ℕ)
        (answers : ℕ → Answer) (rest : Rest) → HasGoodNames batch
        → IsRestOf batch statuses answers rest
        → (u : ℕ) → IsInRest batch statuses u → MayBeSent batch statuses u }
{}

/// By responses that fit a batch, a unit that is done is not left out, and each unit that may be sent is in the
/// rest. So each unit is either done, or in the rest, or left out.
pub fn every_unit()
    ensures apart { (batch : List Record) (responses : List Entry) (places statuses : List ℕ)
        → HasGoodNames batch → Fits batch responses → IsTableOf batch responses places statuses
        → (u : ℕ) → IsLeftOut batch statuses u → ¬ IsDone batch statuses u }
    ensures all { (batch : List Record) (responses : List Entry) (places statuses : List ℕ)
        → HasGoodNames batch → Fits batch responses → IsTableOf batch responses places statuses
        → (u : ℕ) → MayBeSent batch statuses u → IsInRest batch statuses u }
{}

/// Responses that fit a batch, with responses that fit its rest in place of those to the same requests, fit the batch.
/// So a rest can be sent, then the rest by these responses, and so on until one is empty (OData JSON Format 4.01,
/// section 19.5).
pub fn every_resending()
    ensures { (batch : List Record) (responses others : List Entry) (places statuses : List ℕ)
        (answers : ℕ → Answer) (rest : Rest) → HasGoodNames batch → Fits batch responses
        → IsTableOf batch responses places statuses → IsRestOf batch statuses answers rest
        → Fits (records_in batch rest) others → Fits batch (with_rest responses others) }
{}

/// What the text of a rest is read as, whatever numbers its bodies hold (OData JSON Format 4.01, section 19.1).
///
/// What `serde_json` reads from the text, also with a newline at its end, is the canonical value of the requests of
/// the rest. So each body is the value that the document of the batch has for it. If that document has no fault of
/// shape, the text has none, and it is the batch of these requests. [`every_rest`] says of their names that they fit
/// together, so that [`odb_check::check`] returns a plan of what is read.
pub fn every_text()
    ensures value { (document : List ℕ) (d : Data) (batch : List Record) (rest : Rest) (text : List ℕ)
        → IsBatchIn document d batch → IsTextOf document d batch rest text
        → read text ≡ Some (canonical_value (records_in batch rest)) }
    ensures line { (document : List ℕ) (d : Data) (batch : List Record) (rest : Rest) (text : List ℕ)
        → IsBatchIn document d batch → IsTextOf document d batch rest text
        → read (text ++ codes "\n") ≡ Some (canonical_value (records_in batch rest)) }
    ensures document { (document : List ℕ) (d : Data) (batch : List Record) (statuses : List ℕ)
        (answers : ℕ → Answer) (rest : Rest) (text : List ℕ)
        → IsBatchIn document d batch → IsWellShaped d → IsRestOf batch statuses answers rest
        → IsTextOf document d batch rest text → IsDocumentOf text (records_in batch rest) }
{
    odb_names::laws::one_reading();
}

/// A rest and its text are determined, the text by the bytes of the batch's document too: so are the faults by which there is none.
pub fn one_rest()
    ensures text { (document : List ℕ) (d : Data) (batch : List Record) (statuses : List ℕ)
        (answers : ℕ → Answer) (rest other : Rest) (text different : List ℕ) → IsJson document d
        → IsRestOf batch statuses answers rest → IsRestOf batch statuses answers other
        → IsTextOf document d batch rest text → IsTextOf document d batch other different → text ≡ different }
    ensures fault { (batch : List Record) (units : List Bool) (answers : ℕ → Answer)
        (fault other : RestFault) → IsSome (rest_row fault) → IsSome (rest_row other)
        → RefusesRest fault batch units answers → RefusesRest other batch units answers → fault ≡ other }
    ensures none { (batch : List Record) (statuses : List ℕ) (answers : ℕ → Answer) (rest : Rest)
        (fault : RestFault) → IsSome (rest_row fault) → RefusesRest fault batch (kept rest) answers
        → ¬ IsRestOf batch statuses answers rest }
{
    odb_spans::laws::one_place();
}

/// What holds of every part of a batch on its way (OData JSON Format 4.01, sections 19.1 and 19.4), by what has become of its
/// requests.
///
/// Which requests are in a part is determined. None of them has started, and what they need is in the part or has
/// succeeded. They are no more than the limit; there are some if a unit may go, unless a unit has more requests than the
/// limit. The check accepts a part, as it does a rest: its names fit together, its plan is that of the batch over its
/// requests, and its text is a document of them. The rest of a batch is the part of all that is in it.
pub fn every_part()
    ensures one { (batch : List Record) (states : List RequestState) (limit : ℕ)
        (answers : ℕ → Answer) (part other : Rest) → IsPartAfter batch states limit answers part
        → IsPartAfter batch states limit answers other → kept part ≡ kept other }
    ensures fresh { (batch : List Record) (states : List RequestState) (limit : ℕ)
        (answers : ℕ → Answer) (part : Rest) → IsPartAfter batch states limit answers part
        → IsFresh batch states (kept part) }
    ensures needs { (batch : List Record) (states : List RequestState) (limit : ℕ)
        (answers : ℕ → Answer) (part : Rest) → HasGoodNames batch
        → IsPartAfter batch states limit answers part → NeedsMet batch states (kept part) }
    ensures limit { (batch : List Record) (states : List RequestState) (limit : ℕ)
        (answers : ℕ → Answer) (part : Rest) → IsPartAfter batch states limit answers part
        → length (records_in batch part) ≤ limit }
    ensures some { (batch : List Record) (done left : List Bool) (limit : ℕ)
        (answers : ℕ → Answer) (part : List Bool)
        → IsNextPart batch done left limit answers part → HasNoLonger batch limit
        → (u : ℕ) → MayGo batch done left u → HasSome batch part }
    ensures accepted { (batch : List Record) (states : List RequestState) (limit : ℕ)
        (answers : ℕ → Answer) (part : Rest) → HasGoodNames batch
        → IsPartAfter batch states limit answers part → HasGoodNames (records_in batch part) }
    ensures plan { (batch : List Record) (states : List RequestState) (limit : ℕ)
        (answers : ℕ → Answer) (part : Rest) → HasGoodNames batch
        → IsPartAfter batch states limit answers part
        → IsPartOfPlan batch (kept part) (records_in batch part) }
    ensures document { (document : List ℕ) (d : Data) (batch : List Record) (states : List RequestState)
        (limit : ℕ) (answers : ℕ → Answer) (part : Rest) (text : List ℕ)
        → IsBatchIn document d batch → IsWellShaped d → IsPartAfter batch states limit answers part
        → IsTextOf document d batch part text → IsDocumentOf text (records_in batch part) }
    ensures rest { (batch : List Record) (statuses : List ℕ) (answers : ℕ → Answer)
        (done : List Bool) (rest : Rest) → HasGoodNames batch
        → AreMarksOf batch (IsDone batch statuses) done → IsRestOf batch statuses answers rest
        → IsPartOf batch done (kept rest) (length batch) answers rest }
{
    odb_names::laws::one_reading();
}
