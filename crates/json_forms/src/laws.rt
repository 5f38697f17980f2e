//! Laws of the documents. Each is the contract of a function with an empty body.
ghost use Rattle.std.specs.Prelude.{◌≡◌, ℕ, ℤ, List, Some, Ok};
ghost use Rattle.std.specs.List.{AllByRecursion};
ghost use Rattle.serde_json.specs.Read.{read};
ghost use Rattle.td_civil.specs.declared.local_time.Observance.{Observance};
ghost use Rattle.catalogue.specs.declared.release.Leaps.{Leaps};
ghost use Rattle.json_forms.specs.declared.zone_list.ListDoc.{ListDoc};
ghost use Rattle.json_forms.specs.declared.zone_list.ListZone.{ListZone};
ghost use Rattle.json_forms.specs.declared.problem_type.Problem.{Problem};
ghost use Rattle.json_forms.specs.ExpansionDocument.{expansion_data, expansion_document};
ghost use Rattle.json_forms.specs.ExpansionDocument.{HasOffsets};
ghost use Rattle.json_forms.specs.LeapDocument.{leap_data, leap_document, HasOffset};
ghost use Rattle.json_forms.specs.ListDocument.{list_data, list_document};
ghost use Rattle.json_forms.specs.ListReading.{list_read};
ghost use Rattle.json_forms.specs.ProblemDocument.{problem_data, problem_document, problem_in};
ghost use Rattle.json_forms.specs.SoundLists.{IsSoundList};

/// Reading the text of a list gives the tree that it was printed from. If the list is sound, it
/// gives that list.
#[tactic(auto, using(crate::proofs::lemmas::ListReads::list_reads, crate::proofs::lemmas::ListFound::list_back))]
pub fn list_reads_back()
    ensures tree { (token : List ℕ) (zones : List ListZone)
        → read (list_document token zones) ≡ Some (list_data token zones) }
    ensures list { (list : ListDoc) → IsSoundList list
        → list_read (list_document list.token list.zones) ≡ Ok list }
{}

/// Reading the text of a problem gives the tree that it was printed from, and that problem.
#[tactic(auto, using(crate::proofs::lemmas::ProblemReads::problem_reads, crate::proofs::lemmas::ProblemReads::problem_found))]
pub fn problem_reads_back()
    ensures tree { (problem : Problem)
        → read (problem_document problem) ≡ Some (problem_data problem) }
    ensures problem { (problem : Problem)
        → problem_in (problem_document problem) ≡ Some problem }
{}

/// Reading the text of an expansion gives the tree that it was printed from.
#[tactic(auto, using(crate::proofs::ExpansionReads::expansion_reads))]
pub fn expansion_reads_back()
    ensures { (tzid : List ℕ) (from until : ℤ) (observances : List Observance)
        → AllByRecursion HasOffsets observances
        → read (expansion_document tzid from until observances)
        ≡ Some (expansion_data tzid from until observances) }
{}

/// Reading the text of a table of leap seconds gives the tree that it was printed from.
#[tactic(auto, using(crate::proofs::LeapReads::table_reads))]
pub fn leap_reads_back()
    ensures { (leaps : Leaps) (publisher version : List ℕ) → AllByRecursion HasOffset leaps.steps
        → read (leap_document leaps publisher version) ≡ Some (leap_data leaps publisher version) }
{}
