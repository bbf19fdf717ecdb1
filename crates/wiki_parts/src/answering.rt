// The names that answer a question.
ghost use Rattle.std.specs.Prelude.{◌≡◌, ◌&&◌, All, Contains, IfOk, IfSome, IsTrue};
ghost use Rattle.std.specs.List.{list_all};
ghost use Rattle.absorb.specs.Absorbed.{IsAbsorbed};
ghost use Rattle.absorb.specs.Mentioned.{names_in, is_among, are_over};
ghost use Rattle.answers.specs.Answered.{IsInAll, IsOutsideSome, IsUnknown};
ghost use Rattle.logic_terms.specs.Interpretation.{element_of};
ghost use Rattle.logic_terms.specs.Plain.{is_plain, are_plain};
ghost use Rattle.logic_terms.specs.Reading.{IsIn};
ghost use Rattle.logic_terms.specs.Shown.{concept_of};
ghost use Rattle.owl_eval.specs.Checked.{kept_interp, kept_claims};
ghost use Rattle.consequences.specs.Known.{theory_in};
ghost use Rattle.wiki_base.specs.declared.numbers.WordId.{WordId};
ghost use Rattle.plain_wiki.specs.Knowledge.{Answer, live_names};
ghost use Rattle.plain_wiki.specs.Telling.{spelled};
ghost use Rattle.wiki_parts.specs.Spending.{IsCutOff};

use answers::{Answers, ask, ask_known};
use consequences::Consequences;
use lexicon::Lexicon;
use logic_terms::{Class, Names};
use owl_eval::CheckedModel;
use std::alloc::Global;
use wiki_base::{Memory, Spelled, Text8, Text8s};

/// The names that answer the question for a class, by the kept model and the consequences of its axioms, where these were
/// looked for before, and those of which that isn't known.
pub fn answers_of(
    alloc: Global,
    known: &Option<Consequences>,
    class: &Class,
    kept: &CheckedModel,
    names: &Names,
    budget: u64,
) -> Result<Answers, Memory>
    requires absorbed { IfSome known.now (λ k. IsAbsorbed (kept_claims kept.now) names.now (theory_in k)) }
    requires over { IsTrue (are_over names.now (kept_claims kept.now) && list_all (is_among names.now) (names_in (concept_of class.now))) }
    requires plain { IsTrue (are_plain (kept_claims kept.now) && is_plain (concept_of class.now)) }
    ensures answer { IfOk result (λ a. Answer (kept_claims kept.now) names.now (IsCutOff budget) (concept_of class.now) a.yes a.unknown) }
    ensures kept_has_unknown { IfOk result
        (λ a. All (λ n. IsIn (kept_interp kept.now) (concept_of class.now) (element_of (kept_interp kept.now) n)) a.unknown) }
{
    let answers = asked(alloc, known, class, kept, names, budget)?;
    let _ = answers.yes.as_slice();
    let _ = answers.unknown.as_slice();
    Ok(answers)
}

// The answers by the consequences, or by the axioms alone.
fn asked(
    alloc: Global,
    known: &Option<Consequences>,
    class: &Class,
    kept: &CheckedModel,
    names: &Names,
    budget: u64,
) -> Result<Answers, Memory>
    requires absorbed { IfSome known.now (λ k. IsAbsorbed (kept_claims kept.now) names.now (theory_in k)) }
    requires over { IsTrue (are_over names.now (kept_claims kept.now) && list_all (is_among names.now) (names_in (concept_of class.now))) }
    requires plain { IsTrue (are_plain (kept_claims kept.now) && is_plain (concept_of class.now)) }
    ensures yes { IfOk result (λ a. All (IsInAll (kept_claims kept.now) (concept_of class.now)) a.yes) }
    ensures unknown { IfOk result (λ a. All (IsUnknown (kept_claims kept.now) names.now budget (concept_of class.now)) a.unknown) }
    ensures kept_has_unknown { IfOk result
        (λ a. All (λ n. IsIn (kept_interp kept.now) (concept_of class.now) (element_of (kept_interp kept.now) n)) a.unknown) }
    ensures others { IfOk result (λ a. (n : WordId) → Contains names.now n → ¬ Contains a.yes n → ¬ Contains a.unknown n
        → IsOutsideSome (kept_claims kept.now) (concept_of class.now) n) }
    ensures given { IfOk result (λ a. All (Contains names.now) a.yes × All (Contains names.now) a.unknown) }
    ensures apart { IfOk result (λ a. (n : WordId) → Contains a.yes n → ¬ Contains a.unknown n) }
{
    match known {
        Some(found) => ask_known(alloc, found, class, kept, names, budget),
        None => ask(alloc, class, kept, names, budget),
    }
}

/// The canonical forms of words.
pub fn spelled(alloc: Global, lexicon: &Lexicon, names: &Names) -> Result<Text8s, Memory>
    ensures { IfOk result (λ texts. texts ≡ spelled lexicon.now names.now) }
{
    let mut texts = Text8s::new(alloc);
    for place in 0..names.len() {
        let form = lexicon.spelled(names.get(place)).unwrap_or("");
        texts.push(Text8::from_str(alloc, form)?)?;
    }
    Ok(texts)
}
