// How the variables of a category take the values of a ground one.
ghost use Rattle.std.specs.Prelude.{◌≡◌, ◌↔◌, ℕ, Some, All, IsTrue};
ghost use Rattle.std.specs.Bool.{OnTrue, OnFalse};
ghost use Rattle.codeco_terms.specs.Unification.{Bindings, Extends, Meets, AgreeOnShared, Equates, CanEquate, IsLeastExtension, HasRoom, meaning_of};

use crate::{Category, Env, Ground, Term, Value};
use wiki_base::Copied;

/// Makes the category equal to the ground one on each feature that both have, by giving variables values. True
/// exactly where the names are equal and some extension of the map does so; then just the variables needed are added.
/// On false the map is as before.
pub fn unify(cat: &Category, other: &Ground, env: &mut Env) -> bool
    requires { All (λ p. HasRoom p.1) cat.now.feats }

    ensures exact { IsTrue result ↔ CanEquate cat.now other.now env.old }
    ensures added { OnTrue result (IsLeastExtension (Equates cat.now other.now) env.old env.new) }
    ensures unchanged { OnFalse result (env.new ≡ env.old) }
{
    if cat.name != other.name {
        return false;
    }
    let mut tried = env.copy();
    if !meet_feats(&mut tried, cat.feats.as_slice(), other.vals.as_slice()) {
        return false;
    }
    *env = tried;
    true
}

// Makes each feature equal to the values that are its own.
fn meet_feats(env: &mut Env, feats: &[(u16, Term)], vals: &[(u16, Value)]) -> bool
    requires { All (λ p. HasRoom p.1) feats.now }

    ensures yes { OnTrue result (IsLeastExtension (λ m. AgreeOnShared m feats.now vals.now) env.old env.new) }
    ensures no { OnFalse result ((m : Bindings) → Extends env.old m → ¬ AgreeOnShared m feats.now vals.now) }
{
    for (feature, term) in feats {
        if !meet_vals(env, *feature, *term, vals) {
            return false;
        }
    }
    true
}

// Makes the term equal to each value of the feature.
fn meet_vals(env: &mut Env, feature: u16, term: Term, vals: &[(u16, Value)]) -> bool
    requires { HasRoom term }

    ensures yes { OnTrue result (IsLeastExtension (λ m. All (Meets m feature term) vals.now) env.old env.new) }
    ensures no { OnFalse result ((m : Bindings) → Extends env.old m → ¬ All (Meets m feature term) vals.now) }
{
    for (other, value) in vals {
        if feature == *other && !meet(env, term, *value) {
            return false;
        }
    }
    true
}

// Makes the term equal to the value.
fn meet(env: &mut Env, term: Term, value: Value) -> bool
    requires { HasRoom term }

    ensures yes { OnTrue result (IsLeastExtension (λ m. meaning_of m term ≡ Some value) env.old env.new) }
    ensures no { OnFalse result ((m : Bindings) → Extends env.old m → ¬ (meaning_of m term ≡ Some value)) }
{
    match term {
        Term::Val(known) => known == value,
        Term::Var(variable) => match env.get(variable) {
            Some(known) => known == value,
            None => {
                env.set(variable, value);
                true
            }
        },
    }
}
